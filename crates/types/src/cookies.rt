// Cookies: 000 Definition 14.

// With the prefix __Host, or without.
#[derive(Clone, Copy, PartialEq, Eq)]
pub struct CookieName {
    pub prefixed: bool,
    pub number: u16,
}

#[derive(Clone, Copy)]
pub struct CookieValue(pub u32);

#[derive(Clone, Copy)]
pub struct Cookie {
    pub name: CookieName,
    pub value: CookieValue,
    pub secure: bool,
    pub session: bool,
    pub httponly: bool,
}

// What a request carries of a cookie.
#[derive(Clone, Copy)]
pub struct Pair {
    pub name: CookieName,
    pub value: CookieValue,
}

// The cookies of one answer or of one script step: an array and a count, since nothing is allocated (a rule of the project). In an item those past the count are blank, so that two equal lists are equal values; of what is merged only
// the first `count` say something.
#[derive(Clone, Copy)]
pub struct SetCookies {
    pub rows: [Cookie; 4],
    pub count: usize,
}

// A request's Cookie header, as many as the cookie table has rows for: an array and a count, since nothing is allocated. Those past the count are blank.
#[derive(Clone, Copy)]
pub struct Jar {
    pub rows: [Pair; 64],
    pub count: usize,
}
