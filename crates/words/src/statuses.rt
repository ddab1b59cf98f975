// "Status is 100 to 505; only 303 and 307 with a Location redirect" (01 "The text").
ghost use Rattle.std.specs.Prelude.{◌≡◌};
ghost use Rattle.words.specs.Status.{status_kind};

#[derive(Clone, Copy, PartialEq, Eq)]
pub enum StatusKind {
    Redirects,
    Other,
}

// What a status number says, if it is one.
pub fn status_kind(n: u16) -> Option<StatusKind>
    ensures { result ≡ status_kind n }
{
    match n {
        303 | 307 => Some(StatusKind::Redirects),
        100..=505 => Some(StatusKind::Other),
        _ => None,
    }
}
