// What a reading says, in words and numbers.
use std::io;
use types::Fresh;
use types::answers::Answer;
use types::commands::Command;
use types::items::{Event, Item};
use types::refusals::Refusal;

fn name_of(c: Command) -> &'static str {
    match c {
        Command::Nothing => "nothing",
        Command::Href(_, _, _) => "HREF",
        Command::Iframe(_, _) => "IFRAME",
        Command::Form(_, _, _, _) => "FORM",
        Command::SetScript(_, _) => "SETSCRIPT",
        Command::SetScriptState(_, _) => "SETSCRIPTSTATE",
        Command::XmlHttpRequest(_, _, _, _) => "XMLHTTPREQUEST",
        Command::Back(_) => "BACK",
        Command::Forward(_) => "FORWARD",
        Command::Close(_) => "CLOSE",
        Command::PostMessage(_, _, _) => "POSTMESSAGE",
    }
}

fn tell_answer(rt: &impl Print, a: Answer) -> io::Result<()> {
    print!(rt; " {} {}", a.number.0, a.status.0)?;
    if a.strict {
        print!(rt; " strict")?;
    }
    Ok(())
}

fn tell_event(rt: &impl Print, e: Event) -> io::Result<()> {
    match e {
        Event::RunScript(window, output) => {
            print!(rt; " script {} {}", window.0, name_of(output.command))
        }
        Event::Urlbar(_, url) => print!(rt; " urlbar {} {}", url.host.0, url.parameters.0),
        Event::Reload(window) => print!(rt; " reload {}", window.0),
        Event::GoForward(window) => print!(rt; " forward {}", window.0),
        Event::GoBack(window) => print!(rt; " back {}", window.0),
        Event::CloseCorrupt => print!(rt; " close"),
        Event::EncryptedAnswer(key, answer) => {
            print!(rt; " encrypted {}", key.0)?;
            tell_answer(rt, answer)
        }
        Event::PlainAnswer(answer) => {
            print!(rt; " plain")?;
            tell_answer(rt, answer)
        }
        Event::DnsResolved(answer) => print!(rt; " dns {} {}", answer.host.0, answer.address.0),
    }
}

fn tell_fresh(rt: &impl Print, f: Fresh) -> io::Result<()> {
    print!(rt;
        " fresh {} {} {} {} {}",
        f.window.0, f.request.0, f.dns.0, f.key.0, f.document.0
    )
}

pub fn tell_reading(rt: &impl Print, r: Result<Item, Refusal>) -> io::Result<()> {
    match r {
        Err(Refusal::BadText) => print!(rt; " 1"),
        Err(Refusal::BadShape) => print!(rt; " 2"),
        Err(_) => print!(rt; " ?"),
        Ok(item) => {
            print!(rt; " item")?;
            tell_event(rt, item.event)?;
            print!(rt; " cookies {}", item.cookies.count)?;
            tell_fresh(rt, item.fresh)
        }
    }
}
