// 000 Algorithm 7, RUNSCRIPT, called from A9:9 to 12.
#![tactic(auto)]

pub mod commands; // the commands that load nothing

ghost use Rattle.types.specs.Lists.{cookies_in};
ghost use Rattle.wim.specs.Script.{command, run_script};
ghost use Rattle.stepping.specs.Performs.{Performs};
ghost use Rattle.storing.specs.Stored.{storing};

use memory::Memory;
use stepping::Performed;
use storing::scene::Scene;
use types::commands::Command;
use types::cookies::SetCookies;
use types::items::Output;
use types::{Fresh, WindowNumber};

// A7:18
fn command(m: &mut Memory, s: Scene) -> Performed
    ensures { Performs (command s.window s.document (storing s) s.output.command) s.fresh m.old m.new result }
{
    match s.output.command {
        Command::Nothing => commands::nothing(m, s),
        Command::Href(url, to, noreferrer) => script_loads::href(m, s, url, noreferrer, to),
        Command::Iframe(url, holder) => script_loads::iframe(m, s, url, holder),
        Command::Form(url, method, data, to) => script_loads::form(m, s, url, method, data, to),
        Command::SetScript(x, script) => commands::set_script(m, s, x, script),
        Command::SetScriptState(x, state) => commands::set_script_state(m, s, x, state),
        Command::XmlHttpRequest(url, method, data, matching) => {
            script_loads::xhr(m, s, url, method, data, matching)
        }
        Command::Back(x) => commands::back(m, s, x),
        Command::Forward(x) => commands::forward(m, s, x),
        Command::Close(x) => commands::close(m, s, x),
        Command::PostMessage(x, message, to) => commands::post_message(m, s, x, message, to),
    }
}

// A7:11 to 18, for the active document of w under its top-level window.
pub fn run_script(
    m: &mut Memory,
    w: WindowNumber,
    out: Output,
    new: SetCookies,
    f: Fresh,
) -> Performed
    ensures { Performs (run_script w out (cookies_in new)) f m.old m.new result }
{
    let (top, d) = history::displayed(m, w)?;
    let merged = storing::merge(m, d.location.host, new, d.location.protocol);
    let s = Scene {
        window: w,
        document: d,
        top,
        merged,
        output: out,
        fresh: f,
    };
    command(m, s)
}
