// What a script does to its own browser (000 A7:52 to 59): nothing beyond what every step stores, or the script, or a script's state, of a document is set.
ghost use Rattle.std.specs.Prelude.{true, [], map, None as none};
ghost use Rattle.tables.specs.Tables.{documents, update};
ghost use Rattle.tables.specs.Rows.{with_state, with_script, changing};
ghost use Rattle.wim.specs.Program.{done};
ghost use Rattle.wim.specs.Script.{setting};
ghost use Rattle.stepping.specs.Holds.{Carries};
ghost use Rattle.stepping.specs.Performs.{Performs};
ghost use Rattle.storing.specs.Stored.{storing};

use super::ending::end;
use documents::Documents;
use memory::Memory;
use rows::Table;
use stepping::Performed;
use storing::scene::{Scene, get_window};
use types::commands::{Script, ScriptState};
use types::rows::Document;
use types::{DocumentNumber, WindowNumber};

pub fn nothing(m: &mut Memory, s: Scene) -> Performed
    ensures { Performs (storing s (done none)) s.fresh m.old m.new result }
{
    end(m, s, |_| true)
}

fn write_script(m: &mut Memory, n: DocumentNumber, v: Script)
    ensures { Carries (update documents (map (changing n (with_script v)))) [] [] m.old m.new true }
{
    Documents::revise(
        m,
        |d| if d.number == n {
            Document { script: v, ..d }
        } else {
            d
        },
    );
}

// As write_script: not one function over the field, since a closure's `ensures` cannot name a function that the outer contract quantifies.
fn write_state(m: &mut Memory, n: DocumentNumber, v: ScriptState)
    ensures { Carries (update documents (map (changing n (with_state v)))) [] [] m.old m.new true }
{
    Documents::revise(
        m,
        |d| if d.number == n {
            Document { state: v, ..d }
        } else {
            d
        },
    );
}

// A7:52 to 55
pub fn set_script(m: &mut Memory, s: Scene, x: WindowNumber, v: Script) -> Performed
    ensures { Performs (setting s.document (storing s) x (with_script v)) s.fresh m.old m.new result }
{
    let n = get_window(m, s.document, x).number;
    let change = |m: &mut Memory| -> bool
        ensures { Carries (update documents (map (changing n (with_script v)))) [] [] m.old m.new result }
    {
        write_script(m, n, v);
        true
    };
    end(m, s, change)
}

// A7:56 to 59
pub fn set_script_state(m: &mut Memory, s: Scene, x: WindowNumber, v: ScriptState) -> Performed
    ensures { Performs (setting s.document (storing s) x (with_state v)) s.fresh m.old m.new result }
{
    let n = get_window(m, s.document, x).number;
    let change = |m: &mut Memory| -> bool
        ensures { Carries (update documents (map (changing n (with_state v)))) [] [] m.old m.new result }
    {
        write_state(m, n, v);
        true
    };
    end(m, s, change)
}
