// What goes when a window is closed (000 A7:81): the window itself, its documents, and all that stands under them.
ghost use Rattle.std.specs.Prelude.{◌≡◌, ◌∷◌, map, take};
ghost use Rattle.types.specs.Lists.{window_numbers};
ghost use Rattle.tables.specs.Tables.{windows, cap};
ghost use Rattle.wim.specs.Walks.{documents_of, removal};
ghost use Rattle.wim.specs.Script.{with_window};
ghost use Rattle.memory.specs.Rows.{table};
ghost use Rattle.layouts.specs.Tables.{windows_in, documents_in};
ghost use Rattle.documents.specs.Told.{number_of};
ghost use Rattle.removing.specs.Gone.{going};

use memory::Memory;
use removing::told::Removal;
use types::{WindowNumber, WindowNumbers};

// The windows that there may be, and before them v: the others move up by one, and the last place comes round to the front.
fn and_window(ws: WindowNumbers, v: WindowNumber) -> WindowNumbers
    ensures { window_numbers result ≡ v ∷ take (cap windows) (window_numbers ws) }
{
    let mut rows = ws.rows;
    rows.rotate_right(1);
    rows[0] = v;
    let others = ws.count.min(windows::WINDOWS);
    WindowNumbers {
        rows,
        count: others + 1,
    }
}

pub fn with_all_under(m: &Memory, v: WindowNumber) -> Removal
    ensures { going result ≡ with_window v (removal (table windows_in m.now) (table documents_in m.now) (map number_of (documents_of (table documents_in m.now) v))) }
{
    let own = documents::numbers(m, |d| d.window == v);
    let under = removing::removal(m, own);
    Removal {
        windows: and_window(under.windows, v),
        ..under
    }
}
