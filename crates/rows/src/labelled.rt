// Tables whose rows speak of windows, documents, requests, questions or keys.
ghost use Rattle.std.specs.Prelude.{◌≡◌, Bool, not, List};
ghost use Rattle.sorted.specs.Table.{find, is_some};
ghost use Rattle.memory.specs.Rows.{table};
ghost use Rattle.tables.specs.Labels.{Label, among};
ghost use Rattle.tables.specs.View.{label_of};
ghost use Rattle.rows.specs.Tables.{laid};

use super::Table;
use memory::Memory;
use types::Label;

pub trait Labelled: Table {
    ghost mentions: { Self.Head → List Label };

    ghost clean: { Label → List Self.Row → Bool };

    fn mentions(h: Self::Head, l: Label) -> bool
        ensures { result ≡ among (label_of l) (mentions h) };

    ghost cleaned: { (l : Label) (rows : List Self.Row) → not (is_some (find (λ r. among l (mentions (Self.head_of r))) rows)) ≡ clean l rows };

    // Whether no row speaks of a label.
    final fn clean(m: &Memory, l: Label) -> bool
        ensures { result ≡ clean (label_of l) (table (laid Self.COUNT Self.WIDTH Self.CAPACITY Self.decode) m.now) }
    {
        Self::first(m, |h| Self::mentions(h, l)).is_none()
    }
}
