// Why a step is refused (01 "Refusal numbers").

ghost use Rattle.std.specs.Prelude.{◌≡◌};
ghost use Rattle.types.specs.declared.refusals.Refusal.TheVariants.{Lacking};

// Which thing isn't there; all are refusal 3.
#[derive(Clone, Copy)]
pub enum Missing {
    NoWindow,
    NoDocument,
    NoQuestion,
    NoRequest,
    Mismatch,
}

#[derive(Clone, Copy)]
pub enum Refusal {
    BadText,
    BadShape,
    Lacking(Missing),
    Stopped,
    NotFresh,
    Full,
    NoRoom,
    Closed,
}

impl From<Missing> for Refusal {
    ghost from_gives = { λ what why. why ≡ Lacking what };

    fn from(what: Missing) -> Refusal {
        Refusal::Lacking(what)
    }
}
