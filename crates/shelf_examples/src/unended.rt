ghost use Rattle.shelf_examples.specs.declared.unended.Unended.TheVariants.{NotPicked, NotReturned};
ghost use Rattle.std.specs.Prelude.{◌≡◌};

use rulebook::Refusal;
use slips::HandedBack;

// Why a pick did not end in a return.
pub enum Unended {
    NotPicked(Refusal),
    NotReturned(HandedBack),
}

impl From<Refusal> for Unended {
    ghost from_gives = { λ why unended. unended ≡ NotPicked why };

    fn from(why: Refusal) -> Unended {
        Unended::NotPicked(why)
    }
}

impl From<HandedBack> for Unended {
    ghost from_gives = { λ back unended. unended ≡ NotReturned back };

    fn from(back: HandedBack) -> Unended {
        Unended::NotReturned(back)
    }
}
