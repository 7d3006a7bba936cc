ghost use Rattle.rulebook.specs.Refusals.{refusal_text};
ghost use Rattle.std.specs.Prelude.{Some};

use super::Refusal;
use std::fmt;

impl fmt::Display for Refusal {
    ghost output = { λ refusal. Some (refusal_text refusal) };

    fn fmt<W: fmt::Write>(&self, f: &mut fmt::Formatter<W>) -> fmt::Result {
        write!(f, "refused {}: ", self.number())?;
        match self {
            Refusal::Item { field } => {
                write!(f, "field {field} of the item is outside its limits")
            }
            Refusal::OffShelf => write!(f, "the place is off the shelf"),
            Refusal::Receipt => write!(f, "a receipt of 0, or one above 60000 at its place"),
            Refusal::Loads => write!(f, "the loads are outside their limit"),
            Refusal::Rest => write!(f, "movement, rotation or mark is outside its range"),
            Refusal::NoneOnHand => write!(f, "no item on hand passes"),
            Refusal::OtherShelf => write!(f, "the slip is of another shelf"),
            Refusal::NoneOut => write!(f, "the place is off the shelf or has none out"),
        }
    }
}
