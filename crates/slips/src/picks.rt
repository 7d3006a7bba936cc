ghost use Rattle.shelf.specs.Calls.{picks, orders, returns};
ghost use Rattle.shelf.specs.Steps.{Step};
ghost use Rattle.slips.specs.Slips.{picked, ended, BackAs};
ghost use Rattle.std.specs.Prelude.{◌≡◌, false, IfOk};

use super::{HandedBack, Slip};
use picking::take_best;
use rulebook::{Case, Refusal, RuleBook};
use shelf::Shelf;

// Takes the best item on hand that passes, and hands over a slip for it. Refused by the loads, then by the rest of the case, then where no item on hand
// passes.
pub fn pick<B: RuleBook, S: Shelf<Item = B::Item>>(
    book: &B,
    shelf: &mut S,
    case: &Case,
) -> Result<Slip, Refusal>
    ensures step { Step (S.meaning shelf.old) (picks (B.rules book.now) case.now) (picked result) (S.meaning shelf.new) }
    ensures not_ended { IfOk result (λ slip. slip.ended ≡ false) }
{
    let taken = take_best(book, shelf, case)?;
    Ok(Slip {
        number: taken.number,
        place: taken.place,
        ended: false,
    })
}

impl Slip {
    pub fn number(&self) -> u32
        ensures { result ≡ self.now.number }
    {
        self.number
    }

    pub fn place(&self) -> usize
        ensures { result ≡ self.now.place }
    {
        self.place
    }

    // The bearing goes to the seat. A refused order hands the slip back.
    pub fn order<S: Shelf>(self, shelf: &mut S) -> Result<(), HandedBack>
        ensures step { Step (S.meaning shelf.old) (orders self.number self.place) (ended result) (S.meaning shelf.new) }
        ensures back { BackAs self result }
    {
        let answer = shelf.order(self.number, self.place);
        self.settled(answer)
    }

    // The bearing comes back to its place. A refused return hands the slip back.
    pub fn give_back<S: Shelf>(self, shelf: &mut S) -> Result<(), HandedBack>
        ensures step { Step (S.meaning shelf.old) (returns self.number self.place) (ended result) (S.meaning shelf.new) }
        ensures back { BackAs self result }
    {
        let answer = shelf.give_back(self.number, self.place);
        self.settled(answer)
    }
}
