ghost use Rattle.picking.specs.Taking.{picked_at};
ghost use Rattle.shelf.specs.Calls.{picks};
ghost use Rattle.shelf.specs.Steps.{Step};

use super::Taken;
use super::search::best;
use rulebook::{Case, Refusal, RuleBook};
use shelf::Shelf;

// Takes the best item on hand that passes, and answers the numbers of its slip. Refused by the loads, then by the rest of the case, then where no item
// on hand passes. Book, shelf and case are lent by three owners for one call, here and in what calls this.
pub fn take_best<B: RuleBook, S: Shelf<Item = B::Item>>(
    book: &B,
    shelf: &mut S,
    case: &Case,
) -> Result<Taken, Refusal>
    ensures { Step (S.meaning shelf.old) (picks (B.rules book.now) case.now) (picked_at result) (S.meaning shelf.new) }
{
    if !book.loads_within(case) {
        return Err(Refusal::Loads);
    }
    if !book.rest_within(case) {
        return Err(Refusal::Rest);
    }
    let place = best(book, shelf, case).ok_or(Refusal::NoneOnHand)?;
    let number = shelf.places().number;
    shelf.take(place)?;
    Ok(Taken { number, place })
}
