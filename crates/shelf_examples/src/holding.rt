ghost use Rattle.shelf.specs.Answers.{done};
ghost use Rattle.shelf.specs.Calls.{receives, picks};
ghost use Rattle.shelf_examples.specs.Holding.{GuaranteedTogether, Ordered, Borrowed, Returned, TwoPicks};
ghost use Rattle.slips.specs.Slips.{picked};

use super::Unended;
use rulebook::{Case, Refusal, RuleBook};
use shelf::Shelf;
use slips::{Slip, pick};

// Picks an item and orders it: the place that it came from, or why there is no pick. The slip is of this shelf and its place has one out, so the
// order is granted.
pub fn pick_and_order<B: RuleBook, S: Shelf<Item = B::Item>>(
    book: &B,
    shelf: &mut S,
    case: &Case,
) -> Result<usize, Refusal>
    ensures { Ordered (B.rules book.now) case.now (S.meaning shelf.old) result (S.meaning shelf.new) }
{
    let slip = pick(book, shelf, case)?;
    let from = slip.place();
    slip.order(shelf).unwrap();
    Ok(from)
}

// Picks an item and returns it, likewise. The shelf is then as it was. It differs from the order in the call that ends the slip alone; were that call a
// closure, each caller would have to show that it is granted.
pub fn pick_and_return<B: RuleBook, S: Shelf<Item = B::Item>>(
    book: &B,
    shelf: &mut S,
    case: &Case,
) -> Result<usize, Refusal>
    ensures { Borrowed (B.rules book.now) case.now (S.meaning shelf.old) result (S.meaning shelf.new) }
{
    let slip = pick(book, shelf, case)?;
    let place = slip.place();
    slip.give_back(shelf).unwrap();
    Ok(place)
}

// Picks an item and returns it. A slip that is not ended goes to the caller, who has to end it.
pub fn pick_then_return<B: RuleBook, S: Shelf<Item = B::Item>>(
    book: &B,
    shelf: &mut S,
    case: &Case,
) -> Result<(), Unended>
    ensures { Returned (B.rules book.now) case.now (S.meaning shelf.old) result (S.meaning shelf.new) }
{
    let slip = pick(book, shelf, case)?;
    slip.give_back(shelf)?;
    Ok(())
}

// Two picks, one after the other: the caller has to end both slips.
pub fn pick_twice<B: RuleBook, S: Shelf<Item = B::Item>>(
    book: &B,
    shelf: &mut S,
    case: &Case,
) -> (Result<Slip, Refusal>, Result<Slip, Refusal>)
    ensures { TwoPicks (B.rules book.now) case.now (S.meaning shelf.old) result.0 result.1 (S.meaning shelf.new) }
{
    let first = pick(book, shelf, case);
    let second = pick(book, shelf, case);
    (first, second)
}

// A receipt and then a pick, each by its own call. They are a list of calls like any other: the guarantee holds of them behind whatever led here from
// an opening.
pub fn receive_then_pick<B: RuleBook, S: Shelf<Item = B::Item>>(
    book: &B,
    shelf: &mut S,
    place: usize,
    count: u32,
    case: &Case,
) -> (Result<(), Refusal>, Result<Slip, Refusal>)
    ensures { GuaranteedTogether (S.meaning shelf.old) (receives place count) (done result.0) (picks (B.rules book.now) case.now) (picked result.1) (S.meaning shelf.new) }
{
    let received = shelf.receive(place, count);
    let picked = pick(book, shelf, case);
    (received, picked)
}
