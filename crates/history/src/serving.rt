ghost use Rattle.history.specs.Guarantee.{Served};
ghost use Rattle.history.specs.Decided.{Decided};
ghost use Rattle.shelf.specs.Calls.{asked};
ghost use Rattle.shelf.specs.Steps.{Step};

use picking::take_best;
use rulebook::RuleBook;
use shelf::{Answer, Granted, Places, Request, Shelf};
use std::alloc::AllocError;

// One call, with its answer.
fn answer<B: RuleBook, S: Shelf<Item = B::Item>>(
    book: &B,
    shelf: &mut S,
    call: Request,
) -> Answer<B::Item>
    ensures { Step (S.meaning shelf.old) (asked (B.rules book.now) call) result (S.meaning shelf.new) }
{
    Ok(match call {
        Request::Receive { place, count } => {
            shelf.receive(place, count)?;
            Granted::Done
        }
        Request::Pick(case) => {
            let taken = take_best(book, shelf, &case)?;
            Granted::Picked {
                number: taken.number,
                place: taken.place,
            }
        }
        Request::Order { number, place } => {
            shelf.order(number, place)?;
            Granted::Done
        }
        Request::GiveBack { number, place } => {
            shelf.give_back(number, place)?;
            Granted::Done
        }
        Request::Place { place } => Granted::Shown(shelf.place(place)?),
        Request::Places => {
            let Places { count, number } = shelf.places();
            Granted::Counted { number, count }
        }
    })
}

// Makes the calls one after the other, under the book, and puts an answer to each behind the answers. A want of memory is met before the first call, and
// then nothing has changed.
#[tactic(auto, using(crate::proofs::Alike::decided))]
pub fn serve<B: RuleBook, S: Shelf<Item = B::Item>>(
    book: &B,
    shelf: &mut S,
    calls: &[Request],
    answers: &mut Vec<Answer<B::Item>>,
) -> Result<(), AllocError>
    ensures guarantee { Served (B.rules book.now) calls.now answers.old.items answers.new.items (S.meaning shelf.old) (S.meaning shelf.new) result }
    ensures decided { Decided B.Item }
{
    answers.reserve(calls.len())?;
    for call in calls {
        answers.push_reserved(answer(book, shelf, *call));
    }
    Ok(())
}
