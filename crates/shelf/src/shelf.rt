ghost use Rattle.rulebook.specs.declared.refusal.Refusal.TheVariants.{OtherShelf};
ghost use Rattle.shelf.specs.Answers.{done, shown};
ghost use Rattle.shelf.specs.Calls.{receives, orders, returns, asks_place, asks_places};
ghost use Rattle.shelf.specs.Changes.{Changed};
ghost use Rattle.shelf.specs.Steps.{Step, Takes};
ghost use Rattle.shelf.specs.Stock.{Stock};
ghost use Rattle.shelf.specs.declared.answer.Granted.TheVariants.{Counted};
ghost use Rattle.std.specs.Prelude.{◌≡◌, ◌==◌, cond};

use super::{Change, Place, Places};
use rulebook::Refusal;

impl Places {
    // Admits a slip by the number of its shelf.
    fn admit(self, number: u32) -> Result<(), Refusal>
        ensures { result ≡ cond (number == self.number) (Ok tt) (Err OtherShelf) }
    {
        if number != self.number {
            return Err(Refusal::OtherShelf);
        }
        Ok(())
    }
}

// A shelf: its number, and its places from the front, each with an item and its counts. `meaning` is what it holds, and each call's contract is the
// step from the meaning before, by the call with its answer, to the meaning after; of `change` and `take`, which are no calls of a history, it is the
// change of one place. The number and the place of a slip stay two parameters, and a place and a count too, since a text may hand in any two numbers.
pub trait Shelf {
    type Item: Copy;

    ghost meaning: { Self → Stock Self.Item };

    fn places(&self) -> Places
        ensures { Step (meaning self.now) asks_places (Ok (Counted result.number result.count)) (meaning self.now) };

    // Refused off the shelf.
    fn place(&self, place: usize) -> Result<Place<Self::Item>, Refusal>
        ensures { Step (meaning self.now) (asks_place place) (shown result) (meaning self.now) };

    // Changes the counts of one place, or refuses and leaves all as they were. The calls below are made of it. It asks for no number of a slip.
    fn change(&mut self, place: usize, change: Change) -> Result<(), Refusal>
        ensures { Changed change place (meaning self.old) result (meaning self.new) };

    // Adds to on hand. Refused off the shelf, and where the count is 0 or brings on hand plus out above 60,000.
    fn receive(&mut self, place: usize, count: u32) -> Result<(), Refusal>
        ensures { Step (meaning self.old) (receives place count) (done result) (meaning self.new) }
    {
        self.change(place, Change::Receive(count))
    }

    // Moves one from on hand to out. Refused off the shelf, and with none on hand. A pick makes this call; by itself it is no call of a history.
    fn take(&mut self, place: usize) -> Result<(), Refusal>
        ensures { Takes place (meaning self.old) (done result) (meaning self.new) }
    {
        self.change(place, Change::Take)
    }

    // Ends a slip with these numbers: lowers out by one. Refused with another shelf's number, and where the place is off the shelf or has none out.
    fn order(&mut self, number: u32, place: usize) -> Result<(), Refusal>
        ensures { Step (meaning self.old) (orders number place) (done result) (meaning self.new) }
    {
        self.places().admit(number)?;
        self.change(place, Change::Order)
    }

    // Ends a slip with these numbers: moves one from out back to on hand. Refused as an order is.
    fn give_back(&mut self, number: u32, place: usize) -> Result<(), Refusal>
        ensures { Step (meaning self.old) (returns number place) (done result) (meaning self.new) }
    {
        self.places().admit(number)?;
        self.change(place, Change::GiveBack)
    }
}
