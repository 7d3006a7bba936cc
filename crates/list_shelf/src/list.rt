ghost use Rattle.list_shelf.specs.Slots.{stock_of};

use super::ListShelf;
use super::slots::{change_slot, place_in};
use rulebook::Refusal;
use shelf::{Change, Place, Places, Shelf};

impl<'a, I: Copy> Shelf for ListShelf<'a, I> {
    type Item = I;

    ghost meaning = { λ s. stock_of s.number s.slots.now };

    fn places(&self) -> Places {
        Places {
            count: self.slots.len(),
            number: self.number,
        }
    }

    fn place(&self, place: usize) -> Result<Place<I>, Refusal> {
        place_in(self.slots, place)
    }

    fn change(&mut self, place: usize, change: Change) -> Result<(), Refusal> {
        change_slot(self.slots, place, change)
    }
}
