ghost use Rattle.list_shelf.specs.Slots.{slot_items, stock_of, places_of, emptied};
ghost use Rattle.shelf.specs.Opening.{OpeningSays, Openable, Opened};
ghost use Rattle.std.specs.Prelude.{◌≡◌, map, OnOk};

use super::slots::clear;
use super::{ListShelf, Slot};
use rulebook::RuleBook;
use shelf::{Counts, OpeningRefusal};

const MOST_ITEMS: usize = 200;

impl<I: Copy> Slot<I> {
    pub fn new(item: I) -> Slot<I>
        ensures { (result.item ≡ item) × (result.counts.on_hand ≡ 0) × (result.counts.out ≡ 0) }
    {
        Slot {
            item,
            counts: Counts::none(),
        }
    }
}

impl<'a, I: Copy> ListShelf<'a, I> {
    // Whether a shelf of this number may be opened over the slots under the book. It leaves the slots as they are.
    pub fn check<B: RuleBook<Item = I>>(
        book: &B,
        number: u32,
        slots: &[Slot<I>],
    ) -> Result<(), OpeningRefusal>
        ensures says { OpeningSays (B.rules book.now).outside number (slot_items slots.now) result }
        ensures ok { OnOk result (Openable (B.rules book.now).outside number (slot_items slots.now)) }
    {
        if number == 0 {
            return Err(OpeningRefusal::ShelfNumber);
        }
        if slots.is_empty() || slots.len() > MOST_ITEMS {
            return Err(OpeningRefusal::ItemCount);
        }
        for (place, slot) in slots.iter().enumerate() {
            if let Some(field) = book.first_outside(&slot.item) {
                return Err(OpeningRefusal::Item { place, field });
            }
        }
        Ok(())
    }

    // Opens a shelf that `check` lets through: sets all counts to 0. It can't be refused.
    pub fn open<B: RuleBook<Item = I>>(
        _book: &B,
        number: u32,
        slots: &'a mut [Slot<I>],
    ) -> ListShelf<'a, I>
        requires { Openable (B.rules _book.now).outside number (slot_items slots.old) }
        ensures is { stock_of result.number result.slots.now ≡ record { number = number; places = map emptied (places_of slots.old) } }
        ensures opened { Opened (B.rules _book.now) (stock_of result.number result.slots.now) }
    {
        clear(slots);
        ListShelf { number, slots }
    }
}
