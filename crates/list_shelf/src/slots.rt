ghost use Rattle.std.specs.Prelude.{◌≡◌, ℕ, map};
ghost use Rattle.list_shelf.specs.Slots.{places_of, stock_of, emptied};
ghost use Rattle.shelf.specs.Answers.{shown};
ghost use Rattle.shelf.specs.Calls.{asks_place};
ghost use Rattle.shelf.specs.Changes.{Changed};
ghost use Rattle.shelf.specs.Steps.{Step};

use super::Slot;
use rulebook::Refusal;
use shelf::{Change, Counts, Place};

// A shelf hands its slots on to these functions, which know of no shelf.

pub(crate) fn place_in<I: Copy>(slots: &[Slot<I>], place: usize) -> Result<Place<I>, Refusal>
    ensures { (number : ℕ) → Step (stock_of number slots.now) (asks_place place) (shown result) (stock_of number slots.now) }
{
    let slot = slots.get(place).ok_or(Refusal::OffShelf)?;
    Ok(Place {
        item: slot.item,
        on_hand: slot.counts.on_hand,
        out: slot.counts.out,
    })
}

// Changes the counts of one slot, or refuses and leaves all as they were.
pub(crate) fn change_slot<I: Copy>(
    slots: &mut [Slot<I>],
    place: usize,
    change: Change,
) -> Result<(), Refusal>
    ensures { (number : ℕ) → Changed change place (stock_of number slots.old) result (stock_of number slots.new) }
{
    let slot = slots.get(place).ok_or(change.off_shelf())?;
    let counts = slot.counts.after(change)?;
    // by its index: what is written through a slice's `get_mut` is not known afterwards
    slots[place].counts = counts;
    Ok(())
}

// Sets the counts of every slot to 0.
pub(crate) fn clear<I: Copy>(slots: &mut [Slot<I>])
    ensures { places_of slots.new ≡ map emptied (places_of slots.old) }
{
    for slot in slots.iter_mut() {
        slot.counts = Counts::none();
    }
}
