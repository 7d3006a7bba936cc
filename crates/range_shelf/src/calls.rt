ghost use Rattle.range_shelf.specs.Range.{range_stock, counted_place};
ghost use Rattle.shelf.specs.Changes.{Changed};
ghost use Rattle.std.specs.List.{slice_get};
ghost use Rattle.std.specs.Option.{option_map};
ghost use Rattle.std.specs.Prelude.{◌≡◌, ◌<◌, IfSome};

use super::RangeShelf;
use bearings::Bearing;
use rulebook::Refusal;
use shelf::{Change, Counts, Place, Places, Shelf};

impl RangeShelf {
    // The counts of a place of the shelf.
    fn counts_at(&self, place: usize) -> Option<Counts>
        ensures stands { slice_get (range_stock self.now).places place ≡ option_map (counted_place self.now.bearing place) result }
        ensures within { IfSome result (λ _. place < self.now.bearing.layers) }
    {
        let used = &self.counts[..self.bearing.layers as usize];
        used.get(place).copied()
    }

    // Changes the counts of one place, or refuses and leaves all as they were.
    fn change_counts(&mut self, place: usize, change: Change) -> Result<(), Refusal>
        ensures { Changed change place (range_stock self.old) result (range_stock self.new) }
    {
        let counts = self.counts_at(place).ok_or(change.off_shelf())?;
        let counts = counts.after(change)?;
        // The same steps as over slots, by the counts that lie here; by its index, as what is written through `get_mut` is not known afterwards.
        self.counts[place] = counts;
        Ok(())
    }
}

impl Shelf for RangeShelf {
    type Item = Bearing;

    ghost meaning = { range_stock };

    fn places(&self) -> Places {
        Places {
            count: self.bearing.layers as usize,
            number: self.number,
        }
    }

    fn place(&self, place: usize) -> Result<Place<Bearing>, Refusal> {
        let counts = self.counts_at(place).ok_or(Refusal::OffShelf)?;
        Ok(Place {
            item: Bearing {
                layers: place as u8 + 1,
                ..self.bearing
            },
            on_hand: counts.on_hand,
            out: counts.out,
        })
    }

    fn change(&mut self, place: usize, change: Change) -> Result<(), Refusal> {
        self.change_counts(place, change)
    }
}
