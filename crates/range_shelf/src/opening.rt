ghost use Rattle.bearings.specs.Limits.{bearing_outside};
ghost use Rattle.range_shelf.specs.Range.{range_of, range_stock, RangeOpenable, RangeSays};
ghost use Rattle.rulebook.specs.Books.{Rules};
ghost use Rattle.shelf.specs.Opening.{Opened};
ghost use Rattle.std.specs.Prelude.{◌≡◌, OnOk};

use super::RangeShelf;
use bearings::Bearing;
use shelf::{Counts, OpeningRefusal};

impl RangeShelf {
    // Whether a shelf of this number may be opened from the bearing. Its limits keep the layers from 1 to 20, so the number of places is never refused.
    pub fn check(number: u32, bearing: &Bearing) -> Result<(), OpeningRefusal>
        ensures says { RangeSays number bearing.now result }
        ensures ok { OnOk result (RangeOpenable number bearing.now) }
    {
        if number == 0 {
            return Err(OpeningRefusal::ShelfNumber);
        }
        if let Some(field) = bearing.first_outside() {
            return Err(OpeningRefusal::Item { place: 0, field });
        }
        Ok(())
    }

    // Opens a shelf that `check` lets through, with all counts 0. It can't be refused.
    pub fn open(number: u32, bearing: Bearing) -> RangeShelf
        requires { RangeOpenable number bearing }
        ensures is { range_stock result ≡ record { number = number; places = range_of bearing (λ _. 0) (λ _. 0) } }
        ensures opened { (R : Rules Bearing) → R.outside ≡ bearing_outside → Opened R (range_stock result) }
    {
        RangeShelf {
            number,
            bearing,
            counts: [Counts::none(); 20],
        }
    }
}
