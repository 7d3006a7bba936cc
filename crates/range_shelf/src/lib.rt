#![tactic(auto)]

// A shelf from one bearing: a place for each number of layers from 1 to the bearing's own.

mod calls;
mod opening;
mod range;

pub use range::RangeShelf;
use shelf::Shelf;

#[cfg(test)]
mod tests {
    use super::*;
    use bearings::{Bearing, Plan};
    use rulebook::Refusal;
    use shelf::{OpeningRefusal, Place, Shelf};
    use std::test::Fail;

    fn with_layers(layers: u8) -> Bearing {
        Bearing {
            plan: Plan::Rectangle {
                length: 20,
                width: 40,
            },
            layers,
            thickness: 8,
            cover: 4,
            laminate: 8,
            modulus: 100,
            strength: 36,
        }
    }

    #[test]
    fn range_of_five_layers(rt: HostRuntime) -> Result<(), Fail> {
        let bearing = with_layers(5);
        assert_eq!(rt;
            RangeShelf::check(0, &bearing),
            Err(OpeningRefusal::ShelfNumber)
        );
        let layers_outside = Err(OpeningRefusal::Item { place: 0, field: 3 });
        assert_eq!(rt; RangeShelf::check(7, &with_layers(0)), layers_outside);
        assert_eq!(rt; RangeShelf::check(7, &with_layers(21)), layers_outside);
        RangeShelf::check(7, &bearing)?;
        let mut range = RangeShelf::open(7, bearing);
        range.receive(4, 2)?;
        assert_eq!(rt;
            range.place(4)?,
            Place {
                item: bearing,
                on_hand: 2,
                out: 0,
            }
        );
        assert_eq!(rt; range.place(5), Err(Refusal::OffShelf));
        Ok(())
    }
}
