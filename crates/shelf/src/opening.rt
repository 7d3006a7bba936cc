ghost use Rattle.shelf.specs.OpeningRefusals.{opening_number, opening_text};
ghost use Rattle.std.specs.Prelude.{◌≡◌, Some};

use std::fmt;

// Why a shelf is not opened. Each case has a number of its own, by which users know it.
#[derive(Clone, Copy, PartialEq, Eq, Debug)]
pub enum OpeningRefusal {
    // 1: no item, or more than 200
    ItemCount,
    // 2: the item at `place`, the first such, lies outside its limits; `field` is its first field that does, by its number from 1, since each kind of
    // item has fields of its own
    Item { place: usize, field: u8 },
    // 3: shelf number 0
    ShelfNumber,
}

impl OpeningRefusal {
    // Not as discriminants, since a case holds values; nor by `From`, as `why.number()` says which number is meant.
    pub fn number(&self) -> u8
        ensures { result ≡ opening_number self.now }
    {
        match self {
            OpeningRefusal::ItemCount => 1,
            OpeningRefusal::Item { place: _, field: _ } => 2,
            OpeningRefusal::ShelfNumber => 3,
        }
    }
}

impl fmt::Display for OpeningRefusal {
    ghost output = { λ refusal. Some (opening_text refusal) };

    fn fmt<W: fmt::Write>(&self, f: &mut fmt::Formatter<W>) -> fmt::Result {
        let number = self.number();
        write!(f, "refused {number}: ")?;
        match self {
            OpeningRefusal::ItemCount => write!(f, "no item, or more than 200"),
            OpeningRefusal::Item { place, field } => {
                write!(
                    f,
                    "field {field} of the item at place {place} is outside its limits"
                )
            }
            OpeningRefusal::ShelfNumber => write!(f, "the shelf number is 0"),
        }
    }
}
