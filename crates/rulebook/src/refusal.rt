ghost use Rattle.rulebook.specs.Books.{refusal_of, item_refusal, answered};
ghost use Rattle.rulebook.specs.Refusals.{number_of};
ghost use Rattle.std.specs.Prelude.{◌≡◌};

use super::Case;

// Why a call of a book or of a shelf is refused. Each case has a number of its own, by which users know it.
#[derive(Clone, Copy, PartialEq, Eq, Debug)]
pub enum Refusal {
    // 2: the item lies outside its limits; `field` is the first field that does, by its number from 1, since each kind of item has fields of its own
    Item { field: u8 },
    // 4: the place is off the shelf
    OffShelf,
    // 5: a receipt of 0, or one that brings a place's on hand plus out above 60,000
    Receipt,
    // 6: the loads lie outside their limit
    Loads,
    // 7: movement, a rotation or a mark lies outside its range
    Rest,
    // 8: no item on hand passes
    NoneOnHand,
    // 9: a slip with another shelf's number
    OtherShelf,
    // 10: a slip whose place is off this shelf or has none out
    NoneOut,
}

impl Refusal {
    // Not as discriminants, since a case holds a value; nor by `From`, as `why.number()` says which number is meant.
    pub fn number(&self) -> u8
        ensures { result ≡ number_of self.now }
    {
        match self {
            Refusal::Item { field: _ } => 2,
            Refusal::OffShelf => 4,
            Refusal::Receipt => 5,
            Refusal::Loads => 6,
            Refusal::Rest => 7,
            Refusal::NoneOnHand => 8,
            Refusal::OtherShelf => 9,
            Refusal::NoneOut => 10,
        }
    }
}

// Admits an item, whose first field outside its limits is `outside`, together with a case, or refuses by the first that applies.
pub fn admit(outside: Option<u8>, case: &Case) -> Result<(), Refusal>
    ensures { result ≡ answered (refusal_of outside case.now) tt }
{
    measure(outside, ())?;
    if !case.loads_within() {
        return Err(Refusal::Loads);
    }
    if !case.rest_within() {
        return Err(Refusal::Rest);
    }
    Ok(())
}

// A measure of an item whose first field outside its limits is `outside`, which is refused where there is one.
pub fn measure<T: Copy>(outside: Option<u8>, value: T) -> Result<T, Refusal>
    ensures { result ≡ answered (item_refusal outside) value }
{
    // no method of Option turns its value into the error more plainly
    match outside {
        Some(field) => Err(Refusal::Item { field }),
        None => Ok(value),
    }
}
