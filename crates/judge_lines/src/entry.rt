use super::Item;
use super::judgement::Kind;
use shelf::Request;

// What stands on a shelf that a line opens.
#[derive(Clone, Copy, PartialEq, Eq, Debug)]
pub enum Sort {
    Bearings,
    Pads,
    Range,
}

// A line that opens a shelf: what stands on it, and its number.
#[derive(Clone, Copy)]
pub struct Opening {
    pub sort: Sort,
    pub number: u32,
}

// A line of a shelf's text: it opens a shelf, stands for an item, or is a call.
#[derive(Clone, Copy)]
pub enum Entry {
    Opening(Opening),
    Item(Item),
    Call(Request),
}

#[derive(Clone, Copy)]
pub(crate) enum Call {
    Receive,
    Pick,
    Order,
    GiveBack,
    Place,
    Places,
}

// The first word of an entry, which says what follows. It is a value of its own, since its fault comes before any of what follows.
#[derive(Clone, Copy)]
pub(crate) enum Head {
    Opening(Sort),
    Item(Kind),
    Call(Call),
}
