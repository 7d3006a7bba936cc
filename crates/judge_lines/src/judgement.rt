use bearings::{Bearing, Pad};
use rulebook::Case;

#[derive(Clone, Copy)]
pub enum Item {
    Bearing(Bearing),
    Pad(Pad),
}

// What a line asks for: the item, to be judged under the case.
#[derive(Clone, Copy)]
pub struct Judgement {
    pub item: Item,
    pub case: Case,
}

// The first word of a line, which says what item follows. It is a value of its own, since its fault comes before any of what follows.
#[derive(Clone, Copy)]
pub(crate) enum Kind {
    Rectangle,
    Circle,
    Pad,
}
