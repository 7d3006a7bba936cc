use rulebook::Refusal;

// One place of a shelf: its item, how many are on hand there, and how many are out on slips. The two are plain fields, as definitions and texts read them;
// `Counts` is how a shelf keeps them.
#[derive(Clone, Copy, PartialEq, Eq, Debug)]
pub struct Place<I> {
    pub item: I,
    pub on_hand: u16,
    pub out: u16,
}

// How many places a shelf has, and its number.
#[derive(Clone, Copy, PartialEq, Eq, Debug)]
pub struct Places {
    pub count: usize,
    pub number: u32,
}

// What a call on a shelf answers where it is granted.
#[derive(Clone, Copy, PartialEq, Eq, Debug)]
pub enum Granted<I> {
    // to a receipt, an order or a return
    Done,
    // to a pick: the numbers of the slip
    Picked { number: u32, place: usize },
    // to a question about a place
    Shown(Place<I>),
    // to a question about the places: the fields of a `Places`; as one value they would make the answer larger by a third
    Counted { number: u32, count: usize },
}

// What is answered to a call on a shelf: what it grants, or why it is refused.
pub type Answer<I> = Result<Granted<I>, Refusal>;
