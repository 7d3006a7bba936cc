use rulebook::Case;

// A call on a shelf as a value, for lists of calls. The numbers may be anything.
#[derive(Clone, Copy)]
pub enum Request {
    Receive { place: usize, count: u32 },
    Pick(Case),
    // the end of a slip with these numbers
    Order { number: u32, place: usize },
    GiveBack { number: u32, place: usize },
    // the questions
    Place { place: usize },
    Places,
}
