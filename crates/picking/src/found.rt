use rulebook::Size;

// The best place so far.
#[derive(Clone, Copy)]
pub(crate) struct Found {
    pub(crate) place: usize,
    pub(crate) size: Size,
}

// The numbers of a slip: the shelf's number and the place.
#[derive(Clone, Copy)]
pub struct Taken {
    pub number: u32,
    pub place: usize,
}
