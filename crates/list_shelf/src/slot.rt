use shelf::Counts;

// One slot of the caller's table: an item, and its counts while the table is a shelf.
#[derive(Clone, Copy)]
pub struct Slot<I> {
    pub item: I,
    pub counts: Counts,
}

// A shelf over the slots of a table that the caller owns, so that it needs no heap; the first slot is the front.
#[derive(Drop)]
pub struct ListShelf<'a, I> {
    pub(crate) number: u32,
    pub(crate) slots: &'a mut [Slot<I>],
}
