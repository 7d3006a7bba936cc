// What items are compared by: the height, and then the plan number.
#[derive(Clone, Copy, PartialEq, Eq, PartialOrd, Ord, Debug)]
pub struct Size {
    // in the book's unit of height
    pub height: u32,
    pub plan_number: u32,
}
