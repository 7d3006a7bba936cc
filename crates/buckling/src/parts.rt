use bearings::Ratio;

// The terms that decide the article, a million times each: X', rounded up, and Y', rounded down.
#[derive(Clone, Copy, PartialEq, Eq, Debug)]
pub struct WholeTerms {
    pub first: u64,
    pub second: u64,
}

// The two terms as quotients, the first without its root; and the sides, in one unit, whose quotient stands under that root. How large they are is said by
// the functions that make them (`SmallParts`): the definitions name these quotients without a bound.
#[derive(Clone, Copy)]
pub(crate) struct Parts {
    pub(crate) first: Ratio,
    pub(crate) second: Ratio,
    pub(crate) lesser: u64,
    pub(crate) greater: u64,
}
