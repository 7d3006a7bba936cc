#![tactic(auto)]

// Lists of calls on a shelf, and the guarantee over every one of them.

mod serving;

pub use serving::serve;
