#![tactic(auto)]

// The search for the best item on hand, for every kind of item that a book can name.

mod found;
mod search;
mod taking;

pub use found::Taken;
pub use search::best;
pub use taking::take_best;
