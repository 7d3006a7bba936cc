#![tactic(auto)]

// A shelf over a table of the caller, for items of any kind.

mod list;
mod opening;
mod slot;
mod slots;

pub use slot::{ListShelf, Slot};
