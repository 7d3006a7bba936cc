#![tactic(auto)]

// The text that answers a text of shelves: each of its sections opens a shelf and makes calls on it.

mod days;
mod shelves;

pub use days::day;
