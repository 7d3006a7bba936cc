#![tactic(auto)]

// Slips: a pick hands one over, and one order or one return ends it.

mod picks;
mod slip;

pub use picks::pick;
pub use slip::{HandedBack, Slip};
