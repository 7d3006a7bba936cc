#![tactic(auto)]

// Programs that hold slips, and a book of other items than bearings and pads, as examples of the calls.

mod blocks;
mod holding;
mod unended;

pub use blocks::{Block, BlockBook};
pub use holding::{
    pick_and_order, pick_and_return, pick_then_return, pick_twice, receive_then_pick,
};
pub use unended::Unended;

#[cfg(test)]
mod tests;
