#![tactic(auto)]

// The texts of answers to calls on shelves of bearings and of pads.

mod answers;
mod items;
mod written;

pub use answers::answer_lines;
pub use items::AsItem;
pub use written::{AnswerText, OpenedText};
