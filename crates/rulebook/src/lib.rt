#![tactic(auto)]

// What every rule book has in common: the case of a bridge seat, verdicts, refusals, and the trait of a book.

mod book;
mod case;
mod refusal;
mod size;
mod texts;
mod verdict;

pub use book::{RuleBook, item_passes};
pub use case::Case;
pub use refusal::{Refusal, admit, measure};
pub use size::Size;
pub use verdict::Verdict;
