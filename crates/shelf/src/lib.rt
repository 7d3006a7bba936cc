#![tactic(auto)]

// What a shelf of bearings means, the calls that every shelf answers, and how the counts of one place change.

mod answer;
mod changes;
mod counts;
mod opening;
mod request;
mod shelf;

pub use answer::{Answer, Granted, Place, Places};
pub use changes::Change;
pub use counts::Counts;
pub use opening::OpeningRefusal;
pub use request::Request;
pub use shelf::Shelf;
