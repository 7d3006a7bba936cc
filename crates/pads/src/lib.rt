#![tactic(auto)]

// The pad book: AASHTO LRFD Bridge Design Specifications, Article 14.7.6.3, for plain elastomeric pads.

mod articles;
mod book;

pub use book::{PadBook, article_list};
