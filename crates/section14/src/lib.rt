#![tactic(auto)]

// The Section 14 book: Caltrans Bridge Design Specifications, Section 14, April 2000, articles 14.6.5.3.2 to 14.6.5.3.7.

mod articles;
mod book;
mod coefficients;

pub use book::{Section14, article_list};
