#![tactic(auto)]

// The buckling article (14.6.5.3.6).

mod article;
mod parts;

pub use article::{buckling_holds, whole_terms};
pub use parts::WholeTerms;
