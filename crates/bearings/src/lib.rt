#![tactic(auto)]

// Bearings and pads: their fields, limits, heights and plan numbers, and the whole numbers that the articles compare.

mod admitted;
mod admitting;
mod axis;
mod bearing;
mod comparing;
mod elastomeric;
mod form;
mod limits;
mod pad;
mod pad_limits;

pub use admitted::Admitted;
pub use axis::Axis;
pub use bearing::{Bearing, Plan};
pub use elastomeric::Elastomeric;
pub use form::{Form, Ratio};
pub use pad::Pad;
