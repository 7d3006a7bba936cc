#![tactic(auto)]

// The sections of a shelf's text: an opening, the items of the shelf, and the calls on it.

mod collecting;
mod entries;
mod faults;
mod section;
mod sections;
mod texts;

pub use collecting::{InLine, collected};
pub use entries::{Line, read_lines};
pub use faults::fault_in;
pub use section::{NoShelf, SectionFault};
pub use sections::{Sections, first_section};
