ghost use Rattle.day_sections.specs.Texts.{no_shelf_text};
ghost use Rattle.std.specs.Prelude.{Some};

use super::{NoShelf, SectionFault};
use std::fmt;

impl fmt::Display for NoShelf {
    ghost output = { λ fault. Some (no_shelf_text fault) };

    fn fmt<W: fmt::Write>(&self, f: &mut fmt::Formatter<W>) -> fmt::Result {
        let NoShelf { line, what } = *self;
        match what {
            SectionFault::Word(fault) => write!(f, "no shelf: line {line}, {fault}"),
            SectionFault::OutOfOrder => write!(f, "no shelf: line {line} is out of order"),
        }
    }
}
