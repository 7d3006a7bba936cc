ghost use Rattle.day_sections.specs.declared.section.SectionFault.TheVariants.{Word};
ghost use Rattle.std.specs.Prelude.{◌≡◌};

use judge_lines::LineFault;

// Why a section opens no shelf: its first line at fault, counted from 1 over the whole input, and what is wrong with it.
#[derive(Clone, Copy)]
pub struct NoShelf {
    pub line: usize,
    pub what: SectionFault,
}

// An Option of a fault would have no name for the second cause.
#[derive(Clone, Copy)]
pub enum SectionFault {
    // the line can't be read
    Word(LineFault),
    // it can be read, and stands where it may not
    OutOfOrder,
}

impl From<LineFault> for SectionFault {
    ghost from_gives = { λ fault what. what ≡ Word fault };

    fn from(fault: LineFault) -> SectionFault {
        SectionFault::Word(fault)
    }
}

// What stands between an opening and a line of its section.
#[derive(Clone, Copy, PartialEq, Eq, Debug)]
pub(crate) enum Before {
    Nothing,
    // items alone
    Items,
    // calls, behind what items there are
    Calls,
}
