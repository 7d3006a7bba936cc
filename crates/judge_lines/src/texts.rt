ghost use Rattle.std.specs.Prelude.{Some};
ghost use Rattle.judge_lines.specs.Texts.{fault_text, line_fault_text};

use super::{LineFault, WordFault};
use std::fmt;

impl fmt::Display for WordFault {
    ghost output = { λ what. Some (fault_text what) };

    fn fmt<W: fmt::Write>(&self, f: &mut fmt::Formatter<W>) -> fmt::Result {
        match self {
            WordFault::Missing => write!(f, "is missing"),
            WordFault::NoKind => write!(f, "is no kind"),
            WordFault::NotANumber => write!(f, "is not a number"),
            WordFault::TooLarge => write!(f, "is too large"),
            WordFault::OneTooMany => write!(f, "is one too many"),
        }
    }
}

impl fmt::Display for LineFault {
    ghost output = { λ fault. Some (line_fault_text fault) };

    fn fmt<W: fmt::Write>(&self, f: &mut fmt::Formatter<W>) -> fmt::Result {
        write!(f, "word {} {}", self.word, self.what)
    }
}
