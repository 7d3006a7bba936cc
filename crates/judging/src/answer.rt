use judge_lines::LineFault;
use rulebook::{Refusal, Verdict};

// What is said of an item under a case.
#[derive(Clone, Copy, PartialEq, Eq, Debug)]
pub enum Judged {
    // the verdict, and whether each article holds: compression, shear, uplift, rotation, buckling, steel
    Bearing(Verdict, [bool; 6]),
    // the verdict, and whether each article holds: compression, shear, uplift, stability
    Pad(Verdict, [bool; 4]),
}

// Why a line is given no verdict.
#[derive(Clone, Copy, PartialEq, Eq, Debug)]
pub enum NoVerdict {
    // it asks for no judgement
    NoJudgement(LineFault),
    Refused(Refusal),
}

// What is answered to a line.
pub type Answer = Result<Judged, NoVerdict>;

impl From<LineFault> for NoVerdict {
    ghost use Rattle.std.specs.Prelude.{◌≡◌};
    ghost use Rattle.judging.specs.declared.answer.NoVerdict.TheVariants.{NoJudgement};

    ghost from_gives = { λ fault why. why ≡ NoJudgement fault };

    fn from(fault: LineFault) -> NoVerdict {
        NoVerdict::NoJudgement(fault)
    }
}

impl From<Refusal> for NoVerdict {
    ghost use Rattle.std.specs.Prelude.{◌≡◌};
    ghost use Rattle.judging.specs.declared.answer.NoVerdict.TheVariants.{Refused};

    ghost from_gives = { λ refusal why. why ≡ Refused refusal };

    fn from(refusal: Refusal) -> NoVerdict {
        NoVerdict::Refused(refusal)
    }
}
