ghost use Rattle.judging.specs.Texts.{held_text, verdict_text, judged_text, no_verdict_text};
ghost use Rattle.section14.specs.Book.{section14_names};
ghost use Rattle.std.specs.Prelude.{Some};

use super::{Judged, NoVerdict};
use rulebook::Verdict;
use std::fmt;

// How an article came out.
#[derive(Clone, Copy)]
struct Held(bool);

impl fmt::Display for Held {
    ghost output = { λ held. Some (held_text held.0) };

    fn fmt<W: fmt::Write>(&self, f: &mut fmt::Formatter<W>) -> fmt::Result {
        f.write_str(if self.0 { "held" } else { "violated" })
    }
}

// The verdict, and the first three articles, which have the same names in both books.
#[derive(Clone, Copy)]
struct Shared {
    verdict: Verdict,
    articles: [bool; 3],
}

impl fmt::Display for Shared {
    ghost output = { λ shared. Some (verdict_text section14_names shared.verdict shared.articles) };

    fn fmt<W: fmt::Write>(&self, f: &mut fmt::Formatter<W>) -> fmt::Result {
        let [compression, shear, uplift] = self.articles;
        write!(
            f,
            "verdict {}: compression {}, shear {}, uplift {}",
            self.verdict.number(),
            Held(compression),
            Held(shear),
            Held(uplift)
        )
    }
}

impl fmt::Display for Judged {
    ghost output = { λ judged. Some (judged_text judged) };

    fn fmt<W: fmt::Write>(&self, f: &mut fmt::Formatter<W>) -> fmt::Result {
        match self {
            Judged::Bearing(verdict, articles) => {
                let [compression, shear, uplift, rotation, buckling, steel] = *articles;
                let shared = Shared {
                    verdict: *verdict,
                    articles: [compression, shear, uplift],
                };
                write!(
                    f,
                    "{shared}, rotation {}, buckling {}, steel {}",
                    Held(rotation),
                    Held(buckling),
                    Held(steel)
                )
            }
            Judged::Pad(verdict, articles) => {
                let [compression, shear, uplift, stability] = *articles;
                let shared = Shared {
                    verdict: *verdict,
                    articles: [compression, shear, uplift],
                };
                write!(f, "{shared}, stability {}", Held(stability))
            }
        }
    }
}

impl fmt::Display for NoVerdict {
    ghost output = { λ why. Some (no_verdict_text why) };

    fn fmt<W: fmt::Write>(&self, f: &mut fmt::Formatter<W>) -> fmt::Result {
        match self {
            NoVerdict::NoJudgement(fault) => write!(f, "no judgement: {fault}"),
            NoVerdict::Refused(refusal) => write!(f, "{refusal}"),
        }
    }
}
