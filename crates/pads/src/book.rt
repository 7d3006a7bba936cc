ghost use Rattle.bearings.specs.Fractions.{EveryProper};
ghost use Rattle.bearings.specs.Limits.{pad_outside, pad_plan};
ghost use Rattle.bearings.specs.Quantities.{ProperQuantities};
ghost use Rattle.rulebook.specs.Books.{refusal_of, answered};
ghost use Rattle.rulebook.specs.Tests.{first_failing};
ghost use Rattle.rulebook.specs.Verdicts.{verdict_by};
ghost use Rattle.pads.specs.Book.{pad_articles, pad_comparisons, pad_rules};
ghost use Rattle.std.specs.Prelude.{◌≡◌, None};
ghost use Rattle.std.proofs.Math.Path.{refl};
ghost use Rattle.bearings.proofs.Inequalities.{pad_within};
ghost use Rattle.bearings.proofs.Sizes.{pad_height_fits, plan_fits};

use super::articles::{compression_holds, shear_holds, stability_holds, uplift_holds};
use bearings::{Admitted, Elastomeric, Pad};
use rulebook::{Case, Refusal, RuleBook, Size, Verdict, measure};

// The book for plain pads. It has no state: its rules are the same wherever it is used.
#[derive(Clone, Copy)]
pub struct PadBook;

// The first article that does not hold decides, and those behind it are not looked at: a list of articles would ask for the value of each. The Section 14 book has
// other articles in this form.
#[tactic(auto, unfolding(crate::specs::Book::pad_articles))]
fn verdict_of(admitted: &Admitted<Pad>) -> Verdict
    ensures { result ≡ verdict_by (first_failing (pad_articles admitted.now.item admitted.now.case)) }
{
    if !compression_holds(admitted) {
        Verdict::Fails { article: 1 }
    } else if !shear_holds(admitted) {
        Verdict::Fails { article: 2 }
    } else if !uplift_holds(admitted) {
        Verdict::Fails { article: 3 }
    } else if !stability_holds(admitted) {
        Verdict::Fails { article: 4 }
    } else {
        Verdict::Passes
    }
}

// A list of its own in each book, as the articles have other names.
#[tactic(auto, unfolding(crate::specs::Book::pad_articles))]
fn articles_of(admitted: &Admitted<Pad>) -> [bool; 4]
    ensures { result ≡ pad_articles admitted.now.item admitted.now.case }
{
    [
        compression_holds(admitted),
        shear_holds(admitted),
        uplift_holds(admitted),
        stability_holds(admitted),
    ]
}

// Whether each article holds, for a reader who wants to know why a verdict came out as it did. It is written for each book: that every side is a number would be
// a law of the trait, and the law of an impl can't cite a lemma of its own crate.
pub fn article_list(pad: &Pad, case: &Case) -> Result<[bool; 4], Refusal>
    ensures is { result ≡ answered (refusal_of (pad_outside pad.now) case.now) (pad_articles pad.now case.now) }
    ensures proper { pad_outside pad.now ≡ None → EveryProper (pad_comparisons pad.now case.now) }
    ensures quantities { pad_outside pad.now ≡ None → ProperQuantities (pad_plan pad.now) pad.now.thickness }
{
    let admitted = Admitted::new(pad, case)?;
    Ok(articles_of(&admitted))
}

impl RuleBook for PadBook {
    type Item = Pad;

    const ARTICLES: u8 = 4;

    ghost rules = { λ _. pad_rules };

    ghost counted = { unfold pad_articles in λ b i c. refl };

    ghost measured = { λ b p within. let w = pad_within p within in (pad_height_fits p w, plan_fits (pad_plan p) w.sides_so) };

    // Written in every book, a line or two for each call: a book may have a count of articles, limits and a kind of item of its own, also where these books agree.

    fn article_count(&self) -> u8 {
        Self::ARTICLES
    }

    fn first_outside(&self, item: &Pad) -> Option<u8> {
        item.first_outside()
    }

    fn loads_within(&self, case: &Case) -> bool {
        case.loads_within()
    }

    fn rest_within(&self, case: &Case) -> bool {
        case.rest_within()
    }

    fn verdict(&self, item: &Pad, case: &Case) -> Result<Verdict, Refusal> {
        let admitted = Admitted::new(item, case)?;
        Ok(verdict_of(&admitted))
    }

    fn size(&self, item: &Pad) -> Result<Size, Refusal> {
        let size = Size {
            height: item.height(),
            plan_number: item.plan().number(),
        };
        measure(self.first_outside(item), size)
    }
}
