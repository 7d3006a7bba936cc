ghost use Rattle.bearings.specs.Fractions.{EveryProper};
ghost use Rattle.bearings.specs.Limits.{bearing_outside};
ghost use Rattle.bearings.specs.Quantities.{ProperQuantities};
ghost use Rattle.rulebook.specs.Books.{refusal_of, answered};
ghost use Rattle.rulebook.specs.Tests.{first_failing};
ghost use Rattle.rulebook.specs.Verdicts.{verdict_by};
ghost use Rattle.section14.specs.Book.{section14_articles, section14_comparisons, section14_rules};
ghost use Rattle.std.specs.Prelude.{◌≡◌, None};
ghost use Rattle.std.proofs.Math.Path.{refl};
ghost use Rattle.bearings.proofs.Inequalities.{bearing_within};
ghost use Rattle.bearings.proofs.Sizes.{height_fits, plan_fits};

use super::articles::{compression_holds, rotation_holds, shear_holds, steel_holds, uplift_holds};
use bearings::{Admitted, Bearing};
use buckling::buckling_holds;
use rulebook::{Case, Refusal, RuleBook, Size, Verdict, measure};

// The book for laminated bearings. It has no state: its rules are the same wherever it is used.
#[derive(Clone, Copy)]
pub struct Section14;

// The first article that does not hold decides, and those behind it are not looked at: a list of articles would ask for the value of each. The pad book has other
// articles in this form.
#[tactic(auto, unfolding(crate::specs::Book::section14_articles))]
fn verdict_of(admitted: &Admitted<Bearing>) -> Verdict
    ensures { result ≡ verdict_by (first_failing (section14_articles admitted.now.item admitted.now.case)) }
{
    if !compression_holds(admitted) {
        Verdict::Fails { article: 1 }
    } else if !shear_holds(admitted) {
        Verdict::Fails { article: 2 }
    } else if !uplift_holds(admitted) {
        Verdict::Fails { article: 3 }
    } else if !rotation_holds(admitted) {
        Verdict::Fails { article: 4 }
    } else if !buckling_holds(admitted) {
        Verdict::Fails { article: 5 }
    } else if !steel_holds(admitted) {
        Verdict::Fails { article: 6 }
    } else {
        Verdict::Passes
    }
}

// A list of its own in each book, as the articles have other names.
#[tactic(auto, unfolding(crate::specs::Book::section14_articles))]
fn articles_of(admitted: &Admitted<Bearing>) -> [bool; 6]
    ensures { result ≡ section14_articles admitted.now.item admitted.now.case }
{
    [
        compression_holds(admitted),
        shear_holds(admitted),
        uplift_holds(admitted),
        rotation_holds(admitted),
        buckling_holds(admitted),
        steel_holds(admitted),
    ]
}

// Whether each article holds, for a reader who wants to know why a verdict came out as it did. It is written for each book: that every side is a number would be
// a law of the trait, and the law of an impl can't cite a lemma of its own crate.
pub fn article_list(bearing: &Bearing, case: &Case) -> Result<[bool; 6], Refusal>
    ensures is { result ≡ answered (refusal_of (bearing_outside bearing.now) case.now) (section14_articles bearing.now case.now) }
    ensures proper { bearing_outside bearing.now ≡ None → EveryProper (section14_comparisons bearing.now case.now) }
    ensures quantities { bearing_outside bearing.now ≡ None → ProperQuantities bearing.now.plan bearing.now.thickness }
{
    let admitted = Admitted::new(bearing, case)?;
    Ok(articles_of(&admitted))
}

impl RuleBook for Section14 {
    type Item = Bearing;

    const ARTICLES: u8 = 6;

    ghost rules = { λ _. section14_rules };

    ghost counted = { unfold section14_articles in λ b i c. refl };

    ghost measured = { λ b i within. let w = bearing_within i within in (height_fits i w, plan_fits i.plan w.sides_so) };

    // Written in every book, a line or two for each call: a book may have a count of articles, limits and a kind of item of its own, also where these books agree.

    fn article_count(&self) -> u8 {
        Self::ARTICLES
    }

    fn first_outside(&self, item: &Bearing) -> Option<u8> {
        item.first_outside()
    }

    fn loads_within(&self, case: &Case) -> bool {
        case.loads_within()
    }

    fn rest_within(&self, case: &Case) -> bool {
        case.rest_within()
    }

    fn verdict(&self, item: &Bearing, case: &Case) -> Result<Verdict, Refusal> {
        let admitted = Admitted::new(item, case)?;
        Ok(verdict_of(&admitted))
    }

    fn size(&self, item: &Bearing) -> Result<Size, Refusal> {
        let size = Size {
            height: item.height(),
            plan_number: item.plan.number(),
        };
        measure(self.first_outside(item), size)
    }
}
