ghost use Rattle.std.specs.Prelude.{◌≡◌, ◌+◌, ◌*◌, ◌<◌, ◌≤◌, None};
ghost use Rattle.bearings.specs.Fractions.{holds};
ghost use Rattle.bearings.specs.Limits.{bearing_outside};
ghost use Rattle.bearings.specs.declared.bearing.Plan.TheVariants.{Rectangle, Circle};
ghost use Rattle.buckling.specs.Article.{buckling, ProperTerms};
ghost use Rattle.buckling.specs.Cleared.{deck_units, PartsOf, SmallParts, whole_terms};
ghost use Rattle.buckling.specs.Terms.{WholeNumbers};
ghost use Rattle.rulebook.specs.Books.{refusal_of, answered};

use super::parts::{Parts, WholeTerms};
use bearings::{Admitted, Bearing, Plan, Ratio};
use rulebook::{Case, Refusal};

// The deck's factor, 3.84 or 1.92, in units of 0.64.
fn deck_units(case: &Case) -> u64
    ensures { result ≡ deck_units case.now }
{
    if case.deck == 1 { 6 } else { 3 }
}

fn rectangle_parts(admitted: &Admitted<Bearing>, length: u8, width: u8) -> Parts
    requires { admitted.now.item.plan ≡ Rectangle length width }
    ensures is { PartsOf admitted.now.item admitted.now.case result }
    ensures small { SmallParts result }
{
    let length = length as u64;
    let width = width as u64;
    let lesser = length.min(width);
    let greater = length.max(width);
    let product = length * width;
    let edge = admitted.item.thickness as u64 * (length + width);
    Parts {
        first: Ratio {
            top: deck_units(&admitted.case) * admitted.item.rubber_height() as u64 * edge,
            bottom: 50 * (lesser * product),
        },
        second: Ratio {
            top: 267 * (edge * edge),
            bottom: 200 * (lesser * ((2 * product + edge) * (4 * greater + lesser))),
        },
        lesser,
        greater,
    }
}

fn circle_parts(admitted: &Admitted<Bearing>, diameter: u8) -> Parts
    requires { admitted.now.item.plan ≡ Circle diameter }
    ensures is { PartsOf admitted.now.item admitted.now.case result }
    ensures small { SmallParts result }
{
    let diameter = diameter as u64;
    let thickness = admitted.item.thickness as u64;
    Parts {
        first: Ratio {
            top: deck_units(&admitted.case) * admitted.item.rubber_height() as u64 * thickness,
            bottom: 20 * (diameter * diameter),
        },
        second: Ratio {
            top: 267 * (thickness * thickness),
            bottom: 500 * (diameter * (diameter + thickness)),
        },
        lesser: 1,
        greater: 1,
    }
}

fn parts_of(admitted: &Admitted<Bearing>) -> Parts
    ensures is { PartsOf admitted.now.item admitted.now.case result }
    ensures small { SmallParts result }
{
    match admitted.item.plan {
        Plan::Rectangle { length, width } => rectangle_parts(admitted, length, width),
        Plan::Circle { diameter } => circle_parts(admitted, diameter),
    }
}

// The greatest r with r²m ≤ 1,000,000(m + 2l).
fn greatest_root(lesser: u64, greater: u64) -> u64
    requires low { 1 ≤ lesser }
    requires ordered { lesser ≤ greater }
    requires high { greater ≤ 80 }
    ensures fits { result * result * greater ≤ 1000000 * (greater + 2 * lesser) }
    ensures next { 1000000 * (greater + 2 * lesser) < (result + 1) * (result + 1) * greater }
    ensures low_bound { 1000 ≤ result }
    ensures high_bound { result ≤ 1732 }
{
    (1_000_000 * (greater + 2 * lesser) / greater).isqrt()
}

fn terms(admitted: &Admitted<Bearing>) -> WholeTerms
    ensures is { result ≡ whole_terms admitted.now.item admitted.now.case }
    ensures first_high { result.first ≤ 300000001 }
    ensures second_high { result.second ≤ 300000000 }
{
    let parts = parts_of(admitted);
    let root = greatest_root(parts.lesser, parts.greater);
    WholeTerms {
        first: (1_000_000_000 * parts.first.top).div_ceil(parts.first.bottom * root),
        second: 1_000_000 * parts.second.top / parts.second.bottom,
    }
}

// X' and Y' of a bearing under a case. A book answers its list of articles in two such lines. One function over both would need what each promises besides
// as a law, and the law of an impl can't cite a lemma of its own crate.
pub fn whole_terms(bearing: &Bearing, case: &Case) -> Result<WholeTerms, Refusal>
    ensures is { result ≡ answered (refusal_of (bearing_outside bearing.now) case.now) (whole_terms bearing.now case.now) }
    ensures rounded { bearing_outside bearing.now ≡ None → WholeNumbers bearing.now case.now }
    ensures proper { bearing_outside bearing.now ≡ None → ProperTerms bearing.now case.now }
{
    let admitted = Admitted::new(bearing, case)?;
    Ok(terms(&admitted))
}

// Whether the article is found to hold: T(X' − Y') ≤ 1,000,000·G.
pub fn buckling_holds(admitted: &Admitted<Bearing>) -> bool
    ensures { result ≡ holds (buckling admitted.now.item admitted.now.case) }
{
    let terms = terms(admitted);
    let area = admitted.form.area;
    let load = admitted.case.load() * area.bottom;
    load * terms.first <= 1_000_000 * admitted.item.modulus as u64 * area.top + load * terms.second
}
