use super::worked_answers;
use bearings::{Bearing, Pad, Plan};
use buckling::{WholeTerms, whole_terms};
use pads::PadBook;
use rulebook::{Case, Refusal, RuleBook, Verdict};
use section14::Section14;
use std::test::Fail;

fn bearing(plan: Plan, layers: u8, laminate: u8) -> Bearing {
    Bearing {
        plan,
        layers,
        thickness: 8,
        cover: 4,
        laminate,
        modulus: 100,
        strength: 36,
    }
}

fn case(
    dead: u32,
    live: u32,
    movement: u16,
    rotation_x: u16,
    rotation_z: u16,
    deck: u8,
    shear: u8,
) -> Case {
    Case {
        dead,
        live,
        movement,
        rotation_x,
        rotation_z,
        deck,
        shear,
    }
}

fn rectangle(length: u8, width: u8) -> Plan {
    Plan::Rectangle { length, width }
}

fn judged(bearing: Bearing, case: Case) -> Result<Verdict, Refusal> {
    Section14.verdict(&bearing, &case)
}

fn judged_pad(pad: Pad, case: Case) -> Result<Verdict, Refusal> {
    PadBook.verdict(&pad, &case)
}

#[test]
fn rectangles(rt: HostRuntime) {
    let a = bearing(rectangle(20, 40), 5, 8);
    let expected = worked_answers().verdicts;
    assert_eq!(rt;
        judged(a, case(100_000, 88_000, 150, 155, 0, 1, 1)),
        Ok(expected[0])
    );
    assert_eq!(rt;
        judged(a, case(99_999, 88_001, 150, 155, 0, 1, 1)),
        Ok(expected[1])
    );
    assert_eq!(rt;
        judged(a, case(100_000, 88_000, 151, 155, 0, 1, 1)),
        Ok(expected[2])
    );
    assert_eq!(rt;
        judged(a, case(100_000, 88_000, 150, 177, 0, 1, 1)),
        Ok(expected[3])
    );
    assert_eq!(rt;
        judged(a, case(100_000, 88_000, 150, 156, 0, 1, 1)),
        Ok(expected[4])
    );
    assert_eq!(rt;
        judged(
            bearing(rectangle(20, 40), 5, 2),
            case(100_000, 88_000, 150, 155, 0, 1, 1),
        ),
        Ok(expected[5])
    );
}

#[test]
fn buckling_terms(rt: HostRuntime) {
    let a = bearing(rectangle(20, 40), 5, 8);
    assert_eq!(rt;
        whole_terms(&a, &case(100_000, 88_000, 150, 155, 0, 1, 1)),
        Ok(WholeTerms {
            first: 122_207,
            second: 41_076,
        })
    );
}

#[test]
fn slender_rectangles(rt: HostRuntime) {
    let slender = bearing(rectangle(16, 40), 18, 8);
    let expected = worked_answers().verdicts;
    assert_eq!(rt;
        judged(slender, case(20_000, 20_000, 0, 0, 0, 1, 1)),
        Ok(expected[6])
    );
    assert_eq!(rt;
        judged(slender, case(20_000, 20_000, 0, 0, 0, 0, 1)),
        Ok(expected[7])
    );
}

#[test]
fn circles(rt: HostRuntime) {
    let c = bearing(Plan::Circle { diameter: 32 }, 5, 8);
    let expected = worked_answers().verdicts;
    assert_eq!(rt;
        judged(c, case(100_000, 50_000, 0, 45, 60, 0, 0)),
        Ok(expected[8])
    );
    assert_eq!(rt;
        judged(c, case(100_000, 50_000, 0, 45, 61, 0, 0)),
        Ok(expected[9])
    );
}

#[test]
fn plain_pads(rt: HostRuntime) {
    let pad = Pad {
        length: 20,
        width: 40,
        thickness: 8,
        modulus: 100,
    };
    let expected = worked_answers().verdicts;
    assert_eq!(rt;
        judged_pad(pad, case(60_000, 40_000, 25, 37, 0, 1, 1)),
        Ok(expected[10])
    );
    assert_eq!(rt;
        judged_pad(pad, case(60_000, 40_000, 25, 38, 0, 1, 1)),
        Ok(expected[11])
    );
}

// The width turns with the rotation about the longitudinal axis: were the length taken with it, 39 would pass.
#[test]
fn width_with_rotation_z(rt: HostRuntime) {
    let a = bearing(rectangle(20, 40), 5, 8);
    assert_eq!(rt;
        judged(a, case(100_000, 88_000, 150, 0, 38, 1, 1)),
        Ok(Verdict::Passes)
    );
    assert_eq!(rt;
        judged(a, case(100_000, 88_000, 150, 0, 39, 1, 1)),
        Ok(Verdict::Fails { article: 4 })
    );
}

// Only interior layers count in n: one more of them would let 156 pass, and a cover does not.
#[test]
fn covers_are_no_layers(rt: HostRuntime) {
    let turned = case(100_000, 88_000, 150, 156, 0, 1, 1);
    assert_eq!(rt;
        judged(bearing(rectangle(20, 40), 5, 8), turned),
        Ok(Verdict::Fails { article: 4 })
    );
    assert_eq!(rt;
        judged(bearing(rectangle(20, 40), 6, 8), turned),
        Ok(Verdict::Passes)
    );
}

// Where X' is below Y', no load can buckle the bearing.
#[test]
fn first_term_below_second(rt: HostRuntime) -> Result<(), Fail> {
    let flat = bearing(rectangle(20, 20), 1, 8);
    let fixed = case(40_000, 10_000, 0, 0, 0, 0, 1);
    let terms = whole_terms(&flat, &fixed)?;
    assert!(rt; terms.first < terms.second);
    assert_eq!(rt; judged(flat, fixed), Ok(Verdict::Passes));
    Ok(())
}

// Buckling takes the lesser side, whichever way the bearing lies.
#[test]
fn sides_exchanged(rt: HostRuntime) {
    let across = bearing(rectangle(40, 16), 18, 8);
    assert_eq!(rt;
        judged(across, case(20_000, 20_000, 0, 0, 0, 1, 1)),
        Ok(Verdict::Fails { article: 5 })
    );
    assert_eq!(rt;
        judged(across, case(20_000, 20_000, 0, 0, 0, 0, 1)),
        Ok(Verdict::Passes)
    );
}

// The item is refused before the loads, and the loads before the rest of the case.
#[test]
fn refusals_in_order(rt: HostRuntime) {
    let thick_cover = Bearing {
        cover: 6,
        ..bearing(rectangle(20, 40), 5, 8)
    };
    let overloaded = case(2_000_000, 1, 2_001, 0, 0, 1, 1);
    assert_eq!(rt;
        judged(thick_cover, overloaded),
        Err(Refusal::Item { field: 5 })
    );
    assert_eq!(rt;
        judged(bearing(rectangle(20, 40), 5, 8), overloaded),
        Err(Refusal::Loads)
    );
    assert_eq!(rt;
        judged(
            bearing(rectangle(20, 40), 5, 8),
            case(2_000_000, 0, 2_001, 0, 0, 1, 1),
        ),
        Err(Refusal::Rest)
    );
    assert_eq!(rt; Refusal::Item { field: 5 }.number(), 2);
}
