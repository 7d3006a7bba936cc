ghost use Rattle.std.specs.Prelude.{◌≡◌, ◌≤◌, Some, MatchResult};
ghost use Rattle.bearings.specs.Bounds.{SidesWithin};
ghost use Rattle.bearings.specs.Forms.{FormOf, Small};
ghost use Rattle.rulebook.specs.Books.{refusal_of};

use super::{Admitted, Elastomeric, Form, Plan, Ratio};
use rulebook::{Case, Refusal, admit};

impl Form {
    // A is LW/4 with sides in half inches, or (355/113)D²/16; S is 4LW/(h(L+W)) with h in sixteenths, or 2D/h.
    fn of(plan: Plan, thickness: u8) -> Form
        requires sides { SidesWithin plan }
        requires low { 4 ≤ thickness }
        requires high { thickness ≤ 48 }
        ensures is { FormOf plan thickness result }
        ensures small { Small result }
    {
        let thickness = thickness as u64;
        match plan {
            Plan::Rectangle { length, width } => {
                let length = length as u64;
                let width = width as u64;
                let product = length * width;
                Form {
                    area: Ratio {
                        top: product,
                        bottom: 4,
                    },
                    shape_area: Ratio {
                        top: product * product,
                        bottom: thickness * (length + width),
                    },
                }
            }
            Plan::Circle { diameter } => {
                let diameter = diameter as u64;
                let square = diameter * diameter;
                Form {
                    area: Ratio {
                        top: 355 * square,
                        bottom: 1808,
                    },
                    shape_area: Ratio {
                        top: 355 * (square * diameter),
                        bottom: 904 * thickness,
                    },
                }
            }
        }
    }
}

impl<I: Elastomeric> Admitted<I> {
    pub fn new(item: &I, case: &Case) -> Result<Admitted<I>, Refusal>
        ensures { MatchResult result (λ a. (a.item ≡ item.now) × (a.case ≡ case.now)) (λ why. refusal_of (I.outside item.now) case.now ≡ Some why) }
    {
        admit(item.first_outside(), case)?;
        Ok(Admitted {
            item: *item,
            case: *case,
            form: Form::of(item.plan(), item.thickness()),
        })
    }
}
