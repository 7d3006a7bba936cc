ghost use Rattle.std.specs.Prelude.{◌≡◌, ◌≤◌, true, ⊤};
ghost use Rattle.bearings.specs.Bounds.{Range, SidesWithin, sides_within_prop};
ghost use Rattle.bearings.specs.Forms.{AreaOf, ShapeAreaOf};
ghost use Rattle.rulebook.specs.Books.{within};
ghost use Rattle.rulebook.specs.Cases.{load, loads_within, rest_within};

use super::{Elastomeric, Form};
use rulebook::Case;
use std::alloc::AllocError;

// An item and a case that both lie within their limits, with the form that the articles compare. The articles take it, and so need not refuse.
pub struct Admitted<I: Elastomeric> {
    pub item: I,
    pub case: Case,
    pub form: Form,
    ghost item_within: { within (I.outside item) ≡ true },
    ghost loads_within: { loads_within case ≡ true },
    ghost rest_within: { rest_within case ≡ true },
    ghost sides: { SidesWithin (I.plan item) } by { sides_within_prop (I.plan item) },
    ghost thickness: { Range 4 (I.thickness item) 48 },
    ghost modulus: { Range 80 (I.modulus item) 180 },
    ghost load: { load case ≤ 2000000 },
    ghost movement: { case.movement ≤ 2000 },
    ghost rotations: { (case.rotation_x ≤ 500) × (case.rotation_z ≤ 500) },
    ghost marks: { (case.deck ≤ 1) × (case.shear ≤ 1) },
    ghost area_is: { AreaOf (I.plan item) form.area },
    ghost area_small: { Range 1 form.area.top 2272000 × Range 1 form.area.bottom 1808 },
    ghost shape_area_is: { ShapeAreaOf (I.plan item) (I.thickness item) form.shape_area },
    ghost shape_area_small: { Range 1 form.shape_area.top 181760000 × Range 1 form.shape_area.bottom 43392 },
}

// Written out, as no derive gives it to a struct with ghost fields and a type parameter.
impl<I: Elastomeric> Clone for Admitted<I> {
    ghost is_clone = { λ x y. y ≡ x };

    ghost is_infallible = { λ _. ⊤ };

    fn clone(&self) -> Result<Admitted<I>, AllocError> {
        Ok(*self)
    }
}

impl<I: Elastomeric> Copy for Admitted<I> {}
