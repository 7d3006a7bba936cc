ghost use Rattle.std.specs.Prelude.{◌≡◌};
ghost use Rattle.bearings.specs.Fractions.{holds, all_hold};
ghost use Rattle.pads.specs.Articles.{compression, shear, uplift_on, uplift, stability_of, stability};

use bearings::{Admitted, Axis, Pad};

pub(crate) fn compression_holds(admitted: &Admitted<Pad>) -> bool
    ensures { result ≡ all_hold (compression admitted.now.item admitted.now.case) }
{
    admitted.stress_holds(800) & admitted.load_holds(admitted.case.load() as u32, 100)
}

pub(crate) fn shear_holds(admitted: &Admitted<Pad>) -> bool
    ensures { result ≡ all_hold (shear admitted.now.item admitted.now.case) }
{
    admitted.shear_holds(admitted.item.thickness as u32)
}

fn uplift_holds_on(admitted: &Admitted<Pad>, on: Axis) -> bool
    ensures { result ≡ holds (uplift_on admitted.now.item admitted.now.case on.base on.angle) }
{
    let thickness = admitted.item.thickness as u64;
    2 * admitted.turned_resistance(on) <= 625 * (thickness * thickness * admitted.shaped_load())
}

pub(crate) fn uplift_holds(admitted: &Admitted<Pad>) -> bool
    ensures { result ≡ all_hold (uplift admitted.now.item admitted.now.case) }
{
    admitted.holds_on_axes(|axis| uplift_holds_on(admitted, axis))
}

fn stability_holds_of(admitted: &Admitted<Pad>, side: u8) -> bool
    ensures { result ≡ holds (stability_of admitted.now.item side) }
{
    3 * admitted.item.thickness as u32 <= 8 * side as u32
}

pub(crate) fn stability_holds(admitted: &Admitted<Pad>) -> bool
    ensures { result ≡ all_hold (stability admitted.now.item) }
{
    stability_holds_of(admitted, admitted.item.length)
        & stability_holds_of(admitted, admitted.item.width)
}
