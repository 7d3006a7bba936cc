ghost use Rattle.std.specs.Prelude.{◌≡◌, ◌*◌, ◌≤◌};
ghost use Rattle.bearings.specs.Fractions.{holds, all_hold};
ghost use Rattle.section14.specs.Articles.{deforms_in_shear, compression, shear, uplift, uplift_on, rotation, rotation_on, steel_total, steel_live, steel};
ghost use Rattle.section14.specs.Axes.{axis};
ghost use Rattle.section14.specs.Cleared.{row_place, RowOf, compression_limits, layer_squares};
ghost use Rattle.rulebook.specs.Cases.{load};

use super::coefficients::{CompressionLimits, ROWS, Row};
use bearings::{Admitted, Axis, Bearing, Plan};
use rulebook::Case;

fn deforms_in_shear(case: &Case) -> bool
    ensures { result ≡ deforms_in_shear case.now }
{
    case.shear == 1
}

// The coefficients stand in one table of four rows, which this is an index of.
fn place_of_row(plan: &Plan, case: &Case) -> usize
    ensures { result ≡ row_place plan.now (deforms_in_shear case.now) }
{
    let fixed = if deforms_in_shear(case) { 0 } else { 1 };
    match plan {
        Plan::Rectangle {
            length: _,
            width: _,
        } => fixed,
        Plan::Circle { diameter: _ } => 2 + fixed,
    }
}

fn row(plan: &Plan, case: &Case) -> Row
    ensures { RowOf plan.now case.now result }
{
    ROWS[place_of_row(plan, case)]
}

// nh², which both rotation articles have.
fn layer_squares(admitted: &Admitted<Bearing>) -> u64
    ensures is { result ≡ layer_squares admitted.now.item }
    ensures high_bound { result ≤ 5120 }
{
    let thickness = admitted.item.thickness as u64;
    admitted.item.layers as u64 * (thickness * thickness)
}

fn compression_limits(case: &Case) -> CompressionLimits
    ensures { result ≡ compression_limits (deforms_in_shear case.now) }
{
    if deforms_in_shear(case) {
        CompressionLimits {
            stress: 1600,
            total: 166,
            live: 66,
        }
    } else {
        CompressionLimits {
            stress: 1750,
            total: 200,
            live: 100,
        }
    }
}

pub(crate) fn compression_holds(admitted: &Admitted<Bearing>) -> bool
    ensures { result ≡ all_hold (compression admitted.now.item admitted.now.case) }
{
    let most = compression_limits(&admitted.case);
    admitted.stress_holds(most.stress)
        & admitted.load_holds(admitted.case.load() as u32, most.total)
        & admitted.load_holds(admitted.case.live, most.live)
}

pub(crate) fn shear_holds(admitted: &Admitted<Bearing>) -> bool
    ensures { result ≡ all_hold (shear admitted.now.item admitted.now.case) }
{
    admitted.shear_holds(admitted.item.rubber_height())
}

fn uplift_holds_on(admitted: &Admitted<Bearing>, on: Axis) -> bool
    ensures { result ≡ holds (uplift_on admitted.now.item admitted.now.case (axis on.base on.angle)) }
{
    let row = row(&admitted.item.plan, &admitted.case);
    row.u * admitted.turned_resistance(on)
        <= 625 * (layer_squares(admitted) * admitted.shaped_load())
}

pub(crate) fn uplift_holds(admitted: &Admitted<Bearing>) -> bool
    ensures { result ≡ all_hold (uplift admitted.now.item admitted.now.case) }
{
    admitted.holds_on_axes(|axis| uplift_holds_on(admitted, axis))
}

fn rotation_holds_on(admitted: &Admitted<Bearing>, on: Axis) -> bool
    ensures { result ≡ holds (rotation_on admitted.now.item admitted.now.case (axis on.base on.angle)) }
{
    let row = row(&admitted.item.plan, &admitted.case);
    let squares = layer_squares(admitted);
    let stress = 5000 * (squares * admitted.shaped_load());
    let turn = 4 * (row.kv * admitted.turned_resistance(on));
    stress + turn <= 625 * (row.k * (admitted.resistance() * squares))
}

pub(crate) fn rotation_holds(admitted: &Admitted<Bearing>) -> bool
    ensures { result ≡ all_hold (rotation admitted.now.item admitted.now.case) }
{
    admitted.holds_on_axes(|axis| rotation_holds_on(admitted, axis))
}

// s ≥ 3hT/F.
fn steel_total_holds(admitted: &Admitted<Bearing>) -> bool
    ensures { result ≡ holds (steel_total admitted.now.item admitted.now.case) }
{
    let area = admitted.form.area;
    let bearing = &admitted.item;
    let load = bearing.thickness as u64 * admitted.case.load();
    let strength = bearing.strength as u64 * bearing.laminate as u64;
    3 * (load * area.bottom) <= 250 * (strength * area.top)
}

// s ≥ 2hV/24,000.
fn steel_live_holds(admitted: &Admitted<Bearing>) -> bool
    ensures { result ≡ holds (steel_live admitted.now.item admitted.now.case) }
{
    let area = admitted.form.area;
    let bearing = &admitted.item;
    let load = bearing.thickness as u64 * admitted.case.live as u64;
    load * area.bottom <= 3000 * (bearing.laminate as u64 * area.top)
}

pub(crate) fn steel_holds(admitted: &Admitted<Bearing>) -> bool
    ensures { result ≡ all_hold (steel admitted.now.item admitted.now.case) }
{
    steel_total_holds(admitted) & steel_live_holds(admitted)
}
