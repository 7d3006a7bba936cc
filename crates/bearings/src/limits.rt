ghost use Rattle.std.specs.Prelude.{◌≡◌, ◌≤◌, IfNone, IfSome};
ghost use Rattle.bearings.specs.Bounds.{Limited};
ghost use Rattle.bearings.specs.Limits.{side, lamination, bearing_outside};
ghost use Rattle.bearings.specs.Sizes.{rubber_sixteenths, bearing_height, plan_number, PlanNumber, RubberHeight, Height};
ghost use Rattle.rulebook.specs.Tests.{between, first_failing};

use super::{Bearing, Elastomeric, Plan};

pub(crate) fn in_range(low: u8, x: u8, high: u8) -> bool
    ensures { result ≡ between low x high }
{
    (low..=high).contains(&x)
}

pub(crate) fn side_within(x: u8) -> bool
    ensures { result ≡ side x }
{
    in_range(8, x, 80)
}

impl Plan {
    // 1,808 times the area in square inches.
    pub fn number(&self) -> u32
        ensures is { result ≡ plan_number self.now }
        ensures area { PlanNumber self.now result }
    {
        match *self {
            Plan::Rectangle { length, width } => 452 * (length as u32 * width as u32),
            Plan::Circle { diameter } => 355 * (diameter as u32 * diameter as u32),
        }
    }
}

impl Bearing {
    // The first field behind the plan's sides that lies outside its limits.
    fn lamination_outside(&self) -> Option<u8>
        ensures is { result ≡ first_failing (lamination self.now) }
        ensures few { IfSome result (λ field. field ≤ 6) }
    {
        if !in_range(1, self.layers, 20) {
            Some(1)
        } else if !in_range(4, self.thickness, 16) {
            Some(2)
        } else if !in_range(1, self.cover, 11)
            || 10 * self.cover as u16 > 7 * self.thickness as u16
        {
            Some(3)
        } else if !in_range(1, self.laminate, 32) {
            Some(4)
        } else if !in_range(80, self.modulus, 180) {
            Some(5)
        } else if !in_range(30, self.strength, 100) {
            Some(6)
        } else {
            None
        }
    }

    // The first field outside its limits, counted from 1 in the order L, W, n, h, c, s, G, F, or D, n, h, c, s, G, F.
    pub fn first_outside(&self) -> Option<u8>
        ensures is { result ≡ bearing_outside self.now }
        ensures limited { IfNone result (Limited self.now.plan self.now.thickness self.now.modulus) }
    {
        let before = match self.plan {
            Plan::Rectangle { length, width } => {
                if !side_within(length) {
                    return Some(1);
                }
                if !side_within(width) {
                    return Some(2);
                }
                2
            }
            Plan::Circle { diameter } => {
                if !side_within(diameter) {
                    return Some(1);
                }
                1
            }
        };
        self.lamination_outside().map(|field| before + field)
    }

    // The height of all its rubber, in sixteenths of an inch.
    pub fn rubber_height(&self) -> u32
        ensures is { result ≡ rubber_sixteenths self.now }
        ensures inches { RubberHeight self.now result }
    {
        self.layers as u32 * self.thickness as u32 + 2 * self.cover as u32
    }

    // In sixty-fourths of an inch.
    pub fn height(&self) -> u32
        ensures is { result ≡ bearing_height self.now }
        ensures inches { Height self.now result }
    {
        4 * self.rubber_height() + (self.layers as u32 + 1) * self.laminate as u32
    }
}

impl Elastomeric for Bearing {
    ghost outside = { bearing_outside };

    ghost plan = { λ b. b.plan };

    ghost thickness = { λ b. b.thickness };

    ghost modulus = { λ b. b.modulus };

    fn first_outside(&self) -> Option<u8> {
        Bearing::first_outside(self)
    }

    fn plan(&self) -> Plan {
        self.plan
    }

    fn thickness(&self) -> u8 {
        self.thickness
    }

    fn modulus(&self) -> u8 {
        self.modulus
    }
}
