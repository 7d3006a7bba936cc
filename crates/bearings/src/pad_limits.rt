ghost use Rattle.std.specs.Prelude.{◌≡◌, IfNone};
ghost use Rattle.bearings.specs.Bounds.{Limited};
ghost use Rattle.bearings.specs.Limits.{pad_outside, pad_plan};
ghost use Rattle.bearings.specs.Sizes.{pad_height, PadHeight};

use super::limits::{in_range, side_within};
use super::{Elastomeric, Pad, Plan};

impl Pad {
    // The first field outside its limits, counted from 1 in the order L, W, h, G.
    pub fn first_outside(&self) -> Option<u8>
        ensures is { result ≡ pad_outside self.now }
        ensures limited { IfNone result (Limited (pad_plan self.now) self.now.thickness self.now.modulus) }
    {
        if !side_within(self.length) {
            Some(1)
        } else if !side_within(self.width) {
            Some(2)
        } else if !in_range(4, self.thickness, 48) {
            Some(3)
        } else if !in_range(80, self.modulus, 180) {
            Some(4)
        } else {
            None
        }
    }

    // In sixty-fourths of an inch.
    pub fn height(&self) -> u32
        ensures is { result ≡ pad_height self.now }
        ensures inches { PadHeight self.now result }
    {
        4 * self.thickness as u32
    }
}

impl Elastomeric for Pad {
    ghost outside = { pad_outside };

    ghost plan = { pad_plan };

    ghost thickness = { λ p. p.thickness };

    ghost modulus = { λ p. p.modulus };

    fn first_outside(&self) -> Option<u8> {
        Pad::first_outside(self)
    }

    fn plan(&self) -> Plan {
        Plan::Rectangle {
            length: self.length,
            width: self.width,
        }
    }

    fn thickness(&self) -> u8 {
        self.thickness
    }

    fn modulus(&self) -> u8 {
        self.modulus
    }
}
