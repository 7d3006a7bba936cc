ghost use Rattle.rulebook.specs.Cases.{load, loads_within, rest_within};
ghost use Rattle.std.specs.Prelude.{◌≡◌};

// The demand of one bridge seat. The fields hold values outside their limits too, since a user may enter them.
#[derive(Clone, Copy, PartialEq, Eq, Debug)]
pub struct Case {
    // dead load and live load, in pounds
    pub dead: u32,
    pub live: u32,
    // in hundredths of an inch
    pub movement: u16,
    // about the transverse axis and about the longitudinal axis, in ten-thousandths of a radian
    pub rotation_x: u16,
    pub rotation_z: u16,
    // The two marks are numbers, as a user may enter any, and one above 1 is refused.
    // 1 where the deck is free to translate, else 0
    pub deck: u8,
    // 1 where the bearing deforms in shear, 0 where it is fixed against that
    pub shear: u8,
}

impl Case {
    // The whole load, in pounds. It is taken in 64 bits, where it can't wrap.
    pub fn load(&self) -> u64
        ensures { result ≡ load self.now }
    {
        self.dead as u64 + self.live as u64
    }

    pub fn loads_within(&self) -> bool
        ensures { result ≡ loads_within self.now }
    {
        self.load() <= 2_000_000
    }

    // Whether movement, rotations and marks lie within their ranges.
    pub fn rest_within(&self) -> bool
        ensures { result ≡ rest_within self.now }
    {
        self.movement <= 2_000
            && self.rotation_x <= 500
            && self.rotation_z <= 500
            && self.deck <= 1
            && self.shear <= 1
    }
}
