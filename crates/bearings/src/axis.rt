ghost use Rattle.std.specs.Prelude.{◌≤◌};

// A side, in half inches, and the angle by which it turns, in ten-thousandths of a radian.
#[derive(Clone, Copy)]
pub struct Axis {
    pub base: u8,
    pub angle: u16,
    ghost base_high: { base ≤ 80 },
    ghost angle_high: { angle ≤ 500 },
}
