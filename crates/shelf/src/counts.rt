ghost use Rattle.std.specs.Prelude.{◌+◌, ◌≤◌};

// The counts of one place.
#[derive(Clone, Copy)]
pub struct Counts {
    pub on_hand: u16,
    pub out: u16,
    ghost few: { on_hand + out ≤ 60000 },
}
