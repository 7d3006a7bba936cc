ghost use Rattle.std.specs.Prelude.{◌≤◌};

use bearings::Bearing;
use shelf::Counts;

// A shelf from one bearing with n layers: it has n places, and at the place i stands the same bearing with i + 1 layers.
#[derive(Drop)]
pub struct RangeShelf {
    pub(crate) number: u32,
    pub(crate) bearing: Bearing,
    // of each place, and then unused: a shelf keeps its counts in itself, and takes no memory from a heap
    pub(crate) counts: [Counts; 20],
    ghost few_layers: { bearing.layers ≤ 20 },
}
