ghost use Rattle.std.specs.Prelude.{◌≡◌, ◌≤◌, All, map, IfErr, IfOk};
ghost use Rattle.judge_lines.specs.Entries.{entry_of};
ghost use Rattle.judge_lines.specs.Lines.{lines_of};

use judge_lines::{Entry, LineFault, Lines, read_entry};
use std::alloc::{AllocError, Global};

// A line that was read: its entry, or its fault.
pub type Line = Result<Entry, LineFault>;

// Each line of the input, read.
pub fn read_lines(heap: Global, input: &[u8]) -> Result<Vec<Line>, AllocError>
    ensures is { IfOk result (λ lines. lines.items ≡ map entry_of (lines_of input.now)) }
    ensures few { IfOk result (λ lines. All (λ line. IfErr line (λ fault. fault.word ≤ 10)) lines.items) }
{
    Lines::new(input).map(|line| read_entry(line)).collect(heap)
}
