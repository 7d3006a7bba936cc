ghost use Rattle.std.specs.Prelude.{ℕ, ◌≡◌, List, Result};
ghost use Rattle.judge_lines.specs.Numbers.{number_in};
ghost use Rattle.judge_lines.specs.declared.fault.WordFault.{WordFault};

use super::WordFault;
use super::numeral::read_number;

// What one word of a line may stand for.
pub(crate) trait Field: Sized {
    ghost meaning: { List ℕ → Result Self WordFault };

    fn read(word: &[u8]) -> Result<Self, WordFault>
        ensures { result ≡ meaning word.now };
}

// One impl for each width: an impl for every number that `TryFrom<u32>` makes would overlap with those of `Kind` and `Head`.

impl Field for u8 {
    ghost meaning = { number_in 255 };

    fn read(word: &[u8]) -> Result<u8, WordFault> {
        Ok(read_number(word, u8::MAX.into())? as u8)
    }
}

impl Field for u16 {
    ghost meaning = { number_in 65535 };

    fn read(word: &[u8]) -> Result<u16, WordFault> {
        Ok(read_number(word, u16::MAX.into())? as u16)
    }
}

impl Field for u32 {
    ghost meaning = { number_in 4294967295 };

    fn read(word: &[u8]) -> Result<u32, WordFault> {
        read_number(word, u32::MAX)
    }
}
