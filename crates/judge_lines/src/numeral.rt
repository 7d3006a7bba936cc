ghost use Rattle.std.specs.Prelude.{◌≡◌, ◌≤◌, IfOk};
ghost use Rattle.judge_lines.specs.Numbers.{number_in};

use super::WordFault;

// Above every number that a field holds. Digits count up to here and no further, so that a long word can't wrap.
const PLENTY: u64 = 4_294_967_296;

// The number that the word writes, where it has digits only and writes at most `largest`. Not `parse`, which takes a leading plus too.
pub(crate) fn read_number(word: &[u8], largest: u32) -> Result<u32, WordFault>
    ensures is { result ≡ number_in largest word.now }
    ensures small { IfOk result (λ n. n ≤ largest) }
{
    let mut number: u64 = 0;
    for byte in word {
        if !byte.is_ascii_digit() {
            return Err(WordFault::NotANumber);
        }
        number = (number * 10 + u64::from(*byte - b'0')).min(PLENTY);
    }
    if number > u64::from(largest) {
        return Err(WordFault::TooLarge);
    }
    Ok(number as u32)
}
