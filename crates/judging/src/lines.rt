ghost use Rattle.judging.specs.Texts.{answers_text};
ghost use Rattle.std.specs.Prelude.{◌≡◌, IfOk, string_bytes};

use super::answering::answer_to;
use judge_lines::Lines;
use std::alloc::{AllocError, Global};
use std::fmt::Write;

// The answer to each line of the input, in their order.
pub fn answers(heap: Global, input: &[u8]) -> Result<String, AllocError>
    ensures { IfOk result (λ text. string_bytes text ≡ answers_text input.now) }
{
    let mut text = String::new(heap);
    for line in Lines::new(input) {
        match answer_to(line) {
            Ok(judged) => writeln!(text, "{judged}")?,
            Err(why) => writeln!(text, "{why}")?,
        }
    }
    Ok(text)
}
