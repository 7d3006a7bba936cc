ghost use Rattle.shelf_texts.specs.Texts.{answer_line};
ghost use Rattle.std.specs.List.{flat_map};
ghost use Rattle.std.specs.Prelude.{◌≡◌, IfOk, string_bytes};

use super::{AnswerText, AsItem};
use shelf::Answer;
use std::alloc::{AllocError, Global};

// A line for each answer.
pub fn answer_lines<I: AsItem>(heap: Global, answers: &[Answer<I>]) -> Result<String, AllocError>
    ensures { IfOk result (λ text. string_bytes text ≡ flat_map (answer_line I.AsItem.written) answers.now) }
{
    let mut text = String::new(heap);
    for answer in answers {
        let answer = AnswerText(*answer);
        writeln!(text, "{answer}")?;
    }
    Ok(text)
}
