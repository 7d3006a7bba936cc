ghost use Rattle.std.specs.Prelude.{◌≡◌, ◌+◌, ◌^◌, ◌<◌, map, length, IfOk, string_bytes};
ghost use Rattle.day_sections.specs.Sections.{sections_of};
ghost use Rattle.shelf_days.specs.Days.{ShelfSays, opening_of, opened_by, SectionSays, DaySays};
ghost use Rattle.judge_lines.specs.Entries.{entry_of};
ghost use Rattle.judge_lines.specs.Lines.{lines_of};

use super::shelves::{list_text, range_text};
use day_sections::{Line, NoShelf, SectionFault, Sections, collected, fault_in, read_lines};
use judge_lines::{Entry, Opening, Sort};
use pads::PadBook;
use section14::Section14;
use std::alloc::{AllocError, Global};

// The opening that the first line of a section is, or what is wrong with that line.
fn opening_in(line: &Line) -> Result<Opening, SectionFault>
    ensures { result ≡ opening_of line.now }
{
    match (*line)? {
        Entry::Opening(opening) => Ok(opening),
        Entry::Item(_) | Entry::Call(_) => Err(SectionFault::OutOfOrder),
    }
}

// The opening of a section by its first line, which has the number `first`, and the lines behind it; or the first fault of them all.
fn opened(first: usize, line: &Line, behind: &[Line]) -> Result<Opening, NoShelf>
    requires { first + length behind.now + 1 < 2 ^ 64 }
    ensures { result ≡ opened_by first (opening_of line.now) behind.now }
{
    let opening = opening_in(line).map_err(|what| NoShelf { line: first, what })?;
    // no method of Option makes its value an error more plainly
    match fault_in(behind, opening.sort) {
        None => Ok(opening),
        Some((line, what)) => {
            let line = first + 1 + line;
            Err(NoShelf { line, what })
        }
    }
}

// The text of a section without a fault, by its opening and the lines behind it.
fn shelf_text(heap: Global, opening: Opening, lines: &[Line]) -> Result<String, AllocError>
    ensures { IfOk result (λ text. ShelfSays opening.sort opening.number lines.now (string_bytes text)) }
{
    let number = opening.number;
    let calls = collected(heap, lines)?;
    match opening.sort {
        Sort::Bearings => list_text(heap, &Section14, number, &collected(heap, lines)?, &calls),
        Sort::Pads => list_text(heap, &PadBook, number, &collected(heap, lines)?, &calls),
        Sort::Range => range_text(heap, number, &collected(heap, lines)?, &calls),
    }
}

// The text of a section whose first line has the number `first`.
fn section_text(heap: Global, first: usize, section: &[Line]) -> Result<String, AllocError>
    requires { first + length section.now < 2 ^ 64 }
    ensures { IfOk result (λ text. SectionSays first section.now (string_bytes text)) }
{
    let Some((line, behind)) = section.split_first() else {
        return Ok(String::new(heap));
    };
    match opened(first, line, behind) {
        Ok(opening) => shelf_text(heap, opening, behind),
        Err(fault) => format!(in heap; "{fault}\n"),
    }
}

// The text of each section, in their order.
#[tactic(auto, using(crate::proofs::Sectioned::numbered_start, crate::proofs::Sectioned::onward_start, crate::proofs::Sectioned::onward_end))]
fn sections_text(heap: Global, lines: &[Line]) -> Result<String, AllocError>
    ensures { IfOk result (λ text. DaySays 1 (sections_of lines.now) (string_bytes text)) }
{
    let mut text = String::new(heap);
    let mut first = 1;
    for section in Sections::new(lines) {
        let answered = section_text(heap, first, section)?;
        text.push_str(answered.as_str())?;
        first += section.len();
    }
    Ok(text)
}

// The text that answers the input.
pub fn day(heap: Global, input: &[u8]) -> Result<String, AllocError>
    ensures { IfOk result (λ text. DaySays 1 (sections_of (map entry_of (lines_of input.now))) (string_bytes text)) }
{
    let lines = read_lines(heap, input)?;
    sections_text(heap, lines.as_slice())
}
