ghost use Rattle.std.specs.Prelude.{◌≡◌, ◌≤◌, length, take, drop};
ghost use Rattle.day_sections.specs.Sections.{opens, goes_on, section_length, sections_of};
ghost use Rattle.std.specs.Iterator.{YieldsFirstRef, item_count};
ghost use Rattle.std.specs.List.{prefix_len};

use super::Line;
use judge_lines::Entry;

fn is_opening(line: &Line) -> bool
    ensures { result ≡ opens line.now }
{
    matches!(line, Ok(Entry::Opening(_)))
}

// How many lines stand before the first opening.
fn lines_before_opening(lines: &[Line]) -> usize
    ensures is { result ≡ prefix_len goes_on lines.now }
    ensures within { result ≤ length lines.now }
{
    lines.iter().take_while(|line| !is_opening(line)).count()
}

// The first section, which is the first line and what follows before the next opening, and the lines behind it.
pub fn first_section(lines: &[Line]) -> (&[Line], &[Line])
    ensures section { result.0.now ≡ take (section_length lines.now) lines.now }
    ensures rest { result.1.now ≡ drop (section_length lines.now) lines.now }
{
    match lines.split_first() {
        None => (lines, lines),
        Some((_, behind)) => lines.split_at(1 + lines_before_opening(behind)),
    }
}

// The sections of lines, one after the other. `Lines` goes over lines in the same way; one iterator for both would need clauses
// on what its closure cuts off.
#[derive(Drop)]
pub struct Sections<'a> {
    rest: &'a [Line],
}

impl<'a> Sections<'a> {
    pub fn new(lines: &'a [Line]) -> Sections<'a>
        ensures { result.rest.now ≡ lines.now }
    {
        Sections { rest: lines }
    }
}

impl<'a> Iterator for Sections<'a> {
    type Item = &'a [Line];

    ghost next_gives = { YieldsFirstRef (λ s. sections_of s.rest.now) };

    ghost remaining = { item_count (λ s. sections_of s.rest.now) };

    #[tactic(auto, using(crate::proofs::Parting::sections_cut))]
    fn next(&mut self) -> Option<&'a [Line]> {
        if self.rest.is_empty() {
            return None;
        }
        let (section, rest) = first_section(self.rest);
        self.rest = rest;
        Some(section)
    }
}
