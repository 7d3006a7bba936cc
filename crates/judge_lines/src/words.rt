ghost use Rattle.std.specs.Prelude.{◌≡◌, ◌≢◌, ◌+◌, ◌<◌, ◌≤◌, ◌^◌, length, [], ◌∷◌, MatchOption, IfSome, IfErr, OnOk};
ghost use Rattle.judge_lines.specs.Words.{blank, words};

use super::field::Field;
use super::{LineFault, WordFault};

#[tactic(auto, unfolding(crate::specs::Words::blank))]
fn is_blank(b: u8) -> bool
    ensures { result ≡ blank b }
{
    b == b' ' || b == b'\t' || b == b'\r'
}

// The first word of the bytes, and what stands behind it.
fn first_word(bytes: &[u8]) -> Option<(&[u8], &[u8])>
    ensures word { MatchOption result (words bytes.now ≡ []) (λ cut. words bytes.now ≡ cut.0.now ∷ words cut.1.now) }
    ensures shorter { IfSome result (λ cut. length cut.1.now < length bytes.now) }
{
    let start = bytes.iter().position(|byte| !is_blank(*byte))?;
    let bytes = &bytes[start..];
    let end = bytes
        .iter()
        .position(|byte| is_blank(*byte))
        .unwrap_or(bytes.len());
    Some((&bytes[..end], &bytes[end..]))
}

// The words of a line, read one after the other.
#[derive(Drop)]
pub(crate) struct Words<'a> {
    rest: &'a [u8],
    // the number of the next word, counted from 1
    place: usize,
    // each word has a byte at least
    ghost counted: { place + length rest.now ≤ 2 ^ 63 },
}

impl<'a> Words<'a> {
    ghost use Rattle.judge_lines.specs.Reader.{Reads};
    ghost use Rattle.judge_lines.specs.Readings.{next, end};

    pub(crate) fn new(line: &'a [u8]) -> Words<'a>
        ensures rest { result.rest.now ≡ line.now }
        ensures place { result.place ≡ 1 }
    {
        Words {
            rest: line,
            place: 1,
        }
    }

    fn next(&mut self) -> Option<&'a [u8]>
        ensures word { MatchOption result (words self.old.rest.now ≡ []) (λ w. words self.old.rest.now ≡ w.now ∷ words self.new.rest.now) }
        ensures place { MatchOption result (self.new ≡ self.old) (λ _. self.new.place ≡ self.old.place + 1) }
    {
        let (word, rest) = first_word(self.rest)?;
        self.rest = rest;
        self.place += 1;
        Some(word)
    }

    // What the next word is for a field of this type. A word at fault is passed too; where none is left, the reader stays where it is.
    pub(crate) fn read<T: Field>(&mut self) -> Result<T, LineFault>
        ensures reads { Reads (next T.meaning) self.old self.new result }
        ensures passed { words self.old.rest.now ≢ [] → self.new.place ≡ self.old.place + 1 }
        ensures none_left { words self.old.rest.now ≡ [] → self.new ≡ self.old }
        ensures counted { OnOk result (self.new.place ≡ self.old.place + 1) }
        ensures at_fault { IfErr result (λ fault. fault.word ≡ self.old.place) }
    {
        let word = self.place;
        self.next()
            .ok_or(WordFault::Missing)
            .and_then(|text| T::read(text))
            .map_err(|what| LineFault { word, what })
    }

    pub(crate) fn end(mut self) -> Result<(), LineFault>
        ensures reads { Reads end self.entry self.entry result }
        ensures at_fault { IfErr result (λ fault. fault.word ≡ self.entry.place) }
    {
        let word = self.place;
        // no method of Option makes a word that was found the fault more plainly
        match self.next() {
            None => Ok(()),
            Some(_) => Err(LineFault {
                word,
                what: WordFault::OneTooMany,
            }),
        }
    }
}
