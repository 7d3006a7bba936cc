#![tactic(auto)]

// Cuts an input into lines, and reads a line: the judgement that it asks for, the entry of a shelf's text that it is, or the first word at fault.

mod entries;
mod entry;
mod fault;
mod field;
mod heads;
mod judgement;
mod lines;
mod numeral;
mod records;
mod texts;
mod words;

pub use entries::read_entry;
pub use entry::{Entry, Opening, Sort};
pub use fault::{LineFault, WordFault};
pub use judgement::{Item, Judgement};
pub use lines::{Lines, first_line};
pub use records::read_judgement;

#[cfg(test)]
mod tests {
    use super::*;
    use shelf::Request;
    use std::test::Fail;

    #[test]
    fn reads_a_pad(rt: HostRuntime) -> Result<(), Fail> {
        let judgement = read_judgement(b" P 20\t40 8 000100 30000 20000 50 20 0 1 1\r")?;
        assert_eq!(rt; judgement.case.live, 20_000);
        match judgement.item {
            Item::Pad(pad) => {
                assert_eq!(rt; pad.modulus, 100);
                Ok(())
            },
            Item::Bearing(_) => Err(Fail::new("a bearing")),
        }
    }

    #[test]
    fn names_the_first_fault(rt: HostRuntime) {
        let large = LineFault {
            word: 3,
            what: WordFault::TooLarge,
        };
        assert_eq!(rt;
            read_judgement(b"R 20 99999999999999999999999999 x").err(),
            Some(large)
        );
        let missing = LineFault {
            word: 1,
            what: WordFault::Missing,
        };
        assert_eq!(rt; read_judgement(b"").err(), Some(missing));
    }

    #[test]
    fn reads_entries(rt: HostRuntime) -> Result<(), Fail> {
        match read_entry(b"return 7 3")? {
            Entry::Call(Request::GiveBack { number, place }) => {
                assert!(rt; number == 7 && place == 3);
            }
            _ => return Err(Fail::new("no return")),
        }
        match read_entry(b"range 12")? {
            Entry::Opening(opening) => {
                assert_eq!(rt; opening.sort, Sort::Range);
                assert_eq!(rt; opening.number, 12);
            }
            _ => return Err(Fail::new("no opening")),
        }
        let extra = LineFault {
            word: 2,
            what: WordFault::OneTooMany,
        };
        assert_eq!(rt; read_entry(b"places 2").err(), Some(extra));
        Ok(())
    }
}
