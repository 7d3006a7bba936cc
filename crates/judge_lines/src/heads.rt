ghost use Rattle.judge_lines.specs.Entries.{head_in};
ghost use Rattle.judge_lines.specs.Records.{kind_in};

use super::WordFault;
use super::entry::{Call, Head, Sort};
use super::field::Field;
use super::judgement::Kind;

impl Field for Kind {
    ghost meaning = { kind_in };

    fn read(word: &[u8]) -> Result<Kind, WordFault> {
        match word {
            [b'R'] => Ok(Kind::Rectangle),
            [b'C'] => Ok(Kind::Circle),
            [b'P'] => Ok(Kind::Pad),
            _ => Err(WordFault::NoKind),
        }
    }
}

impl Field for Head {
    ghost meaning = { head_in };

    fn read(word: &[u8]) -> Result<Head, WordFault> {
        // each word whole, by its bytes: a pattern of bytes would branch at every byte, and text would have to be checked to be UTF-8 first
        match word {
            _ if word == b"bearings".as_slice() => Ok(Head::Opening(Sort::Bearings)),
            _ if word == b"pads".as_slice() => Ok(Head::Opening(Sort::Pads)),
            _ if word == b"range".as_slice() => Ok(Head::Opening(Sort::Range)),
            _ if word == b"receive".as_slice() => Ok(Head::Call(Call::Receive)),
            _ if word == b"pick".as_slice() => Ok(Head::Call(Call::Pick)),
            _ if word == b"order".as_slice() => Ok(Head::Call(Call::Order)),
            _ if word == b"return".as_slice() => Ok(Head::Call(Call::GiveBack)),
            _ if word == b"place".as_slice() => Ok(Head::Call(Call::Place)),
            _ if word == b"places".as_slice() => Ok(Head::Call(Call::Places)),
            _ => Kind::read(word).map(Head::Item),
        }
    }
}
