ghost use Rattle.std.specs.Prelude.{◌≡◌, ◌+◌, ◌<◌, ◌≤◌, IfErr, OnOk};
ghost use Rattle.judge_lines.specs.Entries.{call_of, fields_of, entry_of};
ghost use Rattle.judge_lines.specs.Reader.{Reads};

use super::entry::{Call, Head};
use super::records::{read_case, read_item};
use super::words::Words;
use super::{Entry, LineFault, Opening};
use shelf::Request;

fn read_call(call: Call, words: &mut Words) -> Result<Request, LineFault>
    ensures reads { Reads (call_of call) words.old words.new result }
    ensures counted { OnOk result (words.new.place ≤ words.old.place + 7) }
    ensures at_fault { IfErr result (λ fault. fault.word < words.old.place + 7) }
{
    let request = match call {
        Call::Receive => Request::Receive {
            place: words.read::<u32>()? as usize,
            count: words.read()?,
        },
        Call::Pick => Request::Pick(read_case(words)?),
        Call::Order => Request::Order {
            number: words.read()?,
            place: words.read::<u32>()? as usize,
        },
        Call::GiveBack => Request::GiveBack {
            number: words.read()?,
            place: words.read::<u32>()? as usize,
        },
        Call::Place => Request::Place {
            place: words.read::<u32>()? as usize,
        },
        Call::Places => Request::Places,
    };
    Ok(request)
}

fn read_fields(head: Head, words: &mut Words) -> Result<Entry, LineFault>
    ensures reads { Reads (fields_of head) words.old words.new result }
    ensures counted { OnOk result (words.new.place ≤ words.old.place + 8) }
    ensures at_fault { IfErr result (λ fault. fault.word < words.old.place + 8) }
{
    let entry = match head {
        Head::Opening(sort) => Entry::Opening(Opening {
            sort,
            number: words.read()?,
        }),
        Head::Item(kind) => Entry::Item(read_item(kind, words)?),
        Head::Call(call) => Entry::Call(read_call(call, words)?),
    };
    Ok(entry)
}

// The entry that the line is, or its first fault, which is one of the first 10 words.
pub fn read_entry(line: &[u8]) -> Result<Entry, LineFault>
    ensures is { result ≡ entry_of line.now }
    ensures few { IfErr result (λ fault. fault.word ≤ 10) }
{
    let mut words = Words::new(line);
    let head = words.read()?;
    let entry = read_fields(head, &mut words)?;
    words.end()?;
    Ok(entry)
}
