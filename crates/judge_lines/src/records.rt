ghost use Rattle.std.specs.Prelude.{◌≡◌, ◌+◌, ◌<◌, ◌≤◌, IfErr, OnOk};
ghost use Rattle.judge_lines.specs.Reader.{Reads};
ghost use Rattle.judge_lines.specs.Records.{rectangle, circle, lamination, pad, item_of, case, judgement_of};

use super::judgement::Kind;
use super::words::Words;
use super::{Item, Judgement, LineFault};
use bearings::{Bearing, Pad, Plan};
use rulebook::Case;

// A function for each record, and no trait: they differ in their fields, and some need what stands before those. Each says how far it reads, as the bound of
// a fault's word rests on it.

fn read_rectangle(words: &mut Words) -> Result<Plan, LineFault>
    ensures reads { Reads rectangle words.old words.new result }
    ensures counted { OnOk result (words.new.place ≡ words.old.place + 2) }
    ensures at_fault { IfErr result (λ fault. fault.word < words.old.place + 2) }
{
    Ok(Plan::Rectangle {
        length: words.read()?,
        width: words.read()?,
    })
}

fn read_circle(words: &mut Words) -> Result<Plan, LineFault>
    ensures reads { Reads circle words.old words.new result }
    ensures counted { OnOk result (words.new.place ≡ words.old.place + 1) }
    ensures at_fault { IfErr result (λ fault. fault.word < words.old.place + 1) }
{
    Ok(Plan::Circle {
        diameter: words.read()?,
    })
}

fn read_lamination(plan: Plan, words: &mut Words) -> Result<Bearing, LineFault>
    ensures reads { Reads (lamination plan) words.old words.new result }
    ensures counted { OnOk result (words.new.place ≡ words.old.place + 6) }
    ensures at_fault { IfErr result (λ fault. fault.word < words.old.place + 6) }
{
    Ok(Bearing {
        plan,
        layers: words.read()?,
        thickness: words.read()?,
        cover: words.read()?,
        laminate: words.read()?,
        modulus: words.read()?,
        strength: words.read()?,
    })
}

fn read_pad(words: &mut Words) -> Result<Pad, LineFault>
    ensures reads { Reads pad words.old words.new result }
    ensures counted { OnOk result (words.new.place ≡ words.old.place + 4) }
    ensures at_fault { IfErr result (λ fault. fault.word < words.old.place + 4) }
{
    Ok(Pad {
        length: words.read()?,
        width: words.read()?,
        thickness: words.read()?,
        modulus: words.read()?,
    })
}

pub(crate) fn read_case(words: &mut Words) -> Result<Case, LineFault>
    ensures reads { Reads case words.old words.new result }
    ensures counted { OnOk result (words.new.place ≡ words.old.place + 7) }
    ensures at_fault { IfErr result (λ fault. fault.word < words.old.place + 7) }
{
    Ok(Case {
        dead: words.read()?,
        live: words.read()?,
        movement: words.read()?,
        rotation_x: words.read()?,
        rotation_z: words.read()?,
        deck: words.read()?,
        shear: words.read()?,
    })
}

pub(crate) fn read_item(kind: Kind, words: &mut Words) -> Result<Item, LineFault>
    ensures reads { Reads (item_of kind) words.old words.new result }
    ensures counted { OnOk result (words.new.place ≤ words.old.place + 8) }
    ensures at_fault { IfErr result (λ fault. fault.word < words.old.place + 8) }
{
    let plan = match kind {
        Kind::Rectangle => read_rectangle(words)?,
        Kind::Circle => read_circle(words)?,
        Kind::Pad => return Ok(Item::Pad(read_pad(words)?)),
    };
    Ok(Item::Bearing(read_lamination(plan, words)?))
}

// The judgement that the line asks for, or its first fault, which is one of the first 17 words.
pub fn read_judgement(line: &[u8]) -> Result<Judgement, LineFault>
    ensures is { result ≡ judgement_of line.now }
    ensures few { IfErr result (λ fault. fault.word ≤ 17) }
{
    let mut words = Words::new(line);
    let kind = words.read()?;
    let item = read_item(kind, &mut words)?;
    let case = read_case(&mut words)?;
    words.end()?;
    Ok(Judgement { item, case })
}
