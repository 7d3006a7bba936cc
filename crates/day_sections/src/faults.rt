ghost use Rattle.std.specs.Prelude.{◌≡◌, ◌<◌, length, IfSome};
ghost use Rattle.day_sections.specs.Faults.{rectangular, takes, behind_line, fault_of};

use super::section::Before;
use super::{Line, SectionFault};
use bearings::Plan;
use judge_lines::{Entry, Item, Sort};

fn is_rectangle(plan: Plan) -> bool
    ensures { result ≡ rectangular plan }
{
    matches!(plan, Plan::Rectangle { .. })
}

// Whether a shelf of the sort takes the item behind what stands before it, calls aside.
fn takes_item(sort: Sort, before: Before, item: Item) -> bool
    ensures { result ≡ takes sort before item }
{
    match (sort, item) {
        (Sort::Bearings, Item::Bearing(_)) | (Sort::Pads, Item::Pad(_)) => true,
        (Sort::Range, Item::Bearing(bearing)) => {
            before == Before::Nothing && is_rectangle(bearing.plan)
        }
        _ => false,
    }
}

// What stands before the next line, or what is wrong with this one.
fn behind(line: &Line, sort: Sort, before: Before) -> Result<Before, SectionFault>
    ensures { result ≡ behind_line sort before line.now }
{
    match (*line)? {
        Entry::Item(item) if before != Before::Calls && takes_item(sort, before, item) => {
            Ok(Before::Items)
        }
        Entry::Call(_) => Ok(Before::Calls),
        Entry::Item(_) | Entry::Opening(_) => Err(SectionFault::OutOfOrder),
    }
}

// The first fault of the lines behind an opening: the line, counted from 0, and what is wrong with it. It is what is looked for here, and so an Option and
// no Err.
pub fn fault_in(lines: &[Line], sort: Sort) -> Option<(usize, SectionFault)>
    ensures is { result ≡ fault_of sort lines.now }
    ensures within { IfSome result (λ fault. fault.0 < length lines.now) }
{
    let mut before = Before::Nothing;
    for (i, line) in lines.iter().enumerate() {
        match behind(line, sort, before) {
            Ok(after) => before = after,
            Err(what) => return Some((i, what)),
        }
    }
    None
}
