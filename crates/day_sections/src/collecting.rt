ghost use Rattle.day_sections.specs.Collecting.{Line, bearing_in, pad_in, request_in};
ghost use Rattle.std.specs.List.{filter_map};
ghost use Rattle.std.specs.Prelude.{◌≡◌, IfOk, Option};

use super::Line;
use bearings::{Bearing, Pad};
use judge_lines::{Entry, Item};
use shelf::Request;
use std::alloc::{AllocError, Global};

// What a line may hold. No `TryFrom<Entry>`: its contract is a relation, and what is collected is stated by the function `part`.
pub trait InLine: Drop + Sized {
    ghost part: { Line → Option Self };

    fn in_line(line: &Line) -> Option<Self>
        ensures { result ≡ part line.now };
}

impl InLine for Bearing {
    ghost part = { bearing_in };

    fn in_line(line: &Line) -> Option<Bearing> {
        match line {
            Ok(Entry::Item(Item::Bearing(bearing))) => Some(*bearing),
            _ => None,
        }
    }
}

impl InLine for Pad {
    ghost part = { pad_in };

    fn in_line(line: &Line) -> Option<Pad> {
        match line {
            Ok(Entry::Item(Item::Pad(pad))) => Some(*pad),
            _ => None,
        }
    }
}

impl InLine for Request {
    ghost part = { request_in };

    fn in_line(line: &Line) -> Option<Request> {
        match line {
            Ok(Entry::Call(request)) => Some(*request),
            _ => None,
        }
    }
}

// All that the lines hold of one kind, in their order.
pub fn collected<T: InLine>(heap: Global, lines: &[Line]) -> Result<Vec<T>, AllocError>
    ensures { IfOk result (λ all. all.items ≡ filter_map T.InLine.part lines.now) }
{
    lines
        .iter()
        .filter_map(|line| T::in_line(line))
        .collect(heap)
}
