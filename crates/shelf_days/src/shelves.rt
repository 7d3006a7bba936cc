ghost use Rattle.list_shelf.specs.Slots.{slot_items};
ghost use Rattle.shelf_days.specs.Days.{CallsSay, ListSays, RangeTextSays, refused_line};
ghost use Rattle.std.specs.Prelude.{◌≡◌, IfOk, string_bytes};

use bearings::Bearing;
use history::serve;
use list_shelf::{ListShelf, Slot};
use range_shelf::RangeShelf;
use rulebook::RuleBook;
use section14::Section14;
use shelf::{OpeningRefusal, Request, Shelf};
use shelf_texts::{AsItem, OpenedText, answer_lines};
use std::alloc::{AllocError, Global};

// Heap, book, number and calls are lent by the section that is read, and stay parameters: a struct of them would only be taken apart again.

// Makes the calls on a shelf that was just opened: the line of its opening, and a line for each answer.
#[tactic(auto, using(crate::proofs::Sayings::calls_say))]
fn calls_text<I: AsItem, B: RuleBook<Item = I>, S: Shelf<Item = I>>(
    heap: Global,
    book: &B,
    shelf: &mut S,
    calls: &[Request],
) -> Result<String, AllocError>
    ensures { IfOk result (λ text. CallsSay (B.rules book.now) I.AsItem.written (S.meaning shelf.old) calls.now (string_bytes text)) }
{
    let opened = OpenedText(shelf.places());
    let mut text = format!(in heap; "{opened}\n")?;
    let mut answers = Vec::new(heap);
    serve(book, shelf, calls, &mut answers)?;
    let lines = answer_lines(heap, answers.as_slice())?;
    text.push_str(lines.as_str())?;
    Ok(text)
}

fn refused_text(heap: Global, why: OpeningRefusal) -> Result<String, AllocError>
    ensures { IfOk result (λ text. string_bytes text ≡ refused_line why) }
{
    format!(in heap; "{why}\n")
}

// Opens a list shelf over the slots, and makes the calls on it. A range shelf answers a refusal by the same `if`: a function of the closure that opens
// would need clauses on when it may be called and what it opens, and they are longer than that `if`.
fn slots_text<I: AsItem, B: RuleBook<Item = I>>(
    heap: Global,
    book: &B,
    number: u32,
    slots: &mut [Slot<I>],
    calls: &[Request],
) -> Result<String, AllocError>
    ensures { IfOk result (λ text. ListSays (B.rules book.now) I.AsItem.written number (slot_items slots.old) calls.now (string_bytes text)) }
{
    if let Err(why) = ListShelf::check(book, number, slots) {
        return refused_text(heap, why);
    }
    let mut shelf = ListShelf::open(book, number, slots);
    calls_text(heap, book, &mut shelf, calls)
}

fn slots_of<I: Copy>(heap: Global, items: &[I]) -> Result<Vec<Slot<I>>, AllocError>
    ensures { IfOk result (λ slots. slot_items slots.items ≡ items.now) }
{
    items.iter().map(|item| Slot::new(*item)).collect(heap)
}

// The same for a list of items.
pub(crate) fn list_text<I: AsItem, B: RuleBook<Item = I>>(
    heap: Global,
    book: &B,
    number: u32,
    items: &[I],
    calls: &[Request],
) -> Result<String, AllocError>
    ensures { IfOk result (λ text. ListSays (B.rules book.now) I.AsItem.written number items.now calls.now (string_bytes text)) }
{
    let mut slots = slots_of(heap, items)?;
    slots_text(heap, book, number, slots.as_mut_slice(), calls)
}

// Opens a range shelf from the first of the bearings, of which a section has at most one, and makes the calls on it.
#[tactic(auto, using(crate::proofs::Sayings::first_says))]
pub(crate) fn range_text(
    heap: Global,
    number: u32,
    bearings: &[Bearing],
    calls: &[Request],
) -> Result<String, AllocError>
    ensures { IfOk result (λ text. RangeTextSays number bearings.now calls.now (string_bytes text)) }
{
    let Some(bearing) = bearings.first() else {
        let why = if number == 0 {
            OpeningRefusal::ShelfNumber
        } else {
            OpeningRefusal::ItemCount
        };
        return refused_text(heap, why);
    };
    if let Err(why) = RangeShelf::check(number, bearing) {
        return refused_text(heap, why);
    }
    let mut shelf = RangeShelf::open(number, *bearing);
    calls_text(heap, &Section14, &mut shelf, calls)
}
