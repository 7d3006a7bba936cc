ghost use Rattle.std.specs.Prelude.{◌≡◌, ◌+◌, ◌<◌, length, MatchOption};
ghost use Rattle.picking.specs.Search.{PlaceServes, SizeOf, FoundBelow, BestSays};
ghost use Rattle.shelf.specs.Stock.{layout, on_hand};

use super::found::Found;
use rulebook::{Case, RuleBook, Size, item_passes};
use shelf::{Place, Shelf};

// The size of an item that is on hand and passes.
fn serving_size<B: RuleBook>(book: &B, place: &Place<B::Item>, case: &Case) -> Option<Size>
    ensures { MatchOption result (PlaceServes (B.rules book.now) case.now place.now → ⊥) (λ size. PlaceServes (B.rules book.now) case.now place.now × SizeOf (B.rules book.now) place.now.item size) }
{
    if place.on_hand == 0 {
        return None;
    }
    if !item_passes(book, &place.item, case) {
        return None;
    }
    book.size(&place.item).ok()
}

// The best place up to `place`, by the best one before it. A book, a shelf and a case are lent by three owners for one call, and so stay three parameters.
fn better<B: RuleBook, S: Shelf<Item = B::Item>>(
    book: &B,
    shelf: &S,
    case: &Case,
    place: usize,
    found: Option<Found>,
) -> Option<Found>
    requires within { place < length (layout (S.meaning shelf.now)).items }
    requires before { FoundBelow (B.rules book.now) (layout (S.meaning shelf.now)).items (on_hand (S.meaning shelf.now)) case.now place found }
    ensures { FoundBelow (B.rules book.now) (layout (S.meaning shelf.now)).items (on_hand (S.meaning shelf.now)) case.now (place + 1) result }
{
    let Ok(here) = shelf.place(place) else {
        return found;
    };
    let Some(size) = serving_size(book, &here, case) else {
        return found;
    };
    match found {
        Some(best) if size >= best.size => found,
        _ => Some(Found { place, size }),
    }
}

// The place with the best item that is on hand and passes; None where there is none. Every place is judged, from the front to the last.
pub fn best<B: RuleBook, S: Shelf<Item = B::Item>>(
    book: &B,
    shelf: &S,
    case: &Case,
) -> Option<usize>
    ensures { BestSays (B.rules book.now) (layout (S.meaning shelf.now)).items (on_hand (S.meaning shelf.now)) case.now result }
{
    let count = shelf.places().count;
    let mut found: Option<Found> = None;
    // by its index, since each place is judged in its turn and named by it
    for place in 0..count {
        found = better(book, shelf, case, place, found);
    }
    found.map(|best| best.place)
}
