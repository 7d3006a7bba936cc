ghost use Rattle.std.specs.Prelude.{◌≡◌, ◌^◌, ◌<◌, length, None};
ghost use Rattle.rulebook.specs.Books.{Rules, within, passes, verdict_of, size_of, height_of, plan_number_of};
ghost use Rattle.rulebook.specs.Verdicts.{passing, numbered_0};
ghost use Rattle.rulebook.specs.declared.case.Case.{Case};

use super::{Case, Refusal, Size, Verdict};

// A rule book: its kind of item, its articles, and what it says of an item under a case. `rules` is its meaning, and every answer is the
// one that the meaning gives, so that asking twice gives the same.
pub trait RuleBook {
    type Item: Copy;

    const ARTICLES: u8;

    ghost rules: { Self → Rules Self.Item };

    // The number of articles, ARTICLES.
    fn article_count(&self) -> u8
        ensures { result ≡ (rules self.now).count };

    // The first field of the item outside its limits, counted from 1.
    fn first_outside(&self, item: &Self::Item) -> Option<u8>
        ensures { result ≡ (rules self.now).outside item.now };

    fn item_within(&self, item: &Self::Item) -> bool
        ensures { result ≡ within ((rules self.now).outside item.now) }
    {
        self.first_outside(item).is_none()
    }

    fn loads_within(&self, case: &Case) -> bool
        ensures { result ≡ (rules self.now).loads case.now };

    fn rest_within(&self, case: &Case) -> bool
        ensures { result ≡ (rules self.now).rest case.now };

    // Refused by the first that applies: the item, the loads, the rest of the case.
    fn verdict(&self, item: &Self::Item, case: &Case) -> Result<Verdict, Refusal>
        ensures { result ≡ verdict_of (rules self.now) item.now case.now };

    fn size(&self, item: &Self::Item) -> Result<Size, Refusal>
        ensures { result ≡ size_of (rules self.now) item.now };

    fn height(&self, item: &Self::Item) -> Result<u32, Refusal>
        ensures { result ≡ height_of (rules self.now) item.now }
    {
        Ok(self.size(item)?.height)
    }

    fn plan_number(&self, item: &Self::Item) -> Result<u32, Refusal>
        ensures { result ≡ plan_number_of (rules self.now) item.now }
    {
        Ok(self.size(item)?.plan_number)
    }

    ghost counted: { (b : Self) (i : Self.Item) (c : Case) → length ((rules b).articles i c) ≡ (rules b).count };

    ghost measured: { (b : Self) (i : Self.Item) → (rules b).outside i ≡ None → ((rules b).height i < 2 ^ 32) × ((rules b).plan_number i < 2 ^ 32) };
}

fn is_pass(answer: Result<Verdict, Refusal>) -> bool
    ensures { result ≡ passing answer }
{
    matches!(answer, Ok(Verdict::Passes))
}

// Whether an item passes under a case, by any book: both lie within the limits, and every article holds. The verdict then has the number 0, and
// in no other case.
pub fn item_passes<B: RuleBook>(book: &B, item: &B::Item, case: &Case) -> bool
    ensures is { result ≡ passes (B.rules book.now) item.now case.now }
    ensures number { result ≡ numbered_0 (verdict_of (B.rules book.now) item.now case.now) }
{
    is_pass(book.verdict(item, case))
}
