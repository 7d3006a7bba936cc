ghost use Rattle.rulebook.proofs.Passing.{none_fails};
ghost use Rattle.shelf_examples.specs.Blocks.{block_rules};
ghost use Rattle.std.proofs.Common.{refl, lit<};
ghost use Rattle.std.proofs.Math.Nat.{lt_of_le_of_lt};
ghost use Rattle.std.proofs.lemmas.Bool.{leb-true};
ghost use Rattle.std.specs.Prelude.{nat_le};

use rulebook::{Case, Refusal, RuleBook, Size, Verdict, admit, measure};

// An item of no bridge: a block with a height and a tag, to show that shelves and the search are tied to no kind of item.
#[derive(Clone, Copy, PartialEq, Eq, Debug)]
pub struct Block {
    pub height: u8,
    pub tag: u8,
}

// A book of two articles for blocks.
#[derive(Clone, Copy)]
pub struct BlockBook;

impl RuleBook for BlockBook {
    type Item = Block;

    const ARTICLES: u8 = 2;

    ghost rules = { λ _. block_rules };

    ghost counted = { λ b i c. refl };

    ghost measured = { λ b i within.
        let height = none_fails (nat_le i.height 100) _ within in
        let tag = none_fails (nat_le i.tag 200) _ height.1 in
        (lt_of_le_of_lt (leb-true i.height 100 height.0) (lit< tt), lt_of_le_of_lt (leb-true i.tag 200 tag.0) (lit< tt)) };

    // Written in every book, a line or two for each call, also where it is the same in another.

    fn article_count(&self) -> u8 {
        Self::ARTICLES
    }

    fn first_outside(&self, item: &Block) -> Option<u8> {
        if item.height > 100 {
            Some(1)
        } else if item.tag > 200 {
            Some(2)
        } else {
            None
        }
    }

    fn loads_within(&self, case: &Case) -> bool {
        case.loads_within()
    }

    fn rest_within(&self, case: &Case) -> bool {
        case.rest_within()
    }

    fn verdict(&self, item: &Block, case: &Case) -> Result<Verdict, Refusal> {
        admit(self.first_outside(item), case)?;
        if case.load() > 1000 * item.height as u64 {
            return Ok(Verdict::Fails { article: 1 });
        }
        if case.movement > item.height as u16 {
            return Ok(Verdict::Fails { article: 2 });
        }
        Ok(Verdict::Passes)
    }

    fn size(&self, item: &Block) -> Result<Size, Refusal> {
        let size = Size {
            height: item.height as u32,
            plan_number: item.tag as u32,
        };
        measure(self.first_outside(item), size)
    }
}
