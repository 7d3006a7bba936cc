ghost use Rattle.judge_lines.specs.declared.judgement.Item.{Item};
ghost use Rattle.judge_lines.specs.declared.judgement.Item.TheVariants as item;
ghost use Rattle.std.specs.Prelude.{◌≡◌};

use bearings::{Bearing, Pad};
use judge_lines::Item;

// A kind of item that a line can write. No `Into<Item>`: its contract is a relation, and what is said of a text names the written item, as `written` does.
pub trait AsItem: Copy {
    ghost written: { Self → Item };

    fn as_item(self) -> Item
        ensures { result ≡ written self };
}

impl AsItem for Bearing {
    ghost written = { item.Bearing };

    fn as_item(self) -> Item {
        Item::Bearing(self)
    }
}

impl AsItem for Pad {
    ghost written = { item.Pad };

    fn as_item(self) -> Item {
        Item::Pad(self)
    }
}

impl AsItem for Item {
    ghost written = { λ item. item };

    fn as_item(self) -> Self {
        self
    }
}
