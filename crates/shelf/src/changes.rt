ghost use Rattle.shelf.specs.Changes.{numbers, counts_after, off_shelf};
ghost use Rattle.std.specs.Prelude.{◌≡◌};

use super::Counts;
use rulebook::Refusal;

// What a call does to the counts of one place. It is a value that contracts name, so that one definition serves every shelf; a closure would be known by
// what it may answer alone.
#[derive(Clone, Copy)]
pub enum Change {
    Receive(u32),
    // one from on hand to out
    Take,
    // one that was out stays away
    Order,
    // one from out back to on hand
    GiveBack,
}

impl Change {
    // The refusal of a place off the shelf.
    pub fn off_shelf(self) -> Refusal
        ensures { result ≡ off_shelf self }
    {
        match self {
            Change::Receive(_) => Refusal::OffShelf,
            Change::Take => Refusal::OffShelf,
            Change::Order => Refusal::NoneOut,
            Change::GiveBack => Refusal::NoneOut,
        }
    }
}

impl Counts {
    // The counts of a place that was just opened.
    pub fn none() -> Counts
        ensures { (result.on_hand ≡ 0) × (result.out ≡ 0) }
    {
        Counts { on_hand: 0, out: 0 }
    }

    pub fn after(self, change: Change) -> Result<Counts, Refusal>
        ensures { numbers result ≡ counts_after change self.on_hand self.out }
    {
        let Counts { on_hand, out } = self;
        match change {
            Change::Receive(count) => {
                if count == 0 || count > 60_000 - (on_hand + out) as u32 {
                    return Err(Refusal::Receipt);
                }
                Ok(Counts {
                    on_hand: on_hand + count as u16,
                    out,
                })
            }
            Change::Take => {
                let on_hand = on_hand.checked_sub(1).ok_or(Refusal::NoneOnHand)?;
                Ok(Counts {
                    on_hand,
                    out: out + 1,
                })
            }
            Change::Order => {
                let out = out.checked_sub(1).ok_or(Refusal::NoneOut)?;
                Ok(Counts { on_hand, out })
            }
            Change::GiveBack => {
                let out = out.checked_sub(1).ok_or(Refusal::NoneOut)?;
                Ok(Counts {
                    on_hand: on_hand + 1,
                    out,
                })
            }
        }
    }
}
