ghost use Rattle.std.specs.Prelude.{◌≡◌, IsTrue, MatchResult};

use rulebook::Refusal;

// The claim to one bearing that was picked: the number of the shelf that it is out of, its place there, and whether an order or a return has ended it.
// The mark of its end is a field, since it is what the contract of `drop` reads. Its numbers are plain fields and no `Taken`, which may be copied.
pub struct Slip {
    pub(crate) number: u32,
    pub(crate) place: usize,
    pub(crate) ended: bool,
}

// Only a slip that is ended may be let go. A pick and a refused end hand over slips that are not, so no program may drop what it holds.
impl Drop for Slip {
    fn drop(self)
        requires { IsTrue self.ended }
    {
        let Slip {
            number: _,
            place: _,
            ended: _,
        } = self;
    }
}

// A slip whose order or return was refused, and why.
#[derive(Drop)]
pub struct HandedBack {
    pub slip: Slip,
    pub why: Refusal,
}

impl Slip {
    // Ends the slip and lets it go where its order or return was granted, and hands it back where that was refused.
    pub(crate) fn settled(mut self, answer: Result<(), Refusal>) -> Result<(), HandedBack>
        ensures { MatchResult answer (λ _. result ≡ Ok tt) (λ why. result ≡ Err (record { slip = self; why = why })) }
    {
        if let Err(why) = answer {
            return Err(HandedBack { slip: self, why });
        }
        self.ended = true;
        Ok(())
    }
}
