ghost use Rattle.rulebook.specs.Verdicts.{verdict_number};
ghost use Rattle.std.specs.Prelude.{◌≡◌};

// What a book says of an item under a case. As an Option it would say `Some(3)` of an item that fails and `None` of one that passes, which reads the wrong way.
#[derive(Clone, Copy, PartialEq, Eq, Debug)]
pub enum Verdict {
    // every article holds
    Passes,
    // the first article that does not hold, by its number, since each book has articles of its own
    Fails { article: u8 },
}

impl Verdict {
    // 0 where every article holds, else the number of the first that does not. By no `From`, as `verdict.number()` says which number is meant.
    pub fn number(&self) -> u8
        ensures { result ≡ verdict_number self.now }
    {
        match self {
            Verdict::Passes => 0,
            Verdict::Fails { article } => *article,
        }
    }
}
