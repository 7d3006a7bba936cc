#![tactic(auto)]

// The thirteen worked cases of docs/SECTION14.md and docs/PADS.md: as one statement over the definitions, and as tests of the code.
ghost use Rattle.worked_cases.specs.Statement.{ThirteenCases, AnswersOf};

mod answers;

pub use answers::WorkedAnswers;
use buckling::WholeTerms;
use rulebook::Verdict;

// The answers that these pages print. The contract says that they follow from the definitions.
pub fn worked_answers() -> WorkedAnswers
    ensures joint { ThirteenCases }
    ensures answers { AnswersOf result }
{
    WorkedAnswers {
        verdicts: [
            Verdict::Passes,
            Verdict::Fails { article: 1 },
            Verdict::Fails { article: 2 },
            Verdict::Fails { article: 3 },
            Verdict::Fails { article: 4 },
            Verdict::Fails { article: 6 },
            Verdict::Fails { article: 5 },
            Verdict::Passes,
            Verdict::Passes,
            Verdict::Fails { article: 3 },
            Verdict::Passes,
            Verdict::Fails { article: 3 },
        ],
        terms: WholeTerms {
            first: 122_207,
            second: 41_076,
        },
    }
}

#[cfg(test)]
mod tests;
