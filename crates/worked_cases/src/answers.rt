use buckling::WholeTerms;
use rulebook::Verdict;

// The verdicts of the worked cases 1 to 6 and 8 to 13, and the whole terms of case 7.
#[derive(Clone, Copy)]
pub struct WorkedAnswers {
    pub verdicts: [Verdict; 12],
    pub terms: WholeTerms,
}
