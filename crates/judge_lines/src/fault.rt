// Why a line cannot be read: the first word at fault, counted from 1, and what is wrong with it.
#[derive(Clone, Copy, PartialEq, Eq, Debug)]
pub struct LineFault {
    pub word: usize,
    pub what: WordFault,
}

#[derive(Clone, Copy, PartialEq, Eq, Debug)]
pub enum WordFault {
    // the line ends before it
    Missing,
    // it stands first, and is none of the words that a line begins with
    NoKind,
    // it has a byte that is no decimal digit
    NotANumber,
    // its field can't hold the number
    TooLarge,
    // the line is complete before it
    OneTooMany,
}
