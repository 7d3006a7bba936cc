#![tactic(auto)]

// The answers to the judgements that an input asks for, a line of text for each of its lines.

mod answer;
mod answering;
mod lines;
mod texts;

pub use answer::{Answer, Judged, NoVerdict};
pub use answering::answer_to;
pub use lines::answers;

#[cfg(test)]
mod tests {
    use super::*;
    use std::test::Fail;

    #[test]
    fn answers_each_line(rt: HostRuntime) -> Result<(), Fail> {
        let input =
            b"R 20 40 5 8 4 8 100 36 100000 88000 150 155 0 1 1\n\nP 7 20 8 100 1 1 0 0 0 1 1";
        let text = answers(rt.alloc(), input)?;
        assert_eq!(rt;
            text.as_str(),
            "verdict 0: compression held, shear held, uplift held, rotation held, buckling held, steel held\nno judgement: word 1 is missing\nrefused 2: field 1 of the item is outside its limits\n"
        );
        Ok(())
    }
}
