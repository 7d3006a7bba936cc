ghost use Rattle.judging.specs.Answers.{articles_of, findings, item_judged, answer_to};
ghost use Rattle.judge_lines.specs.declared.fault.LineFault.{LineFault};
ghost use Rattle.judging.specs.declared.answer.NoVerdict.TheVariants.{NoJudgement};
ghost use Rattle.std.specs.Prelude.{◌≡◌, ◌≤◌};

use super::{Answer, Judged};
use bearings::{Bearing, Pad};
use judge_lines::{Item, read_judgement};
use pads::PadBook;
use rulebook::{Case, Refusal, RuleBook, Verdict};
use section14::Section14;

// A book of N articles, which can be asked of each whether it holds.
trait ListsArticles<const N: usize>: RuleBook {
    fn article_list(&self, item: &Self::Item, case: &Case) -> Result<[bool; N], Refusal>
        ensures { result ≡ articles_of (Self.rules self.now) item.now case.now };
}

impl ListsArticles<6> for Section14 {
    fn article_list(&self, item: &Bearing, case: &Case) -> Result<[bool; 6], Refusal> {
        section14::article_list(item, case)
    }
}

impl ListsArticles<4> for PadBook {
    fn article_list(&self, item: &Pad, case: &Case) -> Result<[bool; 4], Refusal> {
        pads::article_list(item, case)
    }
}

fn judge<const N: usize, B: ListsArticles<N>>(
    book: &B,
    item: &B::Item,
    case: &Case,
) -> Result<(Verdict, [bool; N]), Refusal>
    ensures { result ≡ findings (B.rules book.now) item.now case.now }
{
    Ok((book.verdict(item, case)?, book.article_list(item, case)?))
}

fn judge_item(item: &Item, case: &Case) -> Result<Judged, Refusal>
    ensures { result ≡ item_judged item.now case.now }
{
    match item {
        Item::Bearing(bearing) => {
            let (verdict, articles) = judge(&Section14, bearing, case)?;
            Ok(Judged::Bearing(verdict, articles))
        }
        Item::Pad(pad) => {
            let (verdict, articles) = judge(&PadBook, pad, case)?;
            Ok(Judged::Pad(verdict, articles))
        }
    }
}

pub fn answer_to(line: &[u8]) -> Answer
    ensures is { result ≡ answer_to line.now }
    ensures few { (fault : LineFault) → result ≡ Err (NoJudgement fault) → fault.word ≤ 17 }
{
    let judgement = read_judgement(line)?;
    Ok(judge_item(&judgement.item, &judgement.case)?)
}
