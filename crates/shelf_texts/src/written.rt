ghost use Rattle.shelf_texts.specs.Texts.{lamination_text, item_text, answer_text, opened_text};
ghost use Rattle.std.specs.Prelude.{Some};

use super::AsItem;
use bearings::{Bearing, Pad, Plan};
use judge_lines::Item;
use shelf::{Answer, Granted, Place, Places};
use std::fmt;

// The fields of a bearing behind those of its plan.
#[derive(Clone, Copy)]
struct LaminationText(Bearing);

impl fmt::Display for LaminationText {
    ghost output = { λ text. Some (lamination_text text.0) };

    fn fmt<W: fmt::Write>(&self, f: &mut fmt::Formatter<W>) -> fmt::Result {
        let Bearing {
            plan: _,
            layers,
            thickness,
            cover,
            laminate,
            modulus,
            strength,
        } = self.0;
        write!(
            f,
            "{layers} {thickness} {cover} {laminate} {modulus} {strength}"
        )
    }
}

// An item as its line writes it.
#[derive(Clone, Copy)]
struct ItemText(Item);

impl fmt::Display for ItemText {
    ghost output = { λ text. Some (item_text text.0) };

    fn fmt<W: fmt::Write>(&self, f: &mut fmt::Formatter<W>) -> fmt::Result {
        match self.0 {
            Item::Bearing(bearing) => {
                let lamination = LaminationText(bearing);
                match bearing.plan {
                    Plan::Rectangle { length, width } => {
                        write!(f, "R {length} {width} {lamination}")
                    }
                    Plan::Circle { diameter } => write!(f, "C {diameter} {lamination}"),
                }
            }
            Item::Pad(
                Pad {
                    length,
                    width,
                    thickness,
                    modulus,
                },
            ) => write!(f, "P {length} {width} {thickness} {modulus}"),
        }
    }
}

// The answer to a call, as it is printed.
#[derive(Clone, Copy)]
pub struct AnswerText<I>(pub Answer<I>);

impl<I: AsItem> fmt::Display for AnswerText<I> {
    ghost output = { λ text. Some (answer_text I.AsItem.written text.0) };

    fn fmt<W: fmt::Write>(&self, f: &mut fmt::Formatter<W>) -> fmt::Result {
        match self.0 {
            Ok(Granted::Done) => write!(f, "done"),
            Ok(Granted::Picked { number, place }) => {
                write!(f, "slip: shelf {number}, place {place}")
            }
            Ok(Granted::Shown(Place { item, on_hand, out })) => {
                let item = ItemText(item.as_item());
                write!(f, "place: {item}, on hand {on_hand}, out {out}")
            }
            Ok(Granted::Counted { number, count }) => {
                write!(f, "places: {count}, shelf {number}")
            }
            Err(why) => write!(f, "{why}"),
        }
    }
}

// What is printed when a shelf was opened.
#[derive(Clone, Copy)]
pub struct OpenedText(pub Places);

impl fmt::Display for OpenedText {
    ghost output = { λ text. Some (opened_text text.0) };

    fn fmt<W: fmt::Write>(&self, f: &mut fmt::Formatter<W>) -> fmt::Result {
        let Places { count, number } = self.0;
        write!(f, "opened: shelf {number}, {count} places")
    }
}
