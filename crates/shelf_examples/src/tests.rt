use super::*;
use bearings::{Bearing, Pad, Plan};
use history::serve;
use list_shelf::{ListShelf, Slot};
use pads::PadBook;
use range_shelf::RangeShelf;
use rulebook::{Case, Refusal};
use section14::Section14;
use shelf::{Granted, Place, Request, Shelf};
use std::test::Fail;

fn bearing(plan: Plan) -> Bearing {
    Bearing {
        plan,
        layers: 5,
        thickness: 8,
        cover: 4,
        laminate: 8,
        modulus: 100,
        strength: 36,
    }
}

fn case(dead: u32, live: u32, movement: u16) -> Case {
    Case {
        dead,
        live,
        movement,
        rotation_x: 0,
        rotation_z: 0,
        deck: 1,
        shear: 1,
    }
}

// Both bearings are 240 high; the rectangle has the smaller plan number.
#[test]
fn picks_bearings(rt: HostRuntime) -> Result<(), Fail> {
    let mut slots = [
        Slot::new(bearing(Plan::Circle { diameter: 32 })),
        Slot::new(bearing(Plan::Rectangle {
            length: 20,
            width: 40,
        })),
    ];
    ListShelf::check(&Section14, 7, &slots)?;
    let mut shelf = ListShelf::open(&Section14, 7, &mut slots);
    let seat = case(80_000, 40_000, 100);
    let calls = [
        Request::Receive { place: 0, count: 1 },
        Request::Receive { place: 1, count: 1 },
        Request::Pick(seat),
        Request::Pick(seat),
        Request::Pick(seat),
        Request::GiveBack {
            number: 7,
            place: 1,
        },
        Request::GiveBack {
            number: 8,
            place: 0,
        },
        Request::Order {
            number: 7,
            place: 1,
        },
        Request::Place { place: 1 },
    ];
    let mut answers = Vec::new(rt.alloc());
    serve(&Section14, &mut shelf, &calls, &mut answers)?;
    let expected = [
        Ok(Granted::Done),
        Ok(Granted::Done),
        Ok(Granted::Picked {
            number: 7,
            place: 1,
        }),
        Ok(Granted::Picked {
            number: 7,
            place: 0,
        }),
        Err(Refusal::NoneOnHand),
        Ok(Granted::Done),
        Err(Refusal::OtherShelf),
        Err(Refusal::NoneOut),
        Ok(Granted::Shown(Place {
            item: bearing(Plan::Rectangle {
                length: 20,
                width: 40,
            }),
            on_hand: 1,
            out: 0,
        })),
    ];
    assert_eq!(rt; answers.as_slice(), expected.as_slice());
    Ok(())
}

// With a movement of an inch, one or two layers are too low.
#[test]
fn picks_from_a_range(rt: HostRuntime) -> Result<(), Fail> {
    let widest = bearing(Plan::Rectangle {
        length: 20,
        width: 40,
    });
    RangeShelf::check(8, &widest)?;
    let mut shelf = RangeShelf::open(8, widest);
    for place in 0..5 {
        shelf.receive(place, 1)?;
    }
    let seat = case(80_000, 40_000, 100);
    assert_eq!(rt; pick_and_order(&Section14, &mut shelf, &seat), Ok(2));
    assert_eq!(rt; pick_and_order(&Section14, &mut shelf, &seat), Ok(3));
    assert_eq!(rt; pick_and_order(&Section14, &mut shelf, &seat), Ok(4));
    assert_eq!(rt;
        pick_and_order(&Section14, &mut shelf, &case(80_000, 40_000, 25)),
        Ok(0)
    );
    Ok(())
}

#[test]
fn picks_pads(rt: HostRuntime) -> Result<(), Fail> {
    let pad = Pad {
        length: 20,
        width: 40,
        thickness: 8,
        modulus: 100,
    };
    let mut slots = [
        Slot::new(Pad {
            thickness: 9,
            ..pad
        }),
        Slot::new(pad),
    ];
    ListShelf::check(&PadBook, 3, &slots)?;
    let mut shelf = ListShelf::open(&PadBook, 3, &mut slots);
    shelf.receive(0, 60_000)?;
    shelf.receive(1, 1)?;
    let seat = case(60_000, 40_000, 25);
    assert_eq!(rt; pick_and_return(&PadBook, &mut shelf, &seat), Ok(1));
    assert_eq!(rt; pick_and_order(&PadBook, &mut shelf, &seat), Ok(1));
    assert_eq!(rt;
        pick_and_order(&PadBook, &mut shelf, &case(60_000, 40_000, 26)),
        Ok(0)
    );
    assert_eq!(rt;
        pick_and_order(&PadBook, &mut shelf, &case(2_000_000, 1, 0)),
        Err(Refusal::Loads)
    );
    assert_eq!(rt; shelf.receive(0, 2), Err(Refusal::Receipt));
    Ok(())
}

// The first block that passes is not the lowest, and the third is as low as the fourth with the same tag.
#[test]
fn picks_blocks(rt: HostRuntime) -> Result<(), Fail> {
    let mut slots = [
        Slot::new(Block { height: 9, tag: 1 }),
        Slot::new(Block { height: 8, tag: 2 }),
        Slot::new(Block { height: 8, tag: 1 }),
        Slot::new(Block { height: 8, tag: 1 }),
        Slot::new(Block { height: 7, tag: 1 }),
    ];
    ListShelf::check(&BlockBook, 1, &slots)?;
    let mut shelf = ListShelf::open(&BlockBook, 1, &mut slots);
    for place in 0..5 {
        shelf.receive(place, 1)?;
    }
    let load = case(8_000, 0, 0);
    assert_eq!(rt; pick_and_order(&BlockBook, &mut shelf, &load), Ok(2));
    assert_eq!(rt; pick_and_order(&BlockBook, &mut shelf, &load), Ok(3));
    assert_eq!(rt; pick_and_order(&BlockBook, &mut shelf, &load), Ok(1));
    assert_eq!(rt; pick_and_order(&BlockBook, &mut shelf, &load), Ok(0));
    assert_eq!(rt;
        pick_and_order(&BlockBook, &mut shelf, &load),
        Err(Refusal::NoneOnHand)
    );
    Ok(())
}
