// The links beside a scan over the classes of all numbers.
ghost use Rattle.std.specs.Prelude.{◌≡◌, length};
ghost use Rattle.linked_classes.specs.Classes.{class_of};

use linked_classes::{LinkedClasses, Member, NumberedVec};
use std::alloc::{AllocError, Global};

/// Numbers that are put into classes, and some that then leave.
struct Row {
    put: &'static [(u32, u32)],
    left: &'static [u32],
}

/// One class; classes that take turns; numbers that are passed over; a class of one; numbers that leave from the ends, from the
/// middle, twice, or that were in no class.
const ROWS: &[Row] = &[
    Row {
        put: &[(0, 0), (1, 0), (2, 0), (3, 0), (4, 0)],
        left: &[2, 0, 4, 1, 3],
    },
    Row {
        put: &[(0, 1), (1, 0), (2, 1), (3, 2), (4, 1), (5, 0), (6, 1)],
        left: &[4, 5, 0, 6, 3],
    },
    Row {
        put: &[(3, 0), (7, 1), (8, 0), (20, 0), (21, 1), (40, 3)],
        left: &[8, 9, 8, 21, 40, 41, 3, 20],
    },
    Row {
        put: &[(5, 5)],
        left: &[4, 5, 6],
    },
];

fn class_at(classes: &[Option<u32>], number: u32) -> Option<u32> {
    match classes.get(number as usize) {
        Some(class) => *class,
        None => None,
    }
}

/// The first number of a class from one on and below another.
fn first_in(classes: &[Option<u32>], class: u32, from: u32, to: u32) -> Option<u32> {
    for number in from..to {
        if class_at(classes, number) == Some(class) {
            return Some(number);
        }
    }
    None
}

fn last_in(classes: &[Option<u32>], class: u32, from: u32, to: u32) -> Option<u32> {
    let mut found = None;
    for number in from..to {
        if class_at(classes, number) == Some(class) {
            found = Some(number);
        }
    }
    found
}

/// Numbers beyond these are in no class, and classes neither.
const NUMBERS: u32 = 50;

const CLASSES: u32 = 8;

/// Where a number stands, as a scan finds it.
fn stands(classes: &[Option<u32>], number: u32) -> Option<Member> {
    match class_at(classes, number) {
        Some(class) => Some(Member {
            class,
            before: last_in(classes, class, 0, number),
            next: first_in(classes, class, number.saturating_add(1), NUMBERS),
        }),
        None => None,
    }
}

/// Whether each call answers what a scan finds.
fn agrees(links: &LinkedClasses, classes: &[Option<u32>]) -> bool {
    for number in 0..NUMBERS {
        let wanted = stands(classes, number);
        let told = match wanted {
            Some(member) => {
                links.class(number) == Some(member.class)
                    && links.before(number) == member.before
                    && links.next(number) == member.next
            }
            None => {
                links.class(number).is_none()
                    && links.before(number).is_none()
                    && links.next(number).is_none()
            }
        };
        if !told || links.member(number) != wanted {
            return false;
        }
    }
    for class in 0..CLASSES {
        if links.first(class) != first_in(classes, class, 0, NUMBERS)
            || links.last(class) != last_in(classes, class, 0, NUMBERS)
        {
            return false;
        }
    }
    links.end() == classes.len()
}

fn write(classes: &mut Vec<Option<u32>>, number: u32, class: Option<u32>) {
    if (number as usize) < classes.len() {
        classes[number as usize] = class;
    }
}

/// Takes the numbers out one after another and puts them back in the converse order, and tells whether all calls agreed.
fn there_and_back(
    links: &mut LinkedClasses,
    classes: &mut Vec<Option<u32>>,
    numbers: &[u32],
) -> bool
    ensures classes { class_of links.new ≡ class_of links.old }
    ensures end { length links.new.classes ≡ length links.old.classes }
    ensures width { links.new.width ≡ links.old.width }
    ensures spare { links.new.spare ≡ links.old.spare }
{
    let [number, rest @ ..] = numbers else {
        return agrees(links, classes.as_slice());
    };
    let Some(member) = links.remove(*number) else {
        return there_and_back(links, classes, rest);
    };
    write(classes, *number, None);
    let left = agrees(links, classes.as_slice());
    let inner = there_and_back(links, classes, rest);
    links.restore(*number, member);
    write(classes, *number, Some(member.class));
    left && inner && agrees(links, classes.as_slice())
}

/// Whether the calls agree all along a row.
fn follows(alloc: Global, row: &Row) -> Result<bool, AllocError> {
    let mut links = LinkedClasses::new(alloc);
    let mut classes = Vec::new(alloc);
    let mut agreed = agrees(&links, classes.as_slice());
    for (number, class) in row.put {
        links.reserve(*number as usize + 1, 1, *class as usize + 1)?;
        for _ in classes.len()..*number as usize {
            classes.push(None)?;
        }
        classes.push(Some(*class))?;
        if (*number as usize) < links.end() {
            return Ok(false);
        }
        links.push(*number, *class);
        agreed = agreed && agrees(&links, classes.as_slice());
    }
    agreed = agreed && there_and_back(&mut links, &mut classes, row.left);
    for number in row.left {
        let wanted = stands(classes.as_slice(), *number);
        agreed = agreed && links.remove(*number) == wanted;
        write(&mut classes, *number, None);
        agreed = agreed && agrees(&links, classes.as_slice());
    }
    Ok(agreed)
}

#[test]
fn links_follow_a_scan(rt: HostRuntime) -> Result<(), AllocError> {
    for row in ROWS {
        assert!(rt; follows(rt.alloc(), row)?);
    }
    Ok(())
}

/// How many values come first: more than four blocks of numbers.
const VALUES: u32 = 2500;

/// Places from which values go: the last, the first, one in the middle again and again, those about the ends of a block.
const GONE: &[usize] = &[
    2499, 0, 1023, 1023, 1022, 2046, 0, 2000, 511, 511, 510, 1, 1700,
];

/// Whether each value stands where it does in a list.
fn stand_alike(listed: &NumberedVec<u32>, values: &[u32]) -> bool {
    for place in 0..values.len() {
        if place >= listed.len() || *listed.get(place) != values[place] {
            return false;
        }
    }
    listed.len() == values.len()
}

fn add(listed: &mut NumberedVec<u32>, values: &mut Vec<u32>, value: u32) -> Result<(), AllocError> {
    listed.reserve()?;
    values.push(value)?;
    listed.push(value);
    Ok(())
}

/// Whether the same value goes from a place of both.
fn go_alike(listed: &mut NumberedVec<u32>, values: &mut Vec<u32>, place: usize) -> bool {
    place < listed.len() && place < values.len() && listed.remove(place) == values.remove(place)
}

#[test]
fn values_stand_as_in_a_list(rt: HostRuntime) -> Result<(), AllocError> {
    let mut listed = NumberedVec::new(rt.alloc());
    let mut values = Vec::new(rt.alloc());
    assert!(rt; listed.is_empty());
    for value in 0..VALUES {
        add(&mut listed, &mut values, value)?;
    }
    for place in GONE {
        assert!(rt; go_alike(&mut listed, &mut values, *place));
        assert!(rt; stand_alike(&listed, values.as_slice()));
        add(&mut listed, &mut values, 7)?;
    }
    assert!(rt; stand_alike(&listed, values.as_slice()));
    for _ in 0..values.len() {
        assert!(rt; go_alike(&mut listed, &mut values, 0));
    }
    assert!(rt; listed.is_empty());
    add(&mut listed, &mut values, 8)?;
    assert!(rt; stand_alike(&listed, values.as_slice()));
    Ok(())
}
