//! Plans, beside those of a plain program that marks and filters, and beside some that were worked out by hand.
use attr_values::{Key, KeyPart, KeyText};
use depends::{first_dependent, plan};
use item_store::AccessMode;
use json_tree::Text;
use saved_steps::{Access, Fact, Kind, Saved, StepRecord};
use std::alloc::{AllocError, Global};
use std::test::Fail;
use step_names::StepName;

/// What a step is, and the key that it touches, if any.
#[derive(Clone, Copy)]
enum Act {
    Start,
    Plain,
    Fork,
    Join,
    Terminate,
    Get(&'static str),
    Put(&'static str),
}

/// A step: its thread, its number, and what it is.
type Row = (&'static str, u32, Act);

/// Three executions that read and write one key.
const SHARED_KEY: &[Row] = &[
    ("a", 0, Act::Start),
    ("b", 0, Act::Start),
    ("a-b", 0, Act::Start),
    ("b", 1, Act::Get("k")),
    ("a", 1, Act::Put("k")),
    ("b", 2, Act::Get("k")),
    ("a-b", 1, Act::Get("k")),
    ("b", 3, Act::Put("l")),
    ("a", 2, Act::Plain),
    ("a-b", 2, Act::Put("k")),
    ("a", 3, Act::Get("l")),
];

/// A branch fails while threads below the other one still run, and another execution reads what these wrote.
const TERMINATED: &[Row] = &[
    ("e", 0, Act::Start),
    ("e", 1, Act::Fork),
    ("e/1.0", 1, Act::Fork),
    ("e/1.0/1.0", 1, Act::Put("k")),
    ("e/1.0/1.1", 1, Act::Plain),
    ("f", 0, Act::Start),
    ("f", 1, Act::Get("k")),
    ("e/1.1", 1, Act::Plain),
    ("e", 2, Act::Terminate),
    ("f", 2, Act::Plain),
    ("e", 3, Act::Fork),
    ("e/3.1", 1, Act::Plain),
];

/// Forks in forks, and numbers of which one begins with the other's digit.
const NESTED: &[Row] = &[
    ("g", 0, Act::Start),
    ("g", 1, Act::Fork),
    ("g/1.0", 1, Act::Fork),
    ("g/1.1", 1, Act::Plain),
    ("g/1.0/1.0", 1, Act::Plain),
    ("g/1.0/1.1", 1, Act::Get("k")),
    ("g/1.0", 2, Act::Join),
    ("g/1.0", 3, Act::Plain),
    ("g/1.1", 2, Act::Put("k")),
    ("g/1.10", 1, Act::Plain),
    ("g", 2, Act::Join),
    ("g", 3, Act::Plain),
];

// ---- records

fn key(alloc: Global, text: &str) -> Result<Key, Fail> {
    match KeyText::new(Text::new(alloc, text)?) {
        Some(text) => Ok(Key {
            partition: KeyPart::S(text),
            sort: None,
        }),
        None => Err("an empty key".into()),
    }
}

fn kind(act: Act) -> Kind {
    match act {
        Act::Start => Kind::Start,
        Act::Plain => Kind::Plain,
        Act::Fork => Kind::Fork,
        Act::Join => Kind::Join,
        Act::Terminate => Kind::Terminate,
        Act::Get(_) | Act::Put(_) => Kind::Call,
    }
}

fn touched(act: Act) -> Option<(&'static str, AccessMode)> {
    match act {
        Act::Get(key) => Some((key, AccessMode::Read)),
        Act::Put(key) => Some((key, AccessMode::Write)),
        _ => None,
    }
}

fn name(alloc: Global, row: &Row) -> Result<StepName, Fail> {
    let (thread, no, _act) = *row;
    let text = format!(in alloc; "{thread}#{no}")?;
    Ok(StepName::read(alloc, text.as_str())?)
}

fn access(alloc: Global, act: Act) -> Result<Option<Access>, Fail> {
    match touched(act) {
        Some((text, mode)) => Ok(Some(Access {
            key: key(alloc, text)?,
            mode,
        })),
        None => Ok(None),
    }
}

fn record(alloc: Global, row: &Row) -> Result<StepRecord, Fail> {
    let name = name(alloc, row)?;
    match access(alloc, row.2) {
        Ok(access) => Ok(StepRecord {
            fact: Fact {
                name,
                kind: kind(row.2),
                access,
                bound: 0,
            },
            saved: Saved::Started,
        }),
        Err(fail) => {
            drop(name);
            Err(fail)
        }
    }
}

fn records(alloc: Global, rows: &[Row]) -> Result<Vec<StepRecord>, Fail> {
    let mut made = Vec::new(alloc);
    for row in rows {
        made.push(record(alloc, row)?)?;
    }
    Ok(made)
}

// ---- the plain program

/// Whether a text goes on from a thread by a branch of its step of this number.
fn lies_under(alloc: Global, text: &str, thread: &str, no: u32) -> Result<bool, AllocError> {
    let front = format!(in alloc; "{thread}/{no}.")?;
    Ok(text.starts_with(front.as_str()))
}

fn of_execution(alloc: Global, text: &str, exec: &str) -> Result<bool, AllocError> {
    let front = format!(in alloc; "{exec}/")?;
    Ok(text == exec || text.starts_with(front.as_str()))
}

fn conflict(earlier: Act, later: Act) -> bool {
    match (earlier, later) {
        (Act::Put(key), Act::Put(other)) => key == other,
        (Act::Put(key), Act::Get(other)) => key == other,
        (Act::Get(key), Act::Put(other)) => key == other,
        _ => false,
    }
}

fn plain_depends(alloc: Global, earlier: &Row, later: &Row) -> Result<bool, AllocError> {
    let (first, no, act) = *earlier;
    let (second, later_no, later_act) = *later;
    let made = match act {
        Act::Start => of_execution(alloc, second, first)?,
        Act::Fork => lies_under(alloc, second, first, no)?,
        _ => false,
    };
    let closed = match later_act {
        Act::Join | Act::Terminate => lies_under(alloc, first, second, later_no.saturating_sub(1))?,
        _ => false,
    };
    Ok(first == second || made || closed || conflict(act, later_act))
}

/// Whether the row at a place depends directly on an earlier one of some places.
fn is_needed(alloc: Global, rows: &[Row], places: &[usize], at: usize) -> Result<bool, AllocError> {
    for (i, earlier) in rows.iter().enumerate() {
        for (j, later) in rows.iter().enumerate() {
            let pair = i < j && j == at && places.contains(&i);
            if pair && plain_depends(alloc, earlier, later)? {
                return Ok(true);
            }
        }
    }
    Ok(false)
}

/// The places of a row and all that depend on it, latest first: rows are marked until no more are.
fn plain_plan(alloc: Global, rows: &[Row], at: usize) -> Result<Vec<usize>, AllocError> {
    let mut marked = Vec::new(alloc);
    marked.push(at)?;
    for _ in rows {
        for (place, _) in rows.iter().enumerate() {
            let needed = is_needed(alloc, rows, marked.as_slice(), place)?;
            if needed && !marked.contains(&place) {
                marked.push(place)?;
            }
        }
    }
    let mut sorted = Vec::new(alloc);
    for (place, _) in rows.iter().enumerate() {
        if marked.contains(&place) {
            sorted.push(place)?;
        }
    }
    sorted.reverse();
    Ok(sorted)
}

fn plain_first(alloc: Global, rows: &[Row], at: usize) -> Result<Option<usize>, AllocError> {
    for (place, _) in rows.iter().enumerate() {
        if is_needed(alloc, rows, &[at], place)? {
            return Ok(Some(place));
        }
    }
    Ok(None)
}

// ---- tests

/// Whether the calls answer so at a place.
fn answers(
    alloc: Global,
    made: &[StepRecord],
    at: usize,
    first: Option<usize>,
    places: &[usize],
) -> Result<bool, AllocError> {
    if at >= made.len() || first_dependent(made, at) != first {
        return Ok(false);
    }
    let found = plan(alloc, made, at)?;
    let same = found.places() == places;
    let given = found.into_vec();
    Ok(same && given.as_slice() == places)
}

/// Whether the calls answer at a place as the plain program does.
fn answers_plainly(
    alloc: Global,
    rows: &[Row],
    made: &[StepRecord],
    at: usize,
) -> Result<bool, AllocError> {
    let first = plain_first(alloc, rows, at)?;
    let places = plain_plan(alloc, rows, at)?;
    answers(alloc, made, at, first, places.as_slice())
}

fn all_answer_plainly(
    alloc: Global,
    rows: &[Row],
    made: &[StepRecord],
) -> Result<bool, AllocError> {
    for at in 0..rows.len() {
        if !answers_plainly(alloc, rows, made, at)? {
            return Ok(false);
        }
    }
    Ok(true)
}

/// Whether all calls answer at each place of a history as the plain program does.
fn agrees(alloc: Global, rows: &[Row]) -> Result<bool, Fail> {
    let made = records(alloc, rows)?;
    Ok(all_answer_plainly(alloc, rows, made.as_slice())?)
}

#[test]
fn plans_agree_with_the_plain_program(rt: HostRuntime) -> Result<(), Fail> {
    for rows in [SHARED_KEY, TERMINATED, NESTED] {
        assert!(rt; agrees(rt.alloc(), rows)?);
    }
    Ok(())
}

/// A history, a place in it, the first dependent, and the plan, by hand.
type ByHand = (&'static [Row], usize, Option<usize>, &'static [usize]);

const BY_HAND: &[ByHand] = &[
    (SHARED_KEY, 3, Some(4), &[10, 9, 8, 7, 6, 5, 4, 3]),
    (SHARED_KEY, 5, Some(7), &[10, 9, 7, 5]),
    (SHARED_KEY, 6, Some(9), &[9, 6]),
    (SHARED_KEY, 8, Some(10), &[10, 8]),
    (SHARED_KEY, 10, None, &[10]),
    (TERMINATED, 3, Some(6), &[11, 10, 9, 8, 6, 3]),
    (TERMINATED, 4, Some(8), &[11, 10, 8, 4]),
    (TERMINATED, 5, Some(6), &[9, 6, 5]),
    (TERMINATED, 7, Some(8), &[11, 10, 8, 7]),
    (TERMINATED, 8, Some(10), &[11, 10, 8]),
    (NESTED, 1, Some(2), &[11, 10, 9, 8, 7, 6, 5, 4, 3, 2, 1]),
    (NESTED, 4, Some(6), &[11, 10, 7, 6, 4]),
    (NESTED, 5, Some(6), &[11, 10, 8, 7, 6, 5]),
    (NESTED, 9, Some(10), &[11, 10, 9]),
];

fn is_by_hand(alloc: Global, row: &ByHand) -> Result<bool, Fail> {
    let (rows, at, first, places) = *row;
    let made = records(alloc, rows)?;
    Ok(answers(alloc, made.as_slice(), at, first, places)?)
}

/// For tools/refused-growths.sh too: want of memory ends it, and nothing else is answered in a plan's place.
#[test]
fn histories_by_hand(rt: HostRuntime) -> Result<(), Fail> {
    for row in BY_HAND {
        assert!(rt; is_by_hand(rt.alloc(), row)?, "at {}", row.1);
    }
    Ok(())
}
