// How many records a plan looks at.
use attr_values::{Key, KeyPart, KeyText};
use item_store::AccessMode;
use json_tree::Text;
use saved_steps::{Access, Fact, Kind, Saved, StepRecord};
use std::alloc::{AllocError, Global};
use std::test::Fail;
use step_index::{Looks, StepRecords};
use step_names::StepName;

/// How many executions read what one wrote.
const READERS: usize = 1000;

fn access(alloc: Global, mode: AccessMode) -> Result<Access, Fail> {
    match KeyText::new(Text::new(alloc, "k")?) {
        Some(text) => Ok(Access {
            key: Key {
                partition: KeyPart::S(text),
                sort: None,
            },
            mode,
        }),
        None => Err("an empty key".into()),
    }
}

fn start(name: StepName) -> StepRecord {
    StepRecord {
        fact: Fact {
            name,
            kind: Kind::Start,
            access: None,
            bound: 0,
        },
        saved: Saved::Started,
    }
}

fn call(name: StepName, access: Access) -> StepRecord {
    StepRecord {
        fact: Fact {
            name,
            kind: Kind::Call,
            access: Some(access),
            bound: 0,
        },
        saved: Saved::Started,
    }
}

fn add_start(alloc: Global, records: &mut StepRecords, name: &str) -> Result<(), Fail> {
    records.reserve()?;
    let name = StepName::read(alloc, name)?;
    records.push(start(name));
    Ok(())
}

fn add_call(
    alloc: Global,
    records: &mut StepRecords,
    name: &str,
    mode: AccessMode,
) -> Result<(), Fail> {
    records.reserve()?;
    let access = access(alloc, mode)?;
    match StepName::read(alloc, name) {
        Ok(name) => {
            records.push(call(name, access));
            Ok(())
        }
        Err(fault) => {
            drop(access);
            Err(fault.into())
        }
    }
}

/// A write, and executions that read what it wrote.
fn add_all(alloc: Global, records: &mut StepRecords) -> Result<(), Fail> {
    add_call(alloc, records, "b#1", AccessMode::Write)?;
    for reader in 0..READERS {
        let name = format!(in alloc; "c{reader}#0")?;
        add_start(alloc, records, name.as_str())?;
        let name = format!(in alloc; "c{reader}#1")?;
        add_call(alloc, records, name.as_str(), AccessMode::Read)?;
    }
    Ok(())
}

/// How many steps a plan has, and how many records it looks at.
fn measured(
    alloc: Global,
    records: &StepRecords,
    at: usize,
) -> Result<Option<(usize, u64)>, AllocError> {
    let count = records.len();
    if at >= count {
        return Ok(None);
    }
    let mut looks = Looks::new();
    let plan = records.plan_with_looks(alloc, at, &mut looks)?;
    Ok(Some((plan.places().len(), looks.count())))
}

/// Whether so many records are planned with at most as many looks as there are records.
fn is_planned(alloc: Global, records: &StepRecords) -> Result<bool, AllocError> {
    match measured(alloc, records, 0)? {
        Some((steps, looks)) => Ok(steps == READERS + 1 && looks <= 2 * READERS as u64 + 1),
        None => Ok(false),
    }
}

#[test]
fn readers_are_looked_at_once(rt: HostRuntime) -> Result<(), Fail> {
    let mut records = StepRecords::new(rt.alloc());
    let added = add_all(rt.alloc(), &mut records);
    let planned = is_planned(rt.alloc(), &records);
    drop(records);
    added?;
    assert!(rt; planned?);
    Ok(())
}

/// Whether a start that has one consequence, among all these records, is planned with a few looks: at both, and at steps whose names
/// have one of their hashes.
fn is_found_among_others(alloc: Global, records: &StepRecords) -> Result<bool, AllocError> {
    match measured(alloc, records, READERS - 1)? {
        Some((steps, looks)) => Ok(steps == 2 && looks <= 10),
        None => Ok(false),
    }
}

#[test]
fn steps_of_others_are_passed_over(rt: HostRuntime) -> Result<(), Fail> {
    let mut records = StepRecords::new(rt.alloc());
    let added = add_all(rt.alloc(), &mut records);
    let found = is_found_among_others(rt.alloc(), &records);
    drop(records);
    added?;
    assert!(rt; found?);
    Ok(())
}
