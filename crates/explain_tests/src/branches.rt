//! Joins and terminates that fail.
use crate::asked::{define, frame_of, machine_of, text_of};
use asl_forward::{Fault, Origin};
use explain::{explain_branch, explain_join};
use json_tree::{JsonList, Text};
use std::alloc::{AllocError, Global};
use std::test::Fail;

const PARALLEL: &str =
    r#"{"Type":"Parallel","Branches":[],"ResultSelector":{"x.$":"$[0].n"},"End":true}"#;

const CATCHING: &str =
    r#"{"Type":"Parallel","Branches":[],"Catch":[{"ErrorEquals":["States.BranchFailed"],"ResultPath":"$[1]","Next":"T"}],"End":true}"#;

fn joined(alloc: Global, state: &str) -> Result<String, Fail> {
    let value = define(alloc, state)?;
    let machine = machine_of(alloc, &value)?;
    let frame = frame_of(alloc, &machine, "{}")?;
    let why = explain_join(alloc, &machine, &frame, &value, JsonList::new(alloc))?;
    text_of(alloc, &why)
}

fn fault(alloc: Global) -> Result<Fault, AllocError> {
    Ok(Fault {
        error: Text::new(alloc, "Bad")?,
        cause: Text::new(alloc, "why")?,
        origin: Origin::Other,
    })
}

fn terminated(alloc: Global, state: &str) -> Result<String, Fail> {
    let value = define(alloc, state)?;
    let machine = machine_of(alloc, &value)?;
    let frame = frame_of(alloc, &machine, "{}")?;
    let fault = fault(alloc)?;
    let why = explain_branch(alloc, &machine, &frame, &value, 2, &fault)?;
    text_of(alloc, &why)
}

#[test]
fn joins_and_terminates_are_explained(rt: HostRuntime) -> Result<(), Fail> {
    let said = joined(rt.alloc(), PARALLEL)?;
    assert_eq!(rt;
        said.as_str(),
        r#"States.ParameterPathFailure ["ResultSelector","x.$"] picks nothing $[0].n []"#
    );
    let said = terminated(rt.alloc(), PARALLEL)?;
    assert_eq!(rt; said.as_str(), "Bad [] branch 2");
    let said = terminated(rt.alloc(), CATCHING)?;
    assert_eq!(rt;
        said.as_str(),
        r#"States.ResultPathMatchFailure ["Catch",0,"ResultPath"] can't place $[1] {}"#
    );
    Ok(())
}
