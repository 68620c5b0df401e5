//! A step and its consequences are held until they are taken back, while the rest goes on.
use crate::acts::{Act, Row, TWO_BRANCHES, expect_over};
use std::test::Fail;

const HELD: &[Row] = &[
    (Act::Define("q", TWO_BRANCHES), "ok"),
    (Act::Start("e", "q", "{}"), "ok"),
    (Act::Step("e"), "ok"),
    (Act::Step("e/1.0"), "ok"),
    (Act::Step("e/1.1"), "ok"),
    (Act::Left, "0"),
    (Act::Hold("e/1.0#1"), "ok"),
    (Act::Left, "e/1.0#1 e/1.0#1 1"),
    (Act::Step("e/1.0"), "held by e/1.0#1"),
    (Act::Step("e/1.1"), "ok"),
    (Act::Hold("e/1.1#1"), "held by e/1.0#1"),
    (Act::Hold("a#0"), "no step"),
    (Act::Settle, "held by e/1.0#1"),
    (Act::Rerun(&["e#0"]), "e#0 "),
    (Act::Undo("e/1.1#2"), "ok"),
    (Act::Left, "e/1.0#1 e/1.0#1 1"),
    (Act::Undo("e/1.0#1"), "ok"),
    (Act::Left, "0"),
    (Act::Step("e/1.0"), "ok"),
    (Act::Left, "0"),
    (Act::Step("e/1.0"), "ok"),
    (Act::Hold("e#1"), "ok"),
    (Act::Left, "e#1 e/1.0#2 4"),
    (Act::UndoOrder(&["e/1.0#2", "e/1.0#1"]), "ok"),
    (Act::Left, "e#1 e/1.1#1 2"),
    (Act::Step("e/1.0"), "held by e#1"),
    (Act::Start("b", "q", "{}"), "ok"),
    (Act::Step("b"), "ok"),
    (Act::UndoOrder(&["e/1.1#1", "e#1"]), "ok"),
    (Act::Left, "0"),
    (Act::Step("e"), "ok"),
    (Act::Settle, "ok"),
    (Act::Hold("b#0"), "settled"),
];

#[test]
fn held_steps_hold_others_back(rt: HostRuntime) -> Result<(), Fail> {
    expect_over(&rt, rt.alloc(), "[]", HELD)
}
