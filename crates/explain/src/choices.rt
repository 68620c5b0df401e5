// What is wrong with the rules of a Choice.
ghost use Rattle.std.specs.Prelude.{◌≡◌, IfOk, IfSome, None, Err, codes};
ghost use Rattle.json_tree.specs.View.{data_of};
ghost use Rattle.asl_forward.specs.Choosing.{chosen};

use crate::details::{Case, NoRule};
use crate::templates::{MOST_LEVELS, in_path};
use crate::why::{Way, field};
use asl_forward::frame_turns::state_parts::{
    Choice, Comparison, InnerTest, Relation, Rules, Test, Tests,
};
use json_tree::Json;
use std::alloc::{AllocError, Global};
use std::cmp::Ordering;

/// What a test comes to.
#[derive(Drop)]
enum Asked {
    Holds(bool),
    /// It comes upon a variable that is absent.
    Absent(Option<Case>),
}

/// Whether a Choice goes on with this input.
pub(crate) fn goes_on(choice: &Choice, input: &Json) -> bool {
    match choice.rules.first_rule(input) {
        Some(Some(_)) => true,
        Some(None) => choice.default.is_some(),
        None => false,
    }
}

/// What is wrong with the rules of a Choice that doesn't go on with this input.
pub(crate) fn in_rules(
    alloc: Global,
    way: &mut Way,
    fields: &Json,
    rules: &Rules,
    input: &Json,
) -> Result<Option<Case>, AllocError> {
    way.enter(alloc, "Choices")?;
    if let Some(none) = no_rule(rules, input)? {
        return Ok(Some(Case::NoRuleHolds(none)));
    }
    match field(fields, "Choices") {
        Some(Json::List(texts)) => in_each_rule(alloc, way, texts.as_slice(), rules, input),
        _ => Ok(None),
    }
}

/// The input, if no rule holds with it, and none comes upon an absent variable.
fn no_rule(rules: &Rules, input: &Json) -> Result<Option<NoRule>, AllocError>
    ensures { IfOk result (λ o. IfSome o (λ none. chosen rules.now None (data_of none.of) ≡ Err (codes "States.NoChoiceMatched"))) }
{
    match rules.first_rule(input) {
        Some(None) => Ok(Some(NoRule { of: input.copy()? })),
        _ => Ok(None),
    }
}

/// The first absent variable that the rules come upon.
fn in_each_rule(
    alloc: Global,
    way: &mut Way,
    texts: &[Json],
    rules: &Rules,
    input: &Json,
) -> Result<Option<Case>, AllocError> {
    for (index, (rule, text)) in rules.as_slice().iter().zip(texts).enumerate() {
        way.enter_item(index)?;
        if let Asked::Absent(found) = asks(alloc, way, &rule.test, text, input, MOST_LEVELS)? {
            return Ok(found);
        }
        way.leave();
    }
    Ok(None)
}

/// What a test comes to whose JSON is this. Looks so many levels of tests deep, and calls itself once for each.
#[cycle(asks)]
fn asks(
    alloc: Global,
    way: &mut Way,
    test: &Test,
    text: &Json,
    input: &Json,
    levels: u8,
) -> Result<Asked, AllocError> {
    if levels == 0 {
        return Ok(Asked::Absent(None));
    }
    match test {
        Test::And(tests) => asks_each(alloc, way, tests, text, input, false, levels - 1),
        Test::Or(tests) => asks_each(alloc, way, tests, text, input, true, levels - 1),
        Test::Not(inner) => asks_inner(alloc, way, inner, text, input, levels - 1),
        Test::Compare(path, comparison) => {
            compares(alloc, way, comparison, path.pick(input), text, input)
        }
    }
}

/// The same of a comparison with a variable.
fn compares(
    alloc: Global,
    way: &mut Way,
    comparison: &Comparison,
    variable: Option<&Json>,
    text: &Json,
    input: &Json,
) -> Result<Asked, AllocError> {
    match (variable, comparison) {
        (Some(value), _) => Ok(Asked::Holds(says(comparison, value))),
        (None, Comparison::IsPresent(present)) => Ok(Asked::Holds(!*present)),
        (None, _) => Ok(Asked::Absent(in_path(alloc, way, text, "Variable", input)?)),
    }
}

/// The same of a `Not`.
#[cycle(asks)]
fn asks_inner(
    alloc: Global,
    way: &mut Way,
    inner: &InnerTest,
    text: &Json,
    input: &Json,
    levels: u8,
) -> Result<Asked, AllocError> {
    let Some(text) = field(text, "Not") else {
        return Ok(Asked::Absent(None));
    };
    way.enter(alloc, "Not")?;
    match asks(alloc, way, inner.test(), text, input, levels)? {
        Asked::Holds(held) => {
            way.leave();
            Ok(Asked::Holds(!held))
        }
        Asked::Absent(found) => Ok(Asked::Absent(found)),
    }
}

/// The same of an `And` or an `Or`, which ends at the first test that comes to `last`.
#[cycle(asks)]
fn asks_each(
    alloc: Global,
    way: &mut Way,
    tests: &Tests,
    text: &Json,
    input: &Json,
    last: bool,
    levels: u8,
) -> Result<Asked, AllocError> {
    let name = if last { "Or" } else { "And" };
    let Some(Json::List(texts)) = field(text, name) else {
        return Ok(Asked::Absent(None));
    };
    way.enter(alloc, name)?;
    for (index, (test, text)) in tests.as_slice().iter().zip(texts.as_slice()).enumerate() {
        way.enter_item(index)?;
        match asks(alloc, way, test, text, input, levels)? {
            Asked::Holds(held) => {
                way.leave();
                if held == last {
                    way.leave();
                    return Ok(Asked::Holds(last));
                }
            }
            Asked::Absent(found) => return Ok(Asked::Absent(found)),
        }
    }
    way.leave();
    Ok(Asked::Holds(!last))
}

fn says(comparison: &Comparison, value: &Json) -> bool {
    match (comparison, value) {
        (Comparison::Text(relation, other), Json::Text(text)) => {
            stands(*relation, text.as_str().cmp(other.as_str()))
        }
        (Comparison::Number(relation, other), Json::Whole(number)) => {
            stands(*relation, number.cmp(other))
        }
        (Comparison::Boolean(other), Json::Bool(found)) => *found == *other,
        (Comparison::IsPresent(asked), _) => *asked,
        (Comparison::IsNull(asked), _) => *asked == matches!(value, Json::Null),
        (Comparison::IsNumeric(asked), _) => *asked == matches!(value, Json::Whole(_)),
        (Comparison::IsString(asked), _) => *asked == matches!(value, Json::Text(_)),
        (Comparison::IsBoolean(asked), _) => *asked == matches!(value, Json::Bool(_)),
        _ => false,
    }
}

/// Whether two values that are ordered so stand so to each other.
fn stands(relation: Relation, order: Ordering) -> bool {
    match relation {
        Relation::Equals => order.is_eq(),
        Relation::Less => order.is_lt(),
        Relation::Greater => order.is_gt(),
        Relation::LessOrEqual => order.is_le(),
        Relation::GreaterOrEqual => order.is_ge(),
    }
}
