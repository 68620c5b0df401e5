// Which rule of a Choice state holds ("Choice State").
ghost use Rattle.std.specs.Prelude.{◌≡◌, option_map, option_copied};
ghost use Rattle.json_tree.specs.View.{data_of};
ghost use Rattle.asl_states.specs.Holding.{relation_holds, says, asks, holds, all_hold, any_holds, first_rule};
ghost use Rattle.asl_states.specs.TestTree.{test_trees};
ghost use Rattle.asl_states.specs.TestView.{test_of};

use crate::choice::{Comparison, Relation, Rules, Test, Tests};
use json_tree::{Json, Text};
use std::cmp::Ordering;

impl Rules {
    /// The state that the first rule whose test holds with this input goes to; `Some(None)` where none holds, and `None`
    /// where a test comes upon a variable that is absent before that. Takes no memory, and calls itself once for each level
    /// of tests.
    pub fn first_rule(&self, input: &Json) -> Option<Option<&Text>>
        ensures { option_map option_copied result ≡ first_rule self.now (data_of input.now) }
    {
        for rule in &self.inner {
            match holds(&rule.test, input) {
                Some(true) => return Some(Some(&rule.next)),
                Some(false) => {}
                None => return None,
            }
        }
        Some(None)
    }
}

/// Whether a test holds; none, where it comes upon a variable that is absent. Calls itself once for each level of tests.
#[cycle(holds)]
fn holds(test: &Test, input: &Json) -> Option<bool>
    ensures { result ≡ holds (test_of test.now) (data_of input.now) }
{
    match test {
        Test::And(tests) => all_hold(tests, input),
        Test::Or(tests) => any_holds(tests, input),
        Test::Not(inner) => {
            let held = holds(&inner.inner, input)?;
            Some(!held)
        }
        Test::Compare(path, comparison) => asks(comparison, path.pick(input)),
    }
}

#[cycle(holds)]
fn all_hold(tests: &Tests, input: &Json) -> Option<bool>
    ensures { result ≡ all_hold (test_trees tests.now) (data_of input.now) }
{
    for test in &tests.inner {
        match holds(test, input) {
            Some(true) => {}
            Some(false) => return Some(false),
            None => return None,
        }
    }
    Some(true)
}

#[cycle(holds)]
fn any_holds(tests: &Tests, input: &Json) -> Option<bool>
    ensures { result ≡ any_holds (test_trees tests.now) (data_of input.now) }
{
    for test in &tests.inner {
        match holds(test, input) {
            Some(true) => return Some(true),
            Some(false) => {}
            None => return None,
        }
    }
    Some(false)
}

/// What a comparison says of a variable.
fn asks(comparison: &Comparison, variable: Option<&Json>) -> Option<bool>
    ensures { result ≡ asks comparison.now (option_map (λ j. data_of j.now) variable.entry) }
{
    match (comparison, variable) {
        (_, Some(value)) => Some(says(comparison, value)),
        (Comparison::IsPresent(present), None) => Some(!*present),
        (_, None) => None,
    }
}

fn says(comparison: &Comparison, value: &Json) -> bool
    ensures { result ≡ says comparison.now (data_of value.now) }
{
    match (comparison, value) {
        (Comparison::Text(relation, other), Json::Text(text)) => {
            stands(*relation, text.as_str().cmp(other.as_str()))
        }
        (Comparison::Number(relation, other), Json::Whole(number)) => {
            stands(*relation, number.cmp(other))
        }
        (Comparison::Boolean(other), Json::Bool(found)) => *found == *other,
        (Comparison::IsPresent(asked), _) => *asked,
        (Comparison::IsNull(asked), _) => *asked == matches!(value, Json::Null),
        (Comparison::IsNumeric(asked), _) => *asked == matches!(value, Json::Whole(_)),
        (Comparison::IsString(asked), _) => *asked == matches!(value, Json::Text(_)),
        (Comparison::IsBoolean(asked), _) => *asked == matches!(value, Json::Bool(_)),
        _ => false,
    }
}

/// Whether two values that are ordered so stand so to each other.
fn stands(relation: Relation, order: Ordering) -> bool
    ensures { result ≡ relation_holds relation order }
{
    match relation {
        Relation::Equals => order.is_eq(),
        Relation::Less => order.is_lt(),
        Relation::Greater => order.is_gt(),
        Relation::LessOrEqual => order.is_le(),
        Relation::GreaterOrEqual => order.is_ge(),
    }
}
