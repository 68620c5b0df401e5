// Reading the rules of a Choice ("Choice State").
ghost use Rattle.std.specs.Prelude.{◌≡◌, IfOk, IfErr, [], Some, codes, option_and_then};
ghost use Rattle.serde_json.specs.Find.{get, as_str};
ghost use Rattle.serde_json.specs.View.{view, items_view};
ghost use Rattle.asl_fields.specs.FieldFaults.{required_text_fault};
ghost use Rattle.asl_fields.specs.Refusal.{RefusesForFault};
ghost use Rattle.asl_states.specs.TestFaults.{RuleFault, SomeRuleFault, ChoicesFault};
ghost use Rattle.asl_states.specs.TestFields.{IsRule, RulesAre, AreRules};

use crate::choice::{Rule, Rules};
use crate::test_readers::read_test;
use asl_fields::{MachineFault, Place, required, text_of};
use json_tree::Text;
use serde_json::Value;
use std::alloc::Global;

/// A rule, which is a test with a `Next`.
fn read_rule(alloc: Global, value: &Value) -> Result<Rule, MachineFault>
    ensures ok { IfOk result (IsRule (view value.now)) }
    ensures fault { IfErr result (λ e. RefusesForFault e (RuleFault (view value.now) e)) }
{
    let test = read_test(alloc, Place::Rule, "Choices", value)?;
    match read_next(alloc, value) {
        Ok(next) => Ok(Rule { test, next }),
        Err(fault) => {
            drop(test);
            Err(fault)
        }
    }
}

/// Where a rule goes.
fn read_next(alloc: Global, value: &Value) -> Result<Text, MachineFault>
    ensures ok { IfOk result (λ next. option_and_then as_str (get (codes "Next") (view value.now)) ≡ Some next) }
    ensures fault { IfErr result
        (λ e. RefusesForFault e (required_text_fault (codes "Next") (get (codes "Next") (view value.now)) ≡ Some e)) }
{
    let next = required(alloc, value, "Next")?;
    text_of(alloc, next, "Next")
}

fn read_each_rule(alloc: Global, items: &Vec<Value>) -> Result<Rules, MachineFault>
    ensures ok { IfOk result (RulesAre (items_view items.now.items) []) }
    ensures fault { IfErr result (λ e. RefusesForFault e (SomeRuleFault (items_view items.now.items) e)) }
{
    let mut inner = Vec::new(alloc);
    for item in items {
        match read_rule(alloc, item) {
            Ok(rule) => inner.push(rule)?,
            Err(fault) => {
                drop(inner);
                return Err(fault);
            }
        }
    }
    Ok(Rules { inner })
}

/// The rules of a Choice, at least one. Takes time linear in what they say, and stack in proportion to how deep their
/// tests nest.
pub fn read_rules(alloc: Global, object: &Value) -> Result<Rules, MachineFault>
    ensures ok { IfOk result (AreRules (view object.now)) }
    ensures fault { IfErr result
        (λ e. RefusesForFault e (ChoicesFault (get (codes "Choices") (view object.now)) e)) }
{
    let value = required(alloc, object, "Choices")?;
    let Some(items) = value.as_array() else {
        return Err(MachineFault::BadField(Text::new(alloc, "Choices")?));
    };
    if items.is_empty() {
        return Err(MachineFault::BadField(Text::new(alloc, "Choices")?));
    }
    read_each_rule(alloc, items)
}
