// Reading the tests of a Choice rule ("Boolean expression", "Data-Test Expression").
ghost use Rattle.std.specs.Prelude.{◌≡◌, ℕ, IfOk, IfErr, Some, None, codes, is_some, option_map, option_and_then};
ghost use Rattle.serde_json.specs.Find.{get, as_array, as_object};
ghost use Rattle.serde_json.specs.View.{view, items_view, members_view};
ghost use Rattle.asl_fields.specs.Refusal.{RefusesForFault};
ghost use Rattle.asl_fields.specs.Values.{IsPathField};
ghost use Rattle.asl_states.specs.TestFaults.{TestFault, TestFaultWithin, TestsFieldFault, SomeTestFault, NotFault, VariableFault, CompareFault};
ghost use Rattle.asl_states.specs.TestFields.{asked_in, asked_by, first_asked, is_often, comparison_said, test_form_of, IsTest, IsOfForm, IsInnerTest, ListedTests, TestsAre};
ghost use Rattle.asl_states.specs.TestTree.{test_trees};
ghost use Rattle.asl_states.specs.TestView.{test_of};

use crate::choice::{Comparison, InnerTest, Test, Tests};
use crate::comparison_kind::{ComparisonKind, comparison_named};
use asl_fields::paths::RefPath;
use asl_fields::{MachineFault, Place, bool_of, check_fields, integer_of, read_path, text_of};
use json_tree::Text;
use serde_json::{Map, Value};
use std::alloc::Global;

/// What a test's object is, by the fields that stand.
#[derive(Clone, Copy, Debug, PartialEq, Eq)]
pub enum TestForm {
    And,
    Or,
    Not,
    Compare,
}

/// The first comparison among the fields: its kind, its name and its value.
fn find_asked<'a>(fields: &'a Map<String, Value>) -> Option<(ComparisonKind, &'a str, &'a Value)>
    ensures { option_map (λ a. (a.0, a.1.now, view a.2.now)) result ≡ first_asked (asked_in (members_view fields.now.entries)) }
{
    for (name, value) in fields {
        if let Some(kind) = comparison_named(name.as_str()) {
            return Some((kind, name.as_str(), value));
        }
    }
    None
}

/// Whether several comparisons stand.
fn asks_often(fields: &Map<String, Value>) -> bool
    ensures { result ≡ is_often (asked_in (members_view fields.now.entries)) }
{
    let mut asked = false;
    for (name, _value) in fields {
        if comparison_named(name.as_str()).is_some() {
            if asked {
                return true;
            }
            asked = true;
        }
    }
    false
}

/// Whether a field of this name stands.
fn stands(object: &Value, name: &str) -> bool
    ensures { result ≡ is_some (get name.now (view object.now)) }
{
    match object.get(name) {
        Some(_) => true,
        None => false,
    }
}

/// The form of a test, which has exactly one of the four fields, and a comparison just beside `Variable`.
fn form_of(object: &Value, fields: &Map<String, Value>) -> Option<TestForm>
    requires { as_object (view object.now) ≡ Some (members_view fields.now.entries) }
    ensures { result ≡ test_form_of (view object.now) }
{
    if asks_often(fields) {
        return None;
    }
    let asked = find_asked(fields).is_some();
    let all = stands(object, "And");
    let any = stands(object, "Or");
    let not = stands(object, "Not");
    let variable = stands(object, "Variable");
    match (all, any, not, variable, asked) {
        (true, false, false, false, false) => Some(TestForm::And),
        (false, true, false, false, false) => Some(TestForm::Or),
        (false, false, true, false, false) => Some(TestForm::Not),
        (false, false, false, true, true) => Some(TestForm::Compare),
        _ => None,
    }
}

/// What a comparison of this kind and name asks for.
fn read_comparison(
    alloc: Global,
    kind: ComparisonKind,
    name: &str,
    value: &Value,
) -> Result<Comparison, MachineFault>
    ensures ok { IfOk result (λ c. comparison_said kind (view value.now) ≡ Some c) }
    ensures refused { IfErr result (λ e. RefusesForFault e (comparison_said kind (view value.now) ≡ None)) }
    ensures fault { IfErr result (λ e. RefusesForFault e (e ≡ MachineFault.BadField name.now)) }
{
    match kind {
        ComparisonKind::Text(relation) => {
            Ok(Comparison::Text(relation, text_of(alloc, value, name)?))
        }
        ComparisonKind::Number(relation) => {
            Ok(Comparison::Number(relation, integer_of(alloc, value, name)?))
        }
        ComparisonKind::Boolean => Ok(Comparison::Boolean(bool_of(alloc, value, name)?)),
        ComparisonKind::IsNull => Ok(Comparison::IsNull(bool_of(alloc, value, name)?)),
        ComparisonKind::IsPresent => Ok(Comparison::IsPresent(bool_of(alloc, value, name)?)),
        ComparisonKind::IsNumeric => Ok(Comparison::IsNumeric(bool_of(alloc, value, name)?)),
        ComparisonKind::IsString => Ok(Comparison::IsString(bool_of(alloc, value, name)?)),
        ComparisonKind::IsBoolean => Ok(Comparison::IsBoolean(bool_of(alloc, value, name)?)),
    }
}

/// The path of a test's variable, which may not be `null`.
fn read_variable(alloc: Global, object: &Value) -> Result<RefPath, MachineFault>
    ensures ok { IfOk result
        (λ p. IsPathField (get (codes "Variable") (view object.now)) (Some p)) }
    ensures fault { IfErr result
        (λ e. RefusesForFault e (VariableFault (get (codes "Variable") (view object.now)) e)) }
{
    match read_path(alloc, object, "Variable")? {
        Some(path) => Ok(path),
        None => Err(MachineFault::BadField(Text::new(alloc, "Variable")?)),
    }
}

/// A test with a variable and a comparison, of an object whose fields are `fields` too.
fn read_compare(
    alloc: Global,
    object: &Value,
    fields: &Map<String, Value>,
) -> Result<Test, MachineFault>
    requires { as_object (view object.now) ≡ Some (members_view fields.now.entries) }
    ensures ok { IfOk result (λ t. IsOfForm (Some TestForm.Compare) (view object.now) (test_of t)) }
    ensures fault { IfErr result (λ e. RefusesForFault e (CompareFault (view object.now) e)) }
{
    let Some((kind, name, value)) = find_asked(fields) else {
        return Err(MachineFault::BadField(Text::new(alloc, "Choices")?));
    };
    let comparison = read_comparison(alloc, kind, name, value)?;
    match read_variable(alloc, object) {
        Ok(path) => Ok(Test::Compare(path, comparison)),
        Err(fault) => {
            drop(comparison);
            Err(fault)
        }
    }
}

/// The test of a value that stands in this field, at this place.
#[cycle(read_test)]
pub fn read_test(
    alloc: Global,
    place: Place,
    field: &str,
    value: &Value,
) -> Result<Test, MachineFault>
    ensures ok { IfOk result (λ t. IsTest place (view value.now) (test_of t)) }
    ensures fault { IfErr result (λ e. RefusesForFault e (TestFault place field.now (view value.now) e)) }
{
    let Some(fields) = value.as_object() else {
        return Err(MachineFault::BadField(Text::new(alloc, field)?));
    };
    check_fields(alloc, place, value, fields)?;
    match form_of(value, fields) {
        Some(TestForm::And) => Ok(Test::And(read_tests(alloc, "And", value)?)),
        Some(TestForm::Or) => Ok(Test::Or(read_tests(alloc, "Or", value)?)),
        Some(TestForm::Not) => Ok(Test::Not(read_inner(alloc, value)?)),
        Some(TestForm::Compare) => read_compare(alloc, value, fields),
        None => Err(MachineFault::BadField(Text::new(alloc, "Choices")?)),
    }
}

/// The tests of a field, at least one.
#[cycle(read_test)]
fn read_tests(alloc: Global, field: &str, object: &Value) -> Result<Tests, MachineFault>
    ensures ok { IfOk result
        (λ ts. ListedTests (option_and_then as_array (get field.now (view object.now))) (test_trees ts)) }
    ensures fault { IfErr result
        (λ e. RefusesForFault e ((n : ℕ) × TestsFieldFault (TestFaultWithin n) field.now (get field.now (view object.now)) e)) }
{
    let Some(value) = object.get(field) else {
        return Err(MachineFault::BadField(Text::new(alloc, "Choices")?));
    };
    let Some(items) = value.as_array() else {
        return Err(MachineFault::BadField(Text::new(alloc, field)?));
    };
    if items.is_empty() {
        return Err(MachineFault::BadField(Text::new(alloc, field)?));
    }
    read_each_test(alloc, field, items)
}

#[cycle(read_test)]
fn read_each_test(alloc: Global, field: &str, items: &Vec<Value>) -> Result<Tests, MachineFault>
    ensures ok { IfOk result (λ ts. TestsAre (items_view items.now.items) (test_trees ts)) }
    ensures fault { IfErr result
        (λ e. RefusesForFault e ((n : ℕ) × SomeTestFault (TestFaultWithin n) field.now (items_view items.now.items) e)) }
{
    let mut inner = Vec::new(alloc);
    for item in items {
        match read_test(alloc, Place::Test, field, item) {
            Ok(test) => inner.push(test)?,
            Err(fault) => {
                drop(inner);
                return Err(fault);
            }
        }
    }
    Ok(Tests { inner })
}

/// The test under `Not`.
#[cycle(read_test)]
fn read_inner(alloc: Global, object: &Value) -> Result<InnerTest, MachineFault>
    ensures ok { IfOk result (IsInnerTest (get (codes "Not") (view object.now))) }
    ensures fault { IfErr result
        (λ e. RefusesForFault e ((n : ℕ) × NotFault (TestFaultWithin n) (get (codes "Not") (view object.now)) e)) }
{
    let Some(value) = object.get("Not") else {
        return Err(MachineFault::BadField(Text::new(alloc, "Choices")?));
    };
    let test = read_test(alloc, Place::Test, "Not", value)?;
    Ok(InnerTest {
        inner: Box::new(alloc, test)?,
    })
}
