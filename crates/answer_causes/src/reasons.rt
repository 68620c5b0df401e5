// What is wrong, as a value.
use answer_parts::books::BookCalls;
use answer_parts::{Asked, Object, Rows, item_value, whole};
use attr_values::{ItemFault, KeyType, write_item};
use explain::{Case, Detail, Flaw, Why};
use item_store::ConditionKind;
use json_tree::Json;
use ref_paths::PathStep;
use std::alloc::{AllocError, Global};
use step_names::StepName;

/// Why a turn fails: the state, the error and its cause, the step if it was taken, and what is wrong at which place; `null` if it doesn't.
pub(crate) fn why_value<B: BookCalls>(
    asked: &Asked<'_, B>,
    why: Result<Option<Why>, AllocError>,
    step: Option<&StepName>,
) -> Result<Json, AllocError> {
    match why? {
        Some(why) => {
            let value = value_of(asked.alloc, &why, step);
            drop(why);
            value
        }
        None => Ok(Json::Null),
    }
}

fn value_of(alloc: Global, why: &Why, step: Option<&StepName>) -> Result<Json, AllocError> {
    let mut value = Object::new(alloc);
    value.put_text("state", why.state.as_str());
    value.put_text("error", why.fault.error.as_str());
    value.put_text("cause", why.fault.cause.as_str());
    match step {
        Some(step) => value.put_step("step", step),
        None => value.put_null("step"),
    }
    value.put("place", place_value(alloc, &why.detail));
    value.put_text("case", case_word(&why.detail.case));
    put_case(alloc, &mut value, &why.detail.case);
    value.done()
}

fn place_value(alloc: Global, detail: &Detail) -> Result<Json, AllocError> {
    let mut place = Rows::new(alloc);
    for step in &detail.place {
        match step {
            PathStep::Name(name) => place.push_text(name.as_str()),
            PathStep::Index(index) => place.push(Ok(whole(*index as usize))),
        }
    }
    place.done()
}

fn case_word(case: &Case) -> &'static str {
    match case {
        Case::PicksNothing(_) => "picks_nothing",
        Case::CannotPlace(_) => "cannot_place",
        Case::TooDeep(_) => "too_deep",
        Case::NoList(_) => "no_list",
        Case::TooMany(_) => "too_many",
        Case::NoRuleHolds(_) => "no_rule_holds",
        Case::Malformed(_) => "malformed",
        Case::OtherTable(_) => "other_table",
        Case::NoKey(_) => "no_key",
        Case::OtherAttribute(_) => "other_attribute",
        Case::FailedCondition(_) => "condition",
        Case::Declared => "declared",
        Case::Branch(_) => "branch",
        Case::Unexplained => "unexplained",
    }
}

/// What belongs to a case. `path` and `of` are there in each.
fn put_case(alloc: Global, value: &mut Object, case: &Case) {
    value.put_word("path", path_in(case));
    value.put("of", value_in(case));
    match case {
        Case::TooMany(it) => value.put_number("elements", it.elements.len()),
        Case::Malformed(it) => put_flaw(value, &it.flaw),
        Case::OtherTable(it) => {
            value.put_text("named", it.named.as_str());
            value.put_text("table", it.table.as_str());
        }
        Case::NoKey(it) => {
            value.put_text("attribute", it.attribute.name.as_str());
            value.put_text("type", type_word(it.attribute.kind));
            value.put_text("fault", fault_word(it.fault));
        }
        Case::OtherAttribute(it) => value.put_text("attribute", it.name.as_str()),
        Case::FailedCondition(it) => {
            value.put_text("condition", condition_word(it.condition.kind));
            value.put_text("attribute", it.condition.attribute.as_str());
            value.put("item", item_value(it.item.as_ref()));
        }
        Case::Branch(index) => value.put_number("branch", *index as usize),
        _ => {}
    }
}

/// The path that a case is about.
fn path_in(case: &Case) -> Option<&str> {
    match case {
        Case::PicksNothing(it) => Some(it.path.as_str()),
        Case::CannotPlace(it) => Some(it.path.as_str()),
        _ => None,
    }
}

/// The value in which something is wrong; `null` if the case has none.
fn value_in(case: &Case) -> Result<Json, AllocError> {
    match case {
        Case::PicksNothing(it) => it.of.copy(),
        Case::CannotPlace(it) => it.of.copy(),
        Case::TooDeep(it) => it.of.copy(),
        Case::NoList(it) => it.of.copy(),
        Case::NoRuleHolds(it) => it.of.copy(),
        Case::Malformed(it) => it.of.copy(),
        Case::NoKey(it) => write_item(&it.of),
        Case::OtherAttribute(it) => write_item(&it.of),
        _ => Ok(Json::Null),
    }
}

/// What is wrong with a call's text, and in which field.
fn put_flaw(value: &mut Object, flaw: &Flaw) {
    match flaw {
        Flaw::NoObject => value.put_text("flaw", "no object"),
        Flaw::UnknownField(name) => {
            value.put_text("flaw", "unknown field");
            value.put_text("field", name.as_str());
        }
        Flaw::MissingField(name) => {
            value.put_text("flaw", "missing field");
            value.put_text("field", name.as_str());
        }
        Flaw::BadTableName => value.put_text("flaw", "table name"),
        Flaw::BadItem => value.put_text("flaw", "no attributes"),
        Flaw::BadAttribute(name, fault) => {
            value.put_text("flaw", "attribute value");
            value.put_text("fault", fault_word(*fault));
            value.put_text("field", name.as_str());
        }
        Flaw::BadCondition => value.put_text("flaw", "condition"),
        Flaw::BadReturnValues => value.put_text("flaw", "return values"),
    }
}

fn type_word(kind: KeyType) -> &'static str {
    match kind {
        KeyType::S => "S",
        KeyType::N => "N",
    }
}

fn condition_word(kind: ConditionKind) -> &'static str {
    match kind {
        ConditionKind::Exists => "attribute_exists",
        ConditionKind::NotExists => "attribute_not_exists",
    }
}

fn fault_word(fault: ItemFault) -> &'static str {
    match fault {
        ItemFault::NoKey => "absent",
        ItemFault::KeyType => "another type",
        ItemFault::EmptyKey => "empty",
        _ => "no attribute value",
    }
}
