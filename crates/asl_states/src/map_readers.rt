// Reading the fields that only a Map has.
ghost use Rattle.std.specs.Prelude.{◌≡◌, ◌⊎◌, IfOk, IfErr, OnOk, Some, None, codes};
ghost use Rattle.serde_json.specs.Find.{get};
ghost use Rattle.serde_json.specs.View.{view};
ghost use Rattle.asl_fields.specs.Refusal.{RefusesForFault};
ghost use Rattle.asl_fields.specs.Values.{IsPathField};
ghost use Rattle.asl_states.specs.Faults.{ItemsPathFault, HasSelectorFault};
ghost use Rattle.asl_states.specs.Profile.{HasSelector};
ghost use Rattle.asl_states.specs.Reading.{name_of_two, config_fault, concurrency_of, concurrency_fault};

use asl_fields::paths::{RefPath, Template};
use asl_fields::{MachineFault, read_path, read_template};
use json_tree::Text;
use serde_json::Value;
use std::alloc::Global;

/// Of a field's name and an older one, that of the field that stands, and the newer where neither does.
pub fn name_of_two<'a>(
    alloc: Global,
    object: &Value,
    newer: &'a str,
    older: &'a str,
) -> Result<&'a str, MachineFault>
    ensures ok { IfOk result (λ name. name_of_two newer.now older.now (view object.now) ≡ Some name.now) }
    ensures refused { IfErr result
        (λ e. RefusesForFault e (name_of_two newer.now older.now (view object.now) ≡ None)) }
    ensures fault { IfErr result (λ e. RefusesForFault e (e ≡ MachineFault.BadField older.now)) }
{
    match (object.get(older), object.get(newer)) {
        (None, _) => Ok(newer),
        (Some(_), None) => Ok(older),
        (Some(_), Some(_)) => Err(MachineFault::BadField(Text::new(alloc, older)?)),
    }
}

/// Which elements a Map has, and what their inputs are.
#[derive(Drop)]
pub struct Elements {
    pub items_path: RefPath,
    pub item_selector: Option<Template>,
}

pub fn read_elements(alloc: Global, object: &Value) -> Result<Elements, MachineFault>
    ensures path { IfOk result
        (λ m. IsPathField (get (codes "ItemsPath") (view object.now)) (Some m.items_path)) }
    ensures selector { IfOk result (λ m. HasSelector (view object.now) m.item_selector) }
    ensures fault { IfErr result
        (λ e. RefusesForFault e (ItemsPathFault (get (codes "ItemsPath") (view object.now)) e ⊎ HasSelectorFault (view object.now) e)) }
{
    let items_path = read_items_path(alloc, object)?;
    match read_selector(alloc, object) {
        Ok(item_selector) => Ok(Elements {
            items_path,
            item_selector,
        }),
        Err(fault) => {
            drop(items_path);
            Err(fault)
        }
    }
}

/// The way to the elements: a path, and not `null`.
fn read_items_path(alloc: Global, object: &Value) -> Result<RefPath, MachineFault>
    ensures ok { IfOk result
        (λ p. IsPathField (get (codes "ItemsPath") (view object.now)) (Some p)) }
    ensures fault { IfErr result
        (λ e. RefusesForFault e (ItemsPathFault (get (codes "ItemsPath") (view object.now)) e)) }
{
    match read_path(alloc, object, "ItemsPath")? {
        Some(path) => Ok(path),
        None => Err(MachineFault::BadField(Text::new(alloc, "ItemsPath")?)),
    }
}

/// The template that an element's input is made of, if the Map has one.
fn read_selector(alloc: Global, object: &Value) -> Result<Option<Template>, MachineFault>
    ensures ok { IfOk result (HasSelector (view object.now)) }
    ensures fault { IfErr result (λ e. RefusesForFault e (HasSelectorFault (view object.now) e)) }
{
    let name = name_of_two(alloc, object, "ItemSelector", "Parameters")?;
    read_template(alloc, object, name, true)
}

/// How many branches of a Map may run at a time ("Map State", `MaxConcurrency`): a whole number of 32 bits; 0, as where the
/// field is absent, is no bound.
pub fn read_concurrency(alloc: Global, object: &Value) -> Result<u32, MachineFault>
    ensures ok { IfOk result
        (λ bound. concurrency_of (get (codes "MaxConcurrency") (view object.now)) ≡ Some bound) }
    ensures fault { IfErr result
        (λ e. RefusesForFault e (concurrency_fault (get (codes "MaxConcurrency") (view object.now)) ≡ Some e)) }
{
    let Some(value) = object.get("MaxConcurrency") else {
        return Ok(0);
    };
    match value.as_u64() {
        Some(bound) if bound <= 4_294_967_295 => Ok(bound as u32),
        _ => Err(MachineFault::BadField(Text::new(alloc, "MaxConcurrency")?)),
    }
}

/// Refuses a processor that doesn't run inline.
pub fn check_config(alloc: Global, processor: &Value) -> Result<(), MachineFault>
    ensures ok { OnOk result (config_fault (get (codes "ProcessorConfig") (view processor.now)) ≡ None) }
    ensures fault { IfErr result
        (λ e. RefusesForFault e (config_fault (get (codes "ProcessorConfig") (view processor.now)) ≡ Some e)) }
{
    let Some(config) = processor.get("ProcessorConfig") else {
        return Ok(());
    };
    if config.as_object().is_none() {
        return Err(MachineFault::BadField(Text::new(alloc, "ProcessorConfig")?));
    }
    let Some(mode) = config.get("Mode") else {
        return Ok(());
    };
    let Some(mode) = mode.as_str() else {
        return Err(MachineFault::BadField(Text::new(alloc, "Mode")?));
    };
    if mode == "INLINE" {
        Ok(())
    } else if mode == "DISTRIBUTED" {
        Err(MachineFault::Unsupported(Text::new(alloc, "Mode")?))
    } else {
        Err(MachineFault::BadField(Text::new(alloc, "Mode")?))
    }
}
