// Reading `Retry` and `Catch`.
ghost use Rattle.std.specs.Prelude.{◌≡◌, ◌≤◌, IfOk, IfErr, [], None, Some, false, codes, length};
ghost use Rattle.serde_json.specs.Find.{get, as_object, as_number, as_u64};
ghost use Rattle.serde_json.specs.View.{view, items_view, members_view};
ghost use Rattle.asl_errors.specs.ErrorFaults.{SomeNoText, NamesFieldFault, AttemptsFault, RetrierFault, RetriersFault, RetryFault, CatcherFault, CatchersFault, CatchFault, ErrorHandlingFault};
ghost use Rattle.asl_errors.specs.ErrorFields.{NamesAre, AreErrorNames, attempts_of, has_all, in_place, IsRetrier, IsCatcher, RetriersAre, CatchersAre, retrier_names, catcher_names, IsRetry, IsCatch, IsErrorHandling};
ghost use Rattle.asl_fields.specs.Refusal.{RefusesForFault};

use crate::errors::{Catcher, Catchers, ErrorHandling, ErrorNames, Retrier, Retriers};
use asl_fields::{MachineFault, Place, check_fields, read_path, required, text_of};
use json_tree::Text;
use serde_json::Value;
use std::alloc::Global;

/// The texts of a list.
fn names_of(alloc: Global, items: &Vec<Value>) -> Result<ErrorNames, MachineFault>
    ensures ok { IfOk result (NamesAre (items_view items.now.items) []) }
    ensures fault { IfErr result
        (λ e. RefusesForFault e ((e ≡ MachineFault.BadField (codes "ErrorEquals")) × SomeNoText (items_view items.now.items))) }
{
    let mut inner = Vec::new(alloc);
    for item in items {
        match item.as_str() {
            Some(name) => inner.push(Text::new(alloc, name)?)?,
            None => return Err(MachineFault::BadField(Text::new(alloc, "ErrorEquals")?)),
        }
    }
    Ok(ErrorNames { inner })
}

/// The names of errors that a retrier or a catcher is for, at least one.
fn read_error_names(alloc: Global, object: &Value) -> Result<ErrorNames, MachineFault>
    ensures ok { IfOk result (AreErrorNames (view object.now)) }
    ensures fault { IfErr result
        (λ e. RefusesForFault e (NamesFieldFault (get (codes "ErrorEquals") (view object.now)) e)) }
{
    let value = required(alloc, object, "ErrorEquals")?;
    let Some(items) = value.as_array() else {
        return Err(MachineFault::BadField(Text::new(alloc, "ErrorEquals")?));
    };
    let names = names_of(alloc, items)?;
    if names.inner.is_empty() {
        return Err(MachineFault::BadField(Text::new(alloc, "ErrorEquals")?));
    }
    Ok(names)
}

/// How often a retrier tries again.
fn read_attempts(alloc: Global, object: &Value) -> Result<u32, MachineFault>
    ensures ok { IfOk result (λ n. attempts_of (get (codes "MaxAttempts") (view object.now)) ≡ Some n) }
    ensures fault { IfErr result
        (λ e. RefusesForFault e (AttemptsFault (get (codes "MaxAttempts") (view object.now)) e)) }
{
    let Some(value) = object.get("MaxAttempts") else {
        return Ok(3);
    };
    match value.as_u64() {
        Some(attempts) if attempts <= 4_294_967_295 => Ok(attempts as u32),
        _ => Err(MachineFault::BadField(Text::new(alloc, "MaxAttempts")?)),
    }
}

fn read_retrier(alloc: Global, value: &Value) -> Result<Retrier, MachineFault>
    ensures ok { IfOk result (IsRetrier (view value.now)) }
    ensures fault { IfErr result (λ e. RefusesForFault e (RetrierFault (view value.now) e)) }
{
    let Some(fields) = value.as_object() else {
        return Err(MachineFault::BadField(Text::new(alloc, "Retry")?));
    };
    check_fields(alloc, Place::Retrier, value, fields)?;
    let max_attempts = read_attempts(alloc, value)?;
    let errors = read_error_names(alloc, value)?;
    Ok(Retrier {
        errors,
        max_attempts,
    })
}

fn read_catcher(alloc: Global, value: &Value) -> Result<Catcher, MachineFault>
    ensures ok { IfOk result (IsCatcher (view value.now)) }
    ensures fault { IfErr result (λ e. RefusesForFault e (CatcherFault (view value.now) e)) }
{
    let Some(fields) = value.as_object() else {
        return Err(MachineFault::BadField(Text::new(alloc, "Catch")?));
    };
    check_fields(alloc, Place::Catcher, value, fields)?;
    let next = required(alloc, value, "Next")?;
    let next = text_of(alloc, next, "Next")?;
    let result_path = read_path(alloc, value, "ResultPath")?;
    let errors = read_error_names(alloc, value)?;
    Ok(Catcher {
        errors,
        next,
        result_path,
    })
}

fn read_retriers(alloc: Global, items: &Vec<Value>) -> Result<Retriers, MachineFault>
    ensures ok { IfOk result (RetriersAre (items_view items.now.items) []) }
    ensures fault { IfErr result
        (λ e. RefusesForFault e (RetriersFault (items_view items.now.items) e)) }
{
    let mut inner = Vec::new(alloc);
    for item in items {
        inner.push(read_retrier(alloc, item)?)?;
    }
    Ok(Retriers { inner })
}

fn read_catchers(alloc: Global, items: &Vec<Value>) -> Result<Catchers, MachineFault>
    ensures ok { IfOk result (CatchersAre (items_view items.now.items) []) }
    ensures fault { IfErr result
        (λ e. RefusesForFault e (CatchersFault (items_view items.now.items) e)) }
{
    let mut inner = Vec::new(alloc);
    for item in items {
        inner.push(read_catcher(alloc, item)?)?;
    }
    Ok(Catchers { inner })
}

/// Whether `States.ALL` is among the names.
fn has_all(names: &ErrorNames) -> bool
    ensures { result ≡ has_all names.now }
{
    names.inner.iter().any(|name| name.as_str() == "States.ALL")
}

/// Whether `States.ALL` stands alone in its list, and in the last of the retriers' lists alone.
fn retriers_in_place(retriers: &Retriers) -> bool
    ensures { result ≡ in_place false (retrier_names retriers.now) }
{
    let mut ended = false;
    for retrier in &retriers.inner {
        if ended {
            return false;
        }
        if has_all(&retrier.errors) {
            if retrier.errors.inner.len() != 1 {
                return false;
            }
            ended = true;
        }
    }
    true
}

/// The same of catchers.
fn catchers_in_place(catchers: &Catchers) -> bool
    ensures { result ≡ in_place false (catcher_names catchers.now) }
{
    let mut ended = false;
    for catcher in &catchers.inner {
        if ended {
            return false;
        }
        if has_all(&catcher.errors) {
            if catcher.errors.inner.len() != 1 {
                return false;
            }
            ended = true;
        }
    }
    true
}

fn read_retry(alloc: Global, object: &Value) -> Result<Retriers, MachineFault>
    ensures ok { IfOk result (IsRetry (get (codes "Retry") (view object.now))) }
    ensures fault { IfErr result
        (λ e. RefusesForFault e (RetryFault (get (codes "Retry") (view object.now)) e)) }
{
    let Some(value) = object.get("Retry") else {
        return Ok(Retriers {
            inner: Vec::new(alloc),
        });
    };
    let Some(items) = value.as_array() else {
        return Err(MachineFault::BadField(Text::new(alloc, "Retry")?));
    };
    let retriers = read_retriers(alloc, items)?;
    if retriers_in_place(&retriers) {
        Ok(retriers)
    } else {
        Err(MachineFault::StatesAllPlace)
    }
}

fn read_catch(alloc: Global, object: &Value) -> Result<Catchers, MachineFault>
    ensures ok { IfOk result (IsCatch (get (codes "Catch") (view object.now))) }
    ensures fault { IfErr result
        (λ e. RefusesForFault e (CatchFault (get (codes "Catch") (view object.now)) e)) }
{
    let Some(value) = object.get("Catch") else {
        return Ok(Catchers {
            inner: Vec::new(alloc),
        });
    };
    let Some(items) = value.as_array() else {
        return Err(MachineFault::BadField(Text::new(alloc, "Catch")?));
    };
    let catchers = read_catchers(alloc, items)?;
    if catchers_in_place(&catchers) {
        Ok(catchers)
    } else {
        Err(MachineFault::StatesAllPlace)
    }
}

/// What a state does with errors.
pub fn read_error_handling(alloc: Global, object: &Value) -> Result<ErrorHandling, MachineFault>
    ensures ok { IfOk result (IsErrorHandling (view object.now)) }
    ensures fault { IfErr result (λ e. RefusesForFault e (ErrorHandlingFault (view object.now) e)) }
{
    let retriers = read_retry(alloc, object)?;
    let catchers = read_catch(alloc, object)?;
    Ok(ErrorHandling { retriers, catchers })
}
