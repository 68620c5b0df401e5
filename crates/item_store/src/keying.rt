//! The key that a request asks.

ghost use Rattle.std.specs.Prelude.{◌≡◌, ◌⊎◌, Ok, Err, IsOk, IsTrue, is_ok, MatchResult};
ghost use Rattle.attr_values.specs.Key as spec;
ghost use Rattle.attr_values.specs.Key.{has_text};
ghost use Rattle.item_store.specs.Table.{key_count, key_in, or_bad_key, exact_key};

use crate::call::Request;
use crate::fault::CallFault;
use attr_values::{Item, ItemFault, Key, KeyAttribute, KeySchema, KeyType, Value, key_of};

/// The key that a request asks.
pub(crate) fn key_in(schema: &KeySchema, request: &Request) -> Result<Key, CallFault>
    ensures { MatchResult result (λ k. key_in schema.now request.now ≡ Ok k)
        (λ e. ((e ≡ CallFault.Memory) × IsOk (key_in schema.now request.now) × IsTrue (has_text schema.now)) ⊎ (or_bad_key (key_in schema.now request.now) ≡ Err e)) }
{
    match request {
        Request::Get(key) => exact_key(schema, key),
        Request::Put(item, _) => find_key(schema, item),
        Request::Delete(key, _) => exact_key(schema, key),
    }
}

/// The key that has these attributes and no others.
fn exact_key(schema: &KeySchema, key: &Item) -> Result<Key, CallFault>
    ensures { MatchResult result (λ k. exact_key schema.now key.now ≡ Ok k)
        (λ e. ((e ≡ CallFault.Memory) × IsOk (exact_key schema.now key.now) × IsTrue (has_text schema.now)) ⊎ (or_bad_key (exact_key schema.now key.now) ≡ Err e)) }
{
    if key.len() != key_count(schema) {
        return Err(CallFault::BadKey);
    }
    find_key(schema, key)
}

fn key_count(schema: &KeySchema) -> usize
    ensures { result ≡ key_count schema.now }
{
    match schema.sort {
        None => 1,
        Some(_) => 2,
    }
}

/// The key of an item. Whether it has one is known before memory is taken.
fn find_key(schema: &KeySchema, item: &Item) -> Result<Key, CallFault>
    ensures { MatchResult result (λ k. spec.key_of schema.now item.now ≡ Ok k)
        (λ e. ((e ≡ CallFault.Memory) × IsOk (spec.key_of schema.now item.now) × IsTrue (has_text schema.now)) ⊎ (or_bad_key (spec.key_of schema.now item.now) ≡ Err e)) }
{
    if !has_key(schema, item) {
        return Err(CallFault::BadKey);
    }
    match key_of(schema, item) {
        Ok(key) => Ok(key),
        Err(ItemFault::Memory) => Err(CallFault::Memory),
        Err(_) => Err(CallFault::BadKey),
    }
}

fn has_key(schema: &KeySchema, item: &Item) -> bool
    ensures { result ≡ is_ok (spec.key_of schema.now item.now) }
{
    has_part(&schema.partition, item)
        && match &schema.sort {
            Some(attribute) => has_part(attribute, item),
            None => true,
        }
}

fn has_part(attribute: &KeyAttribute, item: &Item) -> bool
    ensures { result ≡ is_ok (spec.part_of attribute.now item.now) }
{
    match (attribute.kind, item.get(attribute.name.as_str())) {
        (KeyType::S, Some(Value::S(text))) => !text.as_str().is_empty(),
        (KeyType::N, Some(Value::N(_))) => true,
        _ => false,
    }
}
