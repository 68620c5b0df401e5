//! From an item to its key.

ghost use Rattle.std.specs.Prelude.{◌≡◌, ◌≢◌, Some, Err, IsTrue, IsOk, IfErr, OnOk};
ghost use Rattle.attr_values.specs.Faults.{AnswersAs};
ghost use Rattle.attr_values.specs.Key as spec;
ghost use Rattle.attr_values.specs.View.{datum_of};

use crate::fault::ItemFault;
use crate::item::Item;
use crate::key::{Key, KeyAttribute, KeySchema, KeyType};
use crate::key_part::{KeyPart, KeyText};
use crate::value::Value;

/// The key of an item: its partition is looked at first, and then its sort attribute. `NoKey` where the item lacks one of
/// them, `KeyType` where one is of another type, `EmptyKey` where a text is empty. Only then are texts copied.
pub fn key_of(schema: &KeySchema, item: &Item) -> Result<Key, ItemFault>
    ensures key { AnswersAs (λ k. k) (spec.key_of schema.now item.now) result }
    ensures memory { result ≡ Err ItemFault.Memory → IsTrue (spec.has_text schema.now) × IsOk (spec.key_of schema.now item.now) }
{
    has_part(&schema.partition, item)?;
    if let Some(attribute) = &schema.sort {
        has_part(attribute, item)?;
    }
    let partition = part_of(&schema.partition, item)?;
    let sort = match &schema.sort {
        Some(attribute) => Some(part_of(attribute, item)?),
        None => None,
    };
    Ok(Key { partition, sort })
}

/// That the item has such a part, which takes no memory to see.
fn has_part(attribute: &KeyAttribute, item: &Item) -> Result<(), ItemFault>
    ensures ok { OnOk result (IsOk (spec.part_of attribute.now item.now)) }
    ensures err { IfErr result (λ e. spec.part_of attribute.now item.now ≡ Err e) }
    ensures memory { result ≢ Err ItemFault.Memory }
{
    match (attribute.kind, item.get(attribute.name.as_str())) {
        (_, None) => Err(ItemFault::NoKey),
        (KeyType::S, Some(Value::S(text))) => if text.as_str().is_empty() {
            Err(ItemFault::EmptyKey)
        } else {
            Ok(())
        },
        (KeyType::N, Some(Value::N(_))) => Ok(()),
        _ => Err(ItemFault::KeyType),
    }
}

fn part_of(attribute: &KeyAttribute, item: &Item) -> Result<KeyPart, ItemFault>
    ensures part { AnswersAs (λ p. p) (spec.part_of attribute.now item.now) result }
    ensures memory { result ≡ Err ItemFault.Memory → IsTrue (spec.is_text_type attribute.now.kind) }
{
    let Some(value) = item.get(attribute.name.as_str()) else {
        return Err(ItemFault::NoKey);
    };
    match attribute.kind {
        KeyType::S => text_part(value),
        KeyType::N => number_part(value),
    }
}

fn text_part(value: &Value) -> Result<KeyPart, ItemFault>
    ensures { AnswersAs (λ p. p) (spec.part_from KeyType.S (Some (datum_of value.now))) result }
{
    let Value::S(text) = value else {
        return Err(ItemFault::KeyType);
    };
    match KeyText::new(text.copy()?) {
        Some(text) => Ok(KeyPart::S(text)),
        None => Err(ItemFault::EmptyKey),
    }
}

fn number_part(value: &Value) -> Result<KeyPart, ItemFault>
    ensures part { AnswersAs (λ p. p) (spec.part_from KeyType.N (Some (datum_of value.now))) result }
    ensures memory { result ≢ Err ItemFault.Memory }
{
    let Value::N(number) = value else {
        return Err(ItemFault::KeyType);
    };
    Ok(KeyPart::N(*number))
}
