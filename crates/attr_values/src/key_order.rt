//! The order of keys.

ghost use Rattle.std.specs.Prelude.{◌≡◌};
ghost use Rattle.attr_values.specs.Key.{part_cmp, key_cmp};

use crate::key::Key;
use crate::key_part::KeyPart;
use std::cmp::Ordering;

pub(crate) fn compare_parts(a: &KeyPart, b: &KeyPart) -> Ordering
    ensures { result ≡ part_cmp a.now b.now }
{
    match (a, b) {
        (KeyPart::S(a), KeyPart::S(b)) => a.as_str().cmp(&b.as_str()),
        (KeyPart::S(_), KeyPart::N(_)) => Ordering::Less,
        (KeyPart::N(_), KeyPart::S(_)) => Ordering::Greater,
        (KeyPart::N(a), KeyPart::N(b)) => a.cmp(b),
    }
}

pub(crate) fn compare_keys(a: &Key, b: &Key) -> Ordering
    ensures { result ≡ key_cmp a.now b.now }
{
    compare_parts(&a.partition, &b.partition).then(a.sort.cmp(&b.sort))
}
