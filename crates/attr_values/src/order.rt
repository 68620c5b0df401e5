//! Comparisons of values.

ghost use Rattle.std.specs.Prelude.{◌≡◌};
ghost use Rattle.attr_values.specs.Datum.{elements_of, attributes_of};
ghost use Rattle.attr_values.specs.Order.{datum_cmp, elements_cmp, attributes_cmp, datum_rank};
ghost use Rattle.attr_values.specs.View.{datum_of};

use crate::value::{Attribute, Value, ValueList, ValueMap};
use std::cmp::Ordering;

impl PartialEq for Value {
    ghost use Rattle.std.specs.Cmp.{eq_by_cmp_equiv, on_total, partial_equiv_from_equiv};
    ghost use Rattle.std.specs.Ordering.{eq_by_cmp, on};
    ghost use Rattle.attr_values.specs.Order.{datum_cmp, datum_cmp_total};
    ghost use Rattle.attr_values.specs.View.{datum_of};

    ghost eq = { eq_by_cmp (on datum_of datum_cmp) };

    ghost laws = { partial_equiv_from_equiv (eq_by_cmp_equiv (on_total datum_of datum_cmp_total)) };

    fn eq(&self, other: &Value) -> bool {
        self.cmp(other).is_eq()
    }
}

impl Eq for Value {
    ghost use Rattle.std.specs.Cmp.{eq_by_cmp_equiv, on_total};
    ghost use Rattle.attr_values.specs.Order.{datum_cmp_total};
    ghost use Rattle.attr_values.specs.View.{datum_of};

    ghost laws = { eq_by_cmp_equiv (on_total datum_of datum_cmp_total) };
}

impl PartialOrd for Value {
    ghost use Rattle.std.specs.Cmp.{on_total, partial_order_from_agreeing_total};
    ghost use Rattle.std.specs.Ordering.{as_partial_cmp, on};
    ghost use Rattle.std.specs.Prelude.{refl};
    ghost use Rattle.attr_values.specs.Order.{datum_cmp, datum_cmp_total};
    ghost use Rattle.attr_values.specs.View.{datum_of};

    ghost partial_cmp = { as_partial_cmp (on datum_of datum_cmp) };

    ghost laws = { partial_order_from_agreeing_total (on datum_of datum_cmp) (on_total datum_of datum_cmp_total) (λ _ _. refl) (λ _ _. refl) };

    fn partial_cmp(&self, other: &Value) -> Option<Ordering> {
        Some(self.cmp(other))
    }
}

impl Ord for Value {
    ghost use Rattle.std.specs.Cmp.{on_total};
    ghost use Rattle.std.specs.Ordering.{on};
    ghost use Rattle.std.specs.Prelude.{refl};
    ghost use Rattle.attr_values.specs.Order.{datum_cmp, datum_cmp_total};
    ghost use Rattle.attr_values.specs.View.{datum_of};

    ghost cmp = { on datum_of datum_cmp };

    ghost total = { on_total datum_of datum_cmp_total };

    ghost matches_partial_cmp = { λ _ _. refl };

    ghost matches_eq = { λ _ _. refl };

    fn cmp(&self, other: &Value) -> Ordering {
        compare(self, other)
    }
}

fn rank_of(value: &Value) -> u8
    ensures { result ≡ datum_rank (datum_of value.now) }
{
    match value {
        Value::S(_) => 0,
        Value::N(_) => 1,
        Value::Bool(_) => 2,
        Value::Null => 3,
        Value::L(_) => 4,
        Value::M(_) => 5,
        Value::Ss(_) => 6,
        Value::Ns(_) => 7,
    }
}

#[cycle(compare)]
fn compare(a: &Value, b: &Value) -> Ordering
    ensures { result ≡ datum_cmp (datum_of a.now) (datum_of b.now) }
{
    match (a, b) {
        (Value::S(x), Value::S(y)) => x.cmp(y),
        (Value::N(x), Value::N(y)) => x.cmp(y),
        (Value::Bool(x), Value::Bool(y)) => x.cmp(y),
        (Value::Null, Value::Null) => Ordering::Equal,
        (Value::L(x), Value::L(y)) => compare_lists(x, y),
        (Value::M(x), Value::M(y)) => compare_maps(x, y),
        (Value::Ss(x), Value::Ss(y)) => x.inner.cmp(&y.inner),
        (Value::Ns(x), Value::Ns(y)) => x.inner.cmp(&y.inner),
        _ => rank_of(a).cmp(&rank_of(b)),
    }
}

#[cycle(compare)]
fn compare_lists(a: &ValueList, b: &ValueList) -> Ordering
    ensures { result ≡ elements_cmp (elements_of a.now) (elements_of b.now) }
{
    let mut rest = b.inner.iter();
    let items: &Vec<Value> = &a.inner;
    for x in items {
        let Some(y) = rest.next() else {
            return Ordering::Greater;
        };
        match compare(x, y) {
            Ordering::Equal => {}
            unlike => return unlike,
        }
    }
    if rest.next().is_some() {
        Ordering::Less
    } else {
        Ordering::Equal
    }
}

#[cycle(compare)]
pub(crate) fn compare_maps(a: &ValueMap, b: &ValueMap) -> Ordering
    ensures { result ≡ attributes_cmp (attributes_of a.now) (attributes_of b.now) }
{
    let mut rest = b.inner.iter();
    let attributes: &Vec<Attribute> = &a.inner;
    for x in attributes {
        let Some(y) = rest.next() else {
            return Ordering::Greater;
        };
        match x.name.cmp(&y.name) {
            Ordering::Equal => {}
            unlike => return unlike,
        }
        match compare(&x.value, &y.value) {
            Ordering::Equal => {}
            unlike => return unlike,
        }
    }
    if rest.next().is_some() {
        Ordering::Less
    } else {
        Ordering::Equal
    }
}
