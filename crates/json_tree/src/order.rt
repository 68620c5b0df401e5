// Comparisons of values.
ghost use Rattle.std.specs.Prelude.{◌≡◌};
ghost use Rattle.json_tree.specs.Data.{items_of, members_of};
ghost use Rattle.json_tree.specs.Order.{data_cmp, items_cmp, members_cmp, rank};
ghost use Rattle.json_tree.specs.View.{data_of};

use crate::tree::{Field, Json, JsonFields, JsonList};
use std::cmp::Ordering;

impl PartialEq for Json {
    ghost use Rattle.std.specs.Cmp.{eq_by_cmp_equiv, on_total, partial_equiv_from_equiv};
    ghost use Rattle.std.specs.Ordering.{eq_by_cmp, on};
    ghost use Rattle.json_tree.specs.Order.{data_cmp, data_cmp_total};
    ghost use Rattle.json_tree.specs.View.{data_of};

    ghost eq = { eq_by_cmp (on data_of data_cmp) };

    ghost laws = { partial_equiv_from_equiv (eq_by_cmp_equiv (on_total data_of data_cmp_total)) };

    fn eq(&self, other: &Json) -> bool {
        self.cmp(other).is_eq()
    }
}

impl Eq for Json {
    ghost use Rattle.std.specs.Cmp.{eq_by_cmp_equiv, on_total};
    ghost use Rattle.json_tree.specs.Order.{data_cmp_total};
    ghost use Rattle.json_tree.specs.View.{data_of};

    ghost laws = { eq_by_cmp_equiv (on_total data_of data_cmp_total) };
}

impl PartialOrd for Json {
    ghost use Rattle.std.specs.Cmp.{on_total, partial_order_from_agreeing_total};
    ghost use Rattle.std.specs.Ordering.{as_partial_cmp, on};
    ghost use Rattle.std.specs.Prelude.{refl};
    ghost use Rattle.json_tree.specs.Order.{data_cmp, data_cmp_total};
    ghost use Rattle.json_tree.specs.View.{data_of};

    ghost partial_cmp = { as_partial_cmp (on data_of data_cmp) };

    ghost laws = { partial_order_from_agreeing_total (on data_of data_cmp) (on_total data_of data_cmp_total) (λ _ _. refl) (λ _ _. refl) };

    fn partial_cmp(&self, other: &Json) -> Option<Ordering> {
        Some(self.cmp(other))
    }
}

impl Ord for Json {
    ghost use Rattle.std.specs.Cmp.{on_total};
    ghost use Rattle.std.specs.Ordering.{on};
    ghost use Rattle.std.specs.Prelude.{refl};
    ghost use Rattle.json_tree.specs.Order.{data_cmp, data_cmp_total};
    ghost use Rattle.json_tree.specs.View.{data_of};

    ghost cmp = { on data_of data_cmp };

    ghost total = { on_total data_of data_cmp_total };

    ghost matches_partial_cmp = { λ _ _. refl };

    ghost matches_eq = { λ _ _. refl };

    fn cmp(&self, other: &Json) -> Ordering {
        compare(self, other)
    }
}

fn rank_of(json: &Json) -> u8
    ensures { result ≡ rank (data_of json.now) }
{
    match json {
        Json::Null => 0,
        Json::Bool(_) => 1,
        Json::Whole(_) => 2,
        Json::Text(_) => 3,
        Json::List(_) => 4,
        Json::Fields(_) => 5,
    }
}

#[cycle(compare)]
fn compare(a: &Json, b: &Json) -> Ordering
    ensures { result ≡ data_cmp (data_of a.now) (data_of b.now) }
{
    match (a, b) {
        (Json::Null, Json::Null) => Ordering::Equal,
        (Json::Bool(x), Json::Bool(y)) => x.cmp(y),
        (Json::Whole(x), Json::Whole(y)) => x.cmp(y),
        (Json::Text(x), Json::Text(y)) => x.cmp(y),
        (Json::List(x), Json::List(y)) => compare_lists(x, y),
        (Json::Fields(x), Json::Fields(y)) => compare_fields(x, y),
        _ => rank_of(a).cmp(&rank_of(b)),
    }
}

#[cycle(compare)]
fn compare_lists(a: &JsonList, b: &JsonList) -> Ordering
    ensures { result ≡ items_cmp (items_of a.now) (items_of b.now) }
{
    let mut rest = b.as_slice().iter();
    if let Some(node) = &a.inner {
        let items: &Vec<Json> = node;
        for x in items {
            let Some(y) = rest.next() else {
                return Ordering::Greater;
            };
            match compare(x, y) {
                Ordering::Equal => {}
                unlike => return unlike,
            }
        }
    }
    if rest.next().is_some() {
        Ordering::Less
    } else {
        Ordering::Equal
    }
}

#[cycle(compare)]
fn compare_fields(a: &JsonFields, b: &JsonFields) -> Ordering
    ensures { result ≡ members_cmp (members_of a.now) (members_of b.now) }
{
    let mut rest = b.as_slice().iter();
    if let Some(node) = &a.inner {
        let fields: &Vec<Field> = node;
        for x in fields {
            let Some(y) = rest.next() else {
                return Ordering::Greater;
            };
            match x.name.cmp(&y.name) {
                Ordering::Equal => {}
                unlike => return unlike,
            }
            match compare(&x.value, &y.value) {
                Ordering::Equal => {}
                unlike => return unlike,
            }
        }
    }
    if rest.next().is_some() {
        Ordering::Less
    } else {
        Ordering::Equal
    }
}
