//! Equality of templates.

ghost use Rattle.std.specs.Prelude.{◌≡◌};
ghost use Rattle.ref_paths.specs.PayloadView.{payload_of};
ghost use Rattle.ref_paths.specs.Same.{same_payload, same_payloads, same_fields};
ghost use Rattle.ref_paths.specs.Templates.{payloads_of, named_of};

use crate::template::{Node, NodeFields, NodeList, Template};

impl PartialEq for Template {
    ghost use Rattle.std.specs.Cmp.{partial_equiv_from_equiv};
    ghost use Rattle.ref_paths.specs.Same.{same_payload, exact_equiv, payload_exact};

    ghost eq = { same_payload };

    ghost laws = { partial_equiv_from_equiv (exact_equiv same_payload payload_exact) };

    fn eq(&self, other: &Template) -> bool {
        same_node(&self.root, &other.root)
    }
}

impl Eq for Template {
    ghost use Rattle.ref_paths.specs.Same.{same_payload, exact_equiv, payload_exact};

    ghost laws = { exact_equiv same_payload payload_exact };
}

#[cycle(same_node)]
fn same_node(a: &Node, b: &Node) -> bool
    ensures { result ≡ same_payload (payload_of a.now) (payload_of b.now) }
{
    match (a, b) {
        (Node::Literal(x), Node::Literal(y)) => x == y,
        (Node::Input(x), Node::Input(y)) => x == y,
        (Node::ItemIndex, Node::ItemIndex) => true,
        (Node::Item(x), Node::Item(y)) => x == y,
        (Node::List(x), Node::List(y)) => same_list(x, y),
        (Node::Fields(x), Node::Fields(y)) => same_fields(x, y),
        _ => false,
    }
}

#[cycle(same_node)]
fn same_list(a: &NodeList, b: &NodeList) -> bool
    ensures { result ≡ same_payloads (payloads_of a.now) (payloads_of b.now) }
{
    let mut rest = b.inner.iter();
    for x in &a.inner {
        let Some(y) = rest.next() else {
            return false;
        };
        if !same_node(x, y) {
            return false;
        }
    }
    rest.next().is_none()
}

#[cycle(same_node)]
fn same_fields(a: &NodeFields, b: &NodeFields) -> bool
    ensures { result ≡ same_fields (named_of a.now) (named_of b.now) }
{
    let mut rest = b.inner.iter();
    for x in &a.inner {
        let Some(y) = rest.next() else {
            return false;
        };
        if x.name != y.name || !same_node(&x.value, &y.value) {
            return false;
        }
    }
    rest.next().is_none()
}
