// Equality of rules and their tests.
ghost use Rattle.std.specs.Prelude.{◌≡◌};
ghost use Rattle.asl_states.specs.TestSame.{relation_number, same_comparison, same_relation, same_test, same_tests};
ghost use Rattle.asl_states.specs.TestTree.{test_trees};
ghost use Rattle.asl_states.specs.TestView.{test_of};

use crate::choice::{Comparison, Relation, Rule, Rules, Test, Tests};

impl PartialEq for Comparison {
    ghost use Rattle.std.specs.Cmp.{partial_equiv_from_equiv};
    ghost use Rattle.asl_fields.specs.Same.{exact_equiv};
    ghost use Rattle.asl_states.specs.TestSame.{same_comparison, comparison_exact};

    ghost eq = { same_comparison };

    ghost laws = { partial_equiv_from_equiv (exact_equiv same_comparison comparison_exact) };

    fn eq(&self, other: &Comparison) -> bool {
        same_comparison(self, other)
    }
}

impl Eq for Comparison {
    ghost use Rattle.asl_fields.specs.Same.{exact_equiv};
    ghost use Rattle.asl_states.specs.TestSame.{same_comparison, comparison_exact};

    ghost laws = { exact_equiv same_comparison comparison_exact };
}

impl PartialEq for Rule {
    ghost use Rattle.std.specs.Cmp.{partial_equiv_from_equiv};
    ghost use Rattle.asl_fields.specs.Same.{exact_equiv};
    ghost use Rattle.asl_states.specs.TestSame.{same_rule, rule_exact};

    ghost eq = { same_rule };

    ghost laws = { partial_equiv_from_equiv (exact_equiv same_rule rule_exact) };

    fn eq(&self, other: &Rule) -> bool {
        same_test(&self.test, &other.test) && self.next == other.next
    }
}

impl Eq for Rule {
    ghost use Rattle.asl_fields.specs.Same.{exact_equiv};
    ghost use Rattle.asl_states.specs.TestSame.{same_rule, rule_exact};

    ghost laws = { exact_equiv same_rule rule_exact };
}

impl PartialEq for Rules {
    ghost use Rattle.std.specs.Cmp.{partial_equiv_from_equiv};
    ghost use Rattle.asl_fields.specs.Same.{exact_equiv};
    ghost use Rattle.asl_states.specs.TestSame.{same_rule, rules_exact};
    ghost use lib.Pointwise.{pointwise};

    ghost eq = { pointwise same_rule };

    ghost laws = { partial_equiv_from_equiv (exact_equiv (pointwise same_rule) rules_exact) };

    fn eq(&self, other: &Rules) -> bool {
        self.inner == other.inner
    }
}

impl Eq for Rules {
    ghost use Rattle.asl_fields.specs.Same.{exact_equiv};
    ghost use Rattle.asl_states.specs.TestSame.{same_rule, rules_exact};
    ghost use lib.Pointwise.{pointwise};

    ghost laws = { exact_equiv (pointwise same_rule) rules_exact };
}

fn number_of(relation: Relation) -> u8
    ensures { result ≡ relation_number relation }
{
    match relation {
        Relation::Equals => 0,
        Relation::Less => 1,
        Relation::Greater => 2,
        Relation::LessOrEqual => 3,
        Relation::GreaterOrEqual => 4,
    }
}

fn same_relation(a: Relation, b: Relation) -> bool
    ensures { result ≡ same_relation a b }
{
    number_of(a) == number_of(b)
}

fn same_comparison(a: &Comparison, b: &Comparison) -> bool
    ensures { result ≡ same_comparison a.now b.now }
{
    match (a, b) {
        (Comparison::Text(relation, text), Comparison::Text(to, other)) => {
            same_relation(*relation, *to) && text == other
        }
        (Comparison::Number(relation, number), Comparison::Number(to, other)) => {
            same_relation(*relation, *to) && *number == *other
        }
        (Comparison::Boolean(x), Comparison::Boolean(y))
        | (Comparison::IsNull(x), Comparison::IsNull(y))
        | (Comparison::IsPresent(x), Comparison::IsPresent(y))
        | (Comparison::IsNumeric(x), Comparison::IsNumeric(y))
        | (Comparison::IsString(x), Comparison::IsString(y))
        | (Comparison::IsBoolean(x), Comparison::IsBoolean(y)) => *x == *y,
        _ => false,
    }
}

#[cycle(same_test)]
fn same_test(a: &Test, b: &Test) -> bool
    ensures { result ≡ same_test (test_of a.now) (test_of b.now) }
{
    match (a, b) {
        (Test::And(x), Test::And(y)) => same_tests(x, y),
        (Test::Or(x), Test::Or(y)) => same_tests(x, y),
        (Test::Not(x), Test::Not(y)) => same_test(&x.inner, &y.inner),
        (Test::Compare(path, comparison), Test::Compare(other, to)) => {
            path == other && same_comparison(comparison, to)
        }
        _ => false,
    }
}

#[cycle(same_test)]
fn same_tests(a: &Tests, b: &Tests) -> bool
    ensures { result ≡ same_tests (test_trees a.now) (test_trees b.now) }
{
    let mut rest = b.inner.iter();
    for x in &a.inner {
        let Some(y) = rest.next() else {
            return false;
        };
        if !same_test(x, y) {
            return false;
        }
    }
    rest.next().is_none()
}
