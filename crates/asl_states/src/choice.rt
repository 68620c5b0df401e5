// The rules of a Choice state (Amazon States Language, "Choice State").
ghost use Rattle.std.specs.Prelude.{◌≡◌};
ghost use Rattle.asl_states.specs.TestView.{test_of, tests_of};

use asl_fields::paths::RefPath;
use json_tree::Text;
use std::marker::Model;

/// How two texts, or two numbers, are to stand to each other, the one that is picked first.
#[derive(Clone, Copy, Debug, PartialEq, Eq)]
pub enum Relation {
    Equals,
    Less,
    Greater,
    LessOrEqual,
    GreaterOrEqual,
}

/// What is asked of the value that a test's variable picks ("Data-Test Expression").
#[derive(Debug, Drop)]
pub enum Comparison {
    /// It is a text that stands so to this one, by their bytes.
    Text(Relation, Text),
    /// It is a number that stands so to this one.
    Number(Relation, i64),
    /// It is this boolean.
    Boolean(bool),
    /// Whether it is null is as this says; and so on for the others.
    IsNull(bool),
    IsPresent(bool),
    IsNumeric(bool),
    IsString(bool),
    IsBoolean(bool),
}

/// A test of a rule ("Boolean expression", "Data-Test Expression").
#[cycle(tests)]
#[derive(Debug, Drop)]
pub enum Test {
    And(Tests),
    Or(Tests),
    Not(InnerTest),
    /// What is asked of the value that the path, the test's `Variable`, picks.
    Compare(RefPath, Comparison),
}

/// The tests of an `And` or an `Or`, in the order in which they stood. Contracts see the list of their trees.
#[cycle(tests)]
#[derive(Debug, Drop)]
pub struct Tests {
    pub(crate) inner: Vec<Test>,
}

impl Model for Tests {
    ghost use Rattle.std.specs.Prelude.{List};
    ghost use Rattle.asl_states.specs.TestTree.{TestTree, tests_depth};
    ghost use Rattle.asl_states.specs.TestCode.{tests_code};

    ghost Value = { List TestTree };

    ghost coded = { tests_code };

    ghost use Rattle.asl_states.specs.TestView.{tests_of};

    ghost view = { λ a. tests_of a.inner.items };

    ghost size = { tests_depth };

    ghost use Rattle.asl_states.specs.TestFalls.{tests_fall};

    ghost size_decreases = { λ a h. tests_fall a.inner.items };
}

impl Tests {
    /// The tests, in their order, lent.
    pub fn as_slice(&self) -> &[Test]
        ensures { tests_of result.now ≡ self.now }
    {
        self.inner.as_slice()
    }
}

/// The test under a `Not`. Contracts see its tree.
#[cycle(tests)]
#[derive(Debug, Drop)]
pub struct InnerTest {
    pub(crate) inner: Box<Test>,
}

impl Model for InnerTest {
    ghost use Rattle.asl_states.specs.TestTree.{TestTree, test_depth};
    ghost use Rattle.asl_states.specs.TestCode.{test_code};

    ghost Value = { TestTree };

    ghost coded = { test_code };

    ghost use Rattle.asl_states.specs.TestView.{test_of};

    ghost view = { λ a. test_of a.inner.value };

    ghost size = { test_depth };

    ghost use Rattle.asl_states.specs.TestFalls.{inner_falls};

    ghost size_decreases = { λ a h. inner_falls a.inner.value };
}

impl InnerTest {
    /// The test, lent.
    pub fn test(&self) -> &Test
        ensures { test_of result.now ≡ self.now }
    {
        &self.inner
    }
}

/// A rule of a Choice state: where its test holds, the state goes to `next`.
#[derive(Debug, Drop)]
pub struct Rule {
    pub test: Test,
    pub next: Text,
}

/// The rules of a Choice state, in the order in which they are asked. Contracts see their list.
#[derive(Debug, Drop)]
pub struct Rules {
    pub(crate) inner: Vec<Rule>,
}

impl Model for Rules {
    ghost use Rattle.std.specs.Prelude.{List};
    ghost use Rattle.std.specs.Coded.{codes};
    ghost use Rattle.asl_states.specs.declared.choice.Rule.{Rule};
    ghost use Rattle.asl_states.specs.contracts.choice.Rule as rule;

    ghost Value = { List Rule };

    ghost coded = { Prim.hlevel (codes, rule.the_row.coded) };

    ghost view = { λ a. a.inner.items };
}

impl Rules {
    /// The rules, in their order, lent.
    pub fn as_slice(&self) -> &[Rule]
        ensures { result.now ≡ self.now }
    {
        self.inner.as_slice()
    }
}
