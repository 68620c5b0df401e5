// What a state does with errors (Amazon States Language, "Errors").
ghost use Rattle.std.specs.Prelude.{◌≡◌};

use asl_fields::paths::RefPath;
use json_tree::Text;
use std::marker::Model;

/// Names of errors, in the order in which they stood. Contracts see their list.
#[derive(Debug, Drop)]
pub struct ErrorNames {
    pub(crate) inner: Vec<Text>,
}

impl Model for ErrorNames {
    ghost use Rattle.std.specs.Prelude.{List, ℕ};

    ghost Value = { List (List ℕ) };

    ghost view = { λ a. a.inner.items };
}

impl ErrorNames {
    /// The names, in their order, lent.
    pub fn as_slice(&self) -> &[Text]
        ensures { result.now ≡ self.now }
    {
        self.inner.as_slice()
    }
}

/// Which errors a state is tried again after, and how often ("Retrying after error"). Waiting times are not kept.
#[derive(Debug, Drop)]
pub struct Retrier {
    pub errors: ErrorNames,
    pub max_attempts: u32,
}

/// The retriers of a state, in the order in which they are asked. Contracts see their list.
#[derive(Debug, Drop)]
pub struct Retriers {
    pub(crate) inner: Vec<Retrier>,
}

impl Model for Retriers {
    ghost use Rattle.std.specs.Prelude.{List};
    ghost use Rattle.std.specs.Coded.{codes};
    ghost use Rattle.asl_errors.specs.declared.errors.Retrier.{Retrier};
    ghost use Rattle.asl_errors.specs.contracts.errors.Retrier as retrier;

    ghost Value = { List Retrier };

    ghost coded = { Prim.hlevel (codes, retrier.the_row.coded) };

    ghost view = { λ a. a.inner.items };
}

impl Retriers {
    /// The retriers, in their order, lent.
    pub fn as_slice(&self) -> &[Retrier]
        ensures { result.now ≡ self.now }
    {
        self.inner.as_slice()
    }
}

/// Where a state goes after certain errors, and where the error is placed: `result_path` is `None` where it is dropped
/// ("Fallback states").
#[derive(Debug, Drop)]
pub struct Catcher {
    pub errors: ErrorNames,
    pub next: Text,
    pub result_path: Option<RefPath>,
}

/// The catchers of a state, in the order in which they are asked. Contracts see their list.
#[derive(Debug, Drop)]
pub struct Catchers {
    pub(crate) inner: Vec<Catcher>,
}

impl Model for Catchers {
    ghost use Rattle.std.specs.Prelude.{List};
    ghost use Rattle.std.specs.Coded.{codes};
    ghost use Rattle.asl_errors.specs.declared.errors.Catcher.{Catcher};
    ghost use Rattle.asl_errors.specs.contracts.errors.Catcher as catcher;

    ghost Value = { List Catcher };

    ghost coded = { Prim.hlevel (codes, catcher.the_row.coded) };

    ghost view = { λ a. a.inner.items };
}

impl Catchers {
    /// The catchers, in their order, lent.
    pub fn as_slice(&self) -> &[Catcher]
        ensures { result.now ≡ self.now }
    {
        self.inner.as_slice()
    }
}

/// What a state does with errors: none of its retriers and catchers stands for an error that they don't name.
#[derive(Debug, Drop)]
pub struct ErrorHandling {
    pub retriers: Retriers,
    pub catchers: Catchers,
}
