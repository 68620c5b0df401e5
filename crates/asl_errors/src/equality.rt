// Equality of what states do with errors.
use crate::errors::{Catcher, Catchers, ErrorHandling, ErrorNames, Retrier, Retriers};

impl PartialEq for ErrorNames {
    ghost use Rattle.std.specs.Cmp.{partial_equiv_from_equiv};
    ghost use Rattle.asl_fields.specs.Same.{exact_equiv};
    ghost use Rattle.asl_errors.specs.Same.{same_names, names_exact};

    ghost eq = { same_names };

    ghost laws = { partial_equiv_from_equiv (exact_equiv same_names names_exact) };

    fn eq(&self, other: &ErrorNames) -> bool {
        self.inner == other.inner
    }
}

impl Eq for ErrorNames {
    ghost use Rattle.asl_fields.specs.Same.{exact_equiv};
    ghost use Rattle.asl_errors.specs.Same.{same_names, names_exact};

    ghost laws = { exact_equiv same_names names_exact };
}

impl PartialEq for Retrier {
    ghost use Rattle.std.specs.Cmp.{partial_equiv_from_equiv};
    ghost use Rattle.asl_fields.specs.Same.{exact_equiv};
    ghost use Rattle.asl_errors.specs.Same.{same_retrier, retrier_exact};

    ghost eq = { same_retrier };

    ghost laws = { partial_equiv_from_equiv (exact_equiv same_retrier retrier_exact) };

    fn eq(&self, other: &Retrier) -> bool {
        self.errors == other.errors && self.max_attempts == other.max_attempts
    }
}

impl Eq for Retrier {
    ghost use Rattle.asl_fields.specs.Same.{exact_equiv};
    ghost use Rattle.asl_errors.specs.Same.{same_retrier, retrier_exact};

    ghost laws = { exact_equiv same_retrier retrier_exact };
}

impl PartialEq for Retriers {
    ghost use Rattle.std.specs.Cmp.{partial_equiv_from_equiv};
    ghost use Rattle.asl_fields.specs.Same.{exact_equiv};
    ghost use Rattle.asl_errors.specs.Same.{same_retrier, retriers_exact};
    ghost use lib.Pointwise.{pointwise};

    ghost eq = { pointwise same_retrier };

    ghost laws = { partial_equiv_from_equiv (exact_equiv (pointwise same_retrier) retriers_exact) };

    fn eq(&self, other: &Retriers) -> bool {
        self.inner == other.inner
    }
}

impl Eq for Retriers {
    ghost use Rattle.asl_fields.specs.Same.{exact_equiv};
    ghost use Rattle.asl_errors.specs.Same.{same_retrier, retriers_exact};
    ghost use lib.Pointwise.{pointwise};

    ghost laws = { exact_equiv (pointwise same_retrier) retriers_exact };
}

impl PartialEq for Catcher {
    ghost use Rattle.std.specs.Cmp.{partial_equiv_from_equiv};
    ghost use Rattle.asl_fields.specs.Same.{exact_equiv};
    ghost use Rattle.asl_errors.specs.Same.{same_catcher, catcher_exact};

    ghost eq = { same_catcher };

    ghost laws = { partial_equiv_from_equiv (exact_equiv same_catcher catcher_exact) };

    fn eq(&self, other: &Catcher) -> bool {
        self.errors == other.errors
            && self.next == other.next
            && self.result_path == other.result_path
    }
}

impl Eq for Catcher {
    ghost use Rattle.asl_fields.specs.Same.{exact_equiv};
    ghost use Rattle.asl_errors.specs.Same.{same_catcher, catcher_exact};

    ghost laws = { exact_equiv same_catcher catcher_exact };
}

impl PartialEq for Catchers {
    ghost use Rattle.std.specs.Cmp.{partial_equiv_from_equiv};
    ghost use Rattle.asl_fields.specs.Same.{exact_equiv};
    ghost use Rattle.asl_errors.specs.Same.{same_catcher, catchers_exact};
    ghost use lib.Pointwise.{pointwise};

    ghost eq = { pointwise same_catcher };

    ghost laws = { partial_equiv_from_equiv (exact_equiv (pointwise same_catcher) catchers_exact) };

    fn eq(&self, other: &Catchers) -> bool {
        self.inner == other.inner
    }
}

impl Eq for Catchers {
    ghost use Rattle.asl_fields.specs.Same.{exact_equiv};
    ghost use Rattle.asl_errors.specs.Same.{same_catcher, catchers_exact};
    ghost use lib.Pointwise.{pointwise};

    ghost laws = { exact_equiv (pointwise same_catcher) catchers_exact };
}

impl PartialEq for ErrorHandling {
    ghost use Rattle.std.specs.Cmp.{partial_equiv_from_equiv};
    ghost use Rattle.asl_fields.specs.Same.{exact_equiv};
    ghost use Rattle.asl_errors.specs.Same.{same_handling, handling_exact};

    ghost eq = { same_handling };

    ghost laws = { partial_equiv_from_equiv (exact_equiv same_handling handling_exact) };

    fn eq(&self, other: &ErrorHandling) -> bool {
        self.retriers == other.retriers && self.catchers == other.catchers
    }
}

impl Eq for ErrorHandling {
    ghost use Rattle.asl_fields.specs.Same.{exact_equiv};
    ghost use Rattle.asl_errors.specs.Same.{same_handling, handling_exact};

    ghost laws = { exact_equiv same_handling handling_exact };
}
