// Equality of levels: the machine's name is compared first, and the way inwards step by step.
use crate::level::{Level, LevelPath, LevelStep};

impl PartialEq for LevelStep {
    ghost use Rattle.std.specs.Cmp.{partial_equiv_from_equiv};
    ghost use Rattle.asl_states.specs.PathSame.{exact_equiv};
    ghost use Rattle.asl_tree.specs.LevelSame.{same_level_step, level_step_exact};

    ghost eq = { same_level_step };

    ghost laws = { partial_equiv_from_equiv (exact_equiv same_level_step level_step_exact) };

    fn eq(&self, other: &LevelStep) -> bool {
        self.branch == other.branch && self.state == other.state
    }
}

impl Eq for LevelStep {
    ghost use Rattle.asl_states.specs.PathSame.{exact_equiv};
    ghost use Rattle.asl_tree.specs.LevelSame.{same_level_step, level_step_exact};

    ghost laws = { exact_equiv same_level_step level_step_exact };
}

impl PartialEq for LevelPath {
    ghost use Rattle.std.specs.Cmp.{partial_equiv_from_equiv};
    ghost use Rattle.asl_states.specs.PathSame.{exact_equiv};
    ghost use Rattle.asl_tree.specs.LevelSame.{same_level_path, level_path_exact};

    ghost eq = { same_level_path };

    ghost laws = { partial_equiv_from_equiv (exact_equiv same_level_path level_path_exact) };

    fn eq(&self, other: &LevelPath) -> bool {
        self.as_slice() == other.as_slice()
    }
}

impl Eq for LevelPath {
    ghost use Rattle.asl_states.specs.PathSame.{exact_equiv};
    ghost use Rattle.asl_tree.specs.LevelSame.{same_level_path, level_path_exact};

    ghost laws = { exact_equiv same_level_path level_path_exact };
}

impl PartialEq for Level {
    ghost use Rattle.std.specs.Cmp.{partial_equiv_from_equiv};
    ghost use Rattle.asl_states.specs.PathSame.{exact_equiv};
    ghost use Rattle.asl_tree.specs.LevelSame.{same_level, level_exact};

    ghost eq = { same_level };

    ghost laws = { partial_equiv_from_equiv (exact_equiv same_level level_exact) };

    fn eq(&self, other: &Level) -> bool {
        self.machine == other.machine && self.path == other.path
    }
}

impl Eq for Level {
    ghost use Rattle.asl_states.specs.PathSame.{exact_equiv};
    ghost use Rattle.asl_tree.specs.LevelSame.{same_level, level_exact};

    ghost laws = { exact_equiv same_level level_exact };
}
