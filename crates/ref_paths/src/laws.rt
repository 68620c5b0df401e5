//! Laws of picking, placing and filling: each call does nothing, and its contract is the law.

ghost use Rattle.ref_paths.specs.Composition.{DepthIsTold};
ghost use Rattle.ref_paths.specs.Laws.{PlacedIsPicked, ElsewhereStays, PlacedAtRoot, TextsSpellOnePath};
ghost use Rattle.ref_paths.specs.TemplateLaws.{FieldsAreFilled, UnmarkedStays, ValuesAreOneTemplate};

/// What was placed is picked again by the same path.
pub fn placed_is_picked()
    ensures { PlacedIsPicked }
{}

/// What a path picks that leads elsewhere than the one that places stays as it was.
pub fn elsewhere_stays()
    ensures { ElsewhereStays }
{}

/// A path and the value tell whether a root nests deeper with it than it may.
pub fn depth_is_told()
    ensures { DepthIsTold }
{}

/// Placing at `$` gives the placed value.
pub fn placed_at_root()
    ensures { PlacedAtRoot }
{}

/// A text spells one path at most, so that what is read of it is that path.
pub fn texts_spell_one_path()
    ensures { TextsSpellOnePath }
{}

/// A value without fields that end with `.$` is a template, and is filled to itself.
pub fn unmarked_stays()
    ensures { UnmarkedStays }
{}

/// A value is one template at most, so that what is read of it is that template.
pub fn values_are_one_template()
    ensures { ValuesAreOneTemplate }
{}

/// Where an object is filled, each of its fields has become one: under its name without `.$`, with what its path picks, or
/// under its name, with what its value is filled to.
pub fn fields_are_filled()
    ensures { FieldsAreFilled }
{}
