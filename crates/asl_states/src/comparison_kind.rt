// The comparisons of a Choice rule, by their names ("Data-Test Expression").
ghost use Rattle.std.specs.Prelude.{◌≡◌};
ghost use Rattle.asl_states.specs.TestFields.{comparison_named};

use crate::choice::Relation;

/// Which comparison a field is.
#[derive(Clone, Copy, Debug, PartialEq, Eq)]
pub enum ComparisonKind {
    Text(Relation),
    Number(Relation),
    Boolean,
    IsNull,
    IsPresent,
    IsNumeric,
    IsString,
    IsBoolean,
}

/// The comparison of this name.
pub fn comparison_named(name: &str) -> Option<ComparisonKind>
    ensures { result ≡ comparison_named name.now }
{
    match name {
        "StringEquals" => Some(ComparisonKind::Text(Relation::Equals)),
        "StringLessThan" => Some(ComparisonKind::Text(Relation::Less)),
        "StringGreaterThan" => Some(ComparisonKind::Text(Relation::Greater)),
        "StringLessThanEquals" => Some(ComparisonKind::Text(Relation::LessOrEqual)),
        "StringGreaterThanEquals" => Some(ComparisonKind::Text(Relation::GreaterOrEqual)),
        "NumericEquals" => Some(ComparisonKind::Number(Relation::Equals)),
        "NumericLessThan" => Some(ComparisonKind::Number(Relation::Less)),
        "NumericGreaterThan" => Some(ComparisonKind::Number(Relation::Greater)),
        "NumericLessThanEquals" => Some(ComparisonKind::Number(Relation::LessOrEqual)),
        "NumericGreaterThanEquals" => Some(ComparisonKind::Number(Relation::GreaterOrEqual)),
        "BooleanEquals" => Some(ComparisonKind::Boolean),
        "IsNull" => Some(ComparisonKind::IsNull),
        "IsPresent" => Some(ComparisonKind::IsPresent),
        "IsNumeric" => Some(ComparisonKind::IsNumeric),
        "IsString" => Some(ComparisonKind::IsString),
        "IsBoolean" => Some(ComparisonKind::IsBoolean),
        _ => None,
    }
}
