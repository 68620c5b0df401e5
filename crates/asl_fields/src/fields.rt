// Which fields an object of a definition may have.
ghost use Rattle.std.specs.Prelude.{◌≡◌};
ghost use Rattle.asl_fields.specs.Fields.{field_status, is_left_out};

/// What a field's name is, where it stands.
#[derive(Clone, Copy, Debug, PartialEq, Eq)]
pub enum FieldStatus {
    /// It is read, or stepped over unread.
    Known,
    /// The language has it, and this program leaves it out.
    Unsupported,
    /// The language hasn't it there.
    Unknown,
}

/// The objects of a definition that have fields of their own.
#[derive(Clone, Copy, Debug, PartialEq, Eq)]
pub enum Place {
    Top,
    Branch,
    Processor,
    Pass,
    Task,
    Choice,
    Wait,
    Succeed,
    Fail,
    Parallel,
    Map,
    Retrier,
    Catcher,
    /// A rule of a Choice, which is a test with a `Next`.
    Rule,
    /// A test inside another.
    Test,
}

const TOP: [&str; 6] = [
    "StartAt",
    "States",
    "Comment",
    "Version",
    "TimeoutSeconds",
    "QueryLanguage",
];

const BRANCH: [&str; 4] = ["StartAt", "States", "Comment", "QueryLanguage"];

const PROCESSOR: [&str; 5] = [
    "StartAt",
    "States",
    "Comment",
    "QueryLanguage",
    "ProcessorConfig",
];

const PASS: [&str; 10] = [
    "Type",
    "Comment",
    "QueryLanguage",
    "InputPath",
    "Parameters",
    "Result",
    "ResultPath",
    "OutputPath",
    "Next",
    "End",
];

const TASK: [&str; 17] = [
    "Type",
    "Comment",
    "QueryLanguage",
    "Resource",
    "InputPath",
    "Parameters",
    "ResultSelector",
    "ResultPath",
    "OutputPath",
    "Retry",
    "Catch",
    "TimeoutSeconds",
    "TimeoutSecondsPath",
    "HeartbeatSeconds",
    "HeartbeatSecondsPath",
    "Next",
    "End",
];

const CHOICE: [&str; 7] = [
    "Type",
    "Comment",
    "QueryLanguage",
    "Choices",
    "Default",
    "InputPath",
    "OutputPath",
];

const WAIT: [&str; 11] = [
    "Type",
    "Comment",
    "QueryLanguage",
    "InputPath",
    "OutputPath",
    "Seconds",
    "Timestamp",
    "SecondsPath",
    "TimestampPath",
    "Next",
    "End",
];

const SUCCEED: [&str; 5] = [
    "Type",
    "Comment",
    "QueryLanguage",
    "InputPath",
    "OutputPath",
];

const FAIL: [&str; 5] = ["Type", "Comment", "QueryLanguage", "Error", "Cause"];

const PARALLEL: [&str; 13] = [
    "Type",
    "Comment",
    "QueryLanguage",
    "Branches",
    "InputPath",
    "Parameters",
    "ResultSelector",
    "ResultPath",
    "OutputPath",
    "Retry",
    "Catch",
    "Next",
    "End",
];

const MAP: [&str; 17] = [
    "Type",
    "Comment",
    "QueryLanguage",
    "ItemProcessor",
    "Iterator",
    "ItemsPath",
    "ItemSelector",
    "Parameters",
    "MaxConcurrency",
    "InputPath",
    "ResultSelector",
    "ResultPath",
    "OutputPath",
    "Retry",
    "Catch",
    "Next",
    "End",
];

const RETRIER: [&str; 7] = [
    "ErrorEquals",
    "MaxAttempts",
    "Comment",
    "IntervalSeconds",
    "BackoffRate",
    "MaxDelaySeconds",
    "JitterStrategy",
];

const CATCHER: [&str; 4] = ["ErrorEquals", "Next", "ResultPath", "Comment"];

const RULE: [&str; 22] = [
    "Next",
    "Comment",
    "And",
    "Or",
    "Not",
    "Variable",
    "StringEquals",
    "StringLessThan",
    "StringGreaterThan",
    "StringLessThanEquals",
    "StringGreaterThanEquals",
    "NumericEquals",
    "NumericLessThan",
    "NumericGreaterThan",
    "NumericLessThanEquals",
    "NumericGreaterThanEquals",
    "BooleanEquals",
    "IsNull",
    "IsPresent",
    "IsNumeric",
    "IsString",
    "IsBoolean",
];

const TEST: [&str; 20] = [
    "And",
    "Or",
    "Not",
    "Variable",
    "StringEquals",
    "StringLessThan",
    "StringGreaterThan",
    "StringLessThanEquals",
    "StringGreaterThanEquals",
    "NumericEquals",
    "NumericLessThan",
    "NumericGreaterThan",
    "NumericLessThanEquals",
    "NumericGreaterThanEquals",
    "BooleanEquals",
    "IsNull",
    "IsPresent",
    "IsNumeric",
    "IsString",
    "IsBoolean",
];

/// Fields of the language that are left out wherever they stand.
const LEFT_OUT: [&str; 17] = [
    "Assign",
    "Output",
    "Arguments",
    "Items",
    "Condition",
    "ItemReader",
    "ItemBatcher",
    "ResultWriter",
    "Label",
    "MaxConcurrencyPath",
    "ToleratedFailureCount",
    "ToleratedFailureCountPath",
    "ToleratedFailurePercentage",
    "ToleratedFailurePercentagePath",
    "ErrorPath",
    "CausePath",
    "Credentials",
];

/// Comparisons of a Choice rule that are left out ("Data-Test Expression").
const COMPARISONS_LEFT_OUT: [&str; 23] = [
    "StringEqualsPath",
    "StringLessThanPath",
    "StringGreaterThanPath",
    "StringLessThanEqualsPath",
    "StringGreaterThanEqualsPath",
    "NumericEqualsPath",
    "NumericLessThanPath",
    "NumericGreaterThanPath",
    "NumericLessThanEqualsPath",
    "NumericGreaterThanEqualsPath",
    "BooleanEqualsPath",
    "TimestampEquals",
    "TimestampLessThan",
    "TimestampGreaterThan",
    "TimestampLessThanEquals",
    "TimestampGreaterThanEquals",
    "TimestampEqualsPath",
    "TimestampLessThanPath",
    "TimestampGreaterThanPath",
    "TimestampLessThanEqualsPath",
    "TimestampGreaterThanEqualsPath",
    "IsTimestamp",
    "StringMatches",
];

/// What a field of this name is in an object at this place ("State Machine Structure", "State Types").
pub fn field_status_of(place: Place, name: &str) -> FieldStatus
    ensures { result ≡ field_status place name.now }
{
    let known = match place {
        Place::Top => TOP.as_slice(),
        Place::Branch => BRANCH.as_slice(),
        Place::Processor => PROCESSOR.as_slice(),
        Place::Pass => PASS.as_slice(),
        Place::Task => TASK.as_slice(),
        Place::Choice => CHOICE.as_slice(),
        Place::Wait => WAIT.as_slice(),
        Place::Succeed => SUCCEED.as_slice(),
        Place::Fail => FAIL.as_slice(),
        Place::Parallel => PARALLEL.as_slice(),
        Place::Map => MAP.as_slice(),
        Place::Retrier => RETRIER.as_slice(),
        Place::Catcher => CATCHER.as_slice(),
        Place::Rule => RULE.as_slice(),
        Place::Test => TEST.as_slice(),
    };
    if known.contains(&name) {
        FieldStatus::Known
    } else if is_left_out(name) {
        FieldStatus::Unsupported
    } else {
        FieldStatus::Unknown
    }
}

/// Whether the language has a field of this name that is left out wherever it stands.
fn is_left_out(name: &str) -> bool
    ensures { result ≡ is_left_out name.now }
{
    LEFT_OUT.contains(&name) || COMPARISONS_LEFT_OUT.contains(&name)
}
