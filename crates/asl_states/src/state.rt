// What all states are made of, and the states that hold no machines (Amazon States Language, "State Types").
use crate::choice::Rules;
use asl_errors::ErrorHandling;
use asl_fields::paths::{RefPath, Template};
use json_tree::{Json, Text};

/// Where the execution goes after a state ("Transitions").
#[derive(Debug, Drop)]
pub enum Transition {
    Next(Text),
    End,
}

/// What a state makes of its input and its result ("Input and Output Processing"). A path is `None` where `null` stands,
/// and `$` where none does. A state's type decides which of these it may have; the others are as where none stands.
#[derive(Debug, Drop)]
pub struct Processing {
    pub input_path: Option<RefPath>,
    pub parameters: Option<Template>,
    pub result_selector: Option<Template>,
    pub result_path: Option<RefPath>,
    pub output_path: Option<RefPath>,
}

/// A Pass state: its result is `result`, or its effective input where there is none ("Pass State").
#[derive(Debug, Drop)]
pub struct Pass {
    pub processing: Processing,
    pub result: Option<Json>,
    pub transition: Transition,
}

/// A call of DynamoDB that a Task makes.
#[derive(Clone, Copy, Debug, PartialEq, Eq)]
pub enum Resource {
    GetItem,
    PutItem,
    DeleteItem,
}

/// A Task state ("Task State").
#[derive(Debug, Drop)]
pub struct Task {
    pub resource: Resource,
    pub processing: Processing,
    pub errors: ErrorHandling,
    pub transition: Transition,
}

/// A Choice state: it goes where its first rule whose test holds says, else to `default` ("Choice State").
#[derive(Debug, Drop)]
pub struct Choice {
    pub processing: Processing,
    pub rules: Rules,
    pub default: Option<Text>,
}

/// A Wait state, which goes on at once ("Wait State").
#[derive(Debug, Drop)]
pub struct Wait {
    pub processing: Processing,
    pub transition: Transition,
}

/// A Succeed state ("Succeed State").
#[derive(Debug, Drop)]
pub struct Succeed {
    pub processing: Processing,
}

/// A Fail state ("Fail State"). A text that is absent is empty.
#[derive(Debug, Drop)]
pub struct Fail {
    pub error: Text,
    pub cause: Text,
}
