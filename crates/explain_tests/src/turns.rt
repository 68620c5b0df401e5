//! Turns that fail, and what is said of each, worked out by hand from docs/REFERENCE.md.
use crate::asked::asked;
use std::test::Fail;

/// A state, its input, the item of the key, and what is said.
const ROWS: &[(&str, &str, &str, &str)] = &[
    // a move that succeeds
    (r#"{"Type":"Pass","End":true}"#, "{}", "", "-"),
    (
        r#"{"Type":"Pass","InputPath":"$.a.b","End":true}"#,
        r#"{"a":{}}"#,
        "",
        r#"States.Runtime ["InputPath"] picks nothing $.a.b {"a":{}}"#,
    ),
    (
        r#"{"Type":"Pass","InputPath":"$.a","Parameters":{"k":[1,{"x.$":"$.b"}]},"End":true}"#,
        r#"{"a":{"c":1}}"#,
        "",
        r#"States.ParameterPathFailure ["Parameters","k",1,"x.$"] picks nothing $.b {"c":1}"#,
    ),
    (
        r#"{"Type":"Pass","Result":1,"ResultPath":"$.a[0]","End":true}"#,
        r#"{"a":{}}"#,
        "",
        r#"States.ResultPathMatchFailure ["ResultPath"] can't place $.a[0] {"a":{}}"#,
    ),
    (
        r#"{"Type":"Pass","Result":1,"ResultPath":"$.a","OutputPath":"$.b","End":true}"#,
        "{}",
        "",
        r#"States.Runtime ["OutputPath"] picks nothing $.b {"a":1}"#,
    ),
    // the guard is false, so the variable behind it isn't asked; the next rule's is
    (
        r#"{"Type":"Choice","Choices":[{"And":[{"Variable":"$.a","IsPresent":true},{"Variable":"$.a","NumericEquals":1}],"Next":"T"},{"Not":{"Variable":"$.b","IsNull":true},"Next":"T"}]}"#,
        "{}",
        "",
        r#"States.Runtime ["Choices",1,"Not","Variable"] picks nothing $.b {}"#,
    ),
    (
        r#"{"Type":"Choice","Choices":[{"Variable":"$.a","NumericEquals":1,"Next":"T"}]}"#,
        r#"{"a":2}"#,
        "",
        r#"States.NoChoiceMatched ["Choices"] no rule {"a":2}"#,
    ),
    (
        r#"{"Type":"Fail","Error":"Bad","Cause":"why"}"#,
        "{}",
        "",
        "Bad [] declared",
    ),
    // a Map's elements
    (
        r#"{"Type":"Map","ItemsPath":"$.l","ItemProcessor":{"StartAt":"A","States":{"A":{"Type":"Succeed"}}},"End":true}"#,
        "{}",
        "",
        r#"States.Runtime ["ItemsPath"] picks nothing $.l {}"#,
    ),
    (
        r#"{"Type":"Map","ItemsPath":"$.l","ItemProcessor":{"StartAt":"A","States":{"A":{"Type":"Succeed"}}},"End":true}"#,
        r#"{"l":7}"#,
        "",
        r#"States.Runtime ["ItemsPath"] no list 7"#,
    ),
    (
        r#"{"Type":"Map","ItemSelector":{"v.$":"$$.Map.Item.Value.x"},"ItemProcessor":{"StartAt":"A","States":{"A":{"Type":"Succeed"}}},"End":true}"#,
        r#"[{"x":1},{"y":2}]"#,
        "",
        r#"States.ParameterPathFailure ["ItemSelector","v.$"] picks nothing $$.Map.Item.Value.x {"y":2}"#,
    ),
    // calls
    (
        r#"{"Type":"Task","Resource":"arn:aws:states:::dynamodb:putItem","Parameters":{"TableName":"items","Item":{"id":{"S":"k"},"v":{"N.$":"$.v"}}},"End":true}"#,
        r#"{"v":"ten"}"#,
        "",
        r#"DynamoDB.ValidationException ["Parameters","Item","v"] v: not a number"#,
    ),
    (
        r#"{"Type":"Task","Resource":"arn:aws:states:::dynamodb:putItem","Parameters":{"TableName":"items","Item":{"id":{"S":"k"}},"Expected":{}},"End":true}"#,
        "{}",
        "",
        r#"DynamoDB.ValidationException ["Parameters","Expected"] unknown Expected"#,
    ),
    (
        r#"{"Type":"Task","Resource":"arn:aws:states:::dynamodb:getItem","Parameters":{"Key":{"id":{"S":"k"}}},"End":true}"#,
        "{}",
        "",
        r#"DynamoDB.ValidationException ["Parameters"] missing TableName"#,
    ),
    (
        r#"{"Type":"Task","Resource":"arn:aws:states:::dynamodb:deleteItem","Parameters":{"TableName":"items","Key":{"id":{"S":"k"}},"ConditionExpression":"a = :b"},"End":true}"#,
        "{}",
        "",
        r#"DynamoDB.ValidationException ["Parameters","ConditionExpression"] bad condition"#,
    ),
    (
        r#"{"Type":"Task","Resource":"arn:aws:states:::dynamodb:getItem","Parameters":{"TableName":"other","Key":{"id":{"S":"k"}}},"End":true}"#,
        "{}",
        "",
        r#"DynamoDB.ResourceNotFoundException ["Parameters","TableName"] other for items"#,
    ),
    (
        r#"{"Type":"Task","Resource":"arn:aws:states:::dynamodb:getItem","Parameters":{"TableName":"items","Key":{"id":{"N.$":"$.n"}}},"End":true}"#,
        r#"{"n":"7"}"#,
        "",
        r#"DynamoDB.ValidationException ["Parameters","Key","id"] id: a key of another type"#,
    ),
    (
        r#"{"Type":"Task","Resource":"arn:aws:states:::dynamodb:getItem","Parameters":{"TableName":"items","Key":{"id":{"S":"k"},"x":{"S":"y"}}},"End":true}"#,
        "{}",
        "",
        r#"DynamoDB.ValidationException ["Parameters","Key","x"] no key's x"#,
    ),
    (
        r#"{"Type":"Task","Resource":"arn:aws:states:::dynamodb:putItem","Parameters":{"TableName":"items","Item":{"id":{"S":"k"}},"ConditionExpression":"attribute_not_exists(id)"},"End":true}"#,
        "{}",
        r#"{"id":{"S":"k"}}"#,
        r#"DynamoDB.ConditionalCheckFailedException ["Parameters","ConditionExpression"] condition id {"id":{"S":"k"}}"#,
    ),
    (
        r#"{"Type":"Task","Resource":"arn:aws:states:::dynamodb:deleteItem","Parameters":{"TableName":"items","Key":{"id":{"S":"k"}},"ConditionExpression":"attribute_exists(id)"},"End":true}"#,
        "{}",
        "",
        r#"DynamoDB.ConditionalCheckFailedException ["Parameters","ConditionExpression"] condition without item id"#,
    ),
    // a get of an item that isn't there answers {}
    (
        r#"{"Type":"Task","Resource":"arn:aws:states:::dynamodb:getItem","Parameters":{"TableName":"items","Key":{"id":{"S":"k"}}},"ResultSelector":{"n.$":"$.Item.n.N"},"End":true}"#,
        "{}",
        "",
        r#"States.ParameterPathFailure ["ResultSelector","n.$"] picks nothing $.Item.n.N {}"#,
    ),
    // a catcher takes the error up
    (
        r#"{"Type":"Task","Resource":"arn:aws:states:::dynamodb:getItem","Parameters":{"TableName":"other","Key":{"id":{"S":"k"}}},"Catch":[{"ErrorEquals":["States.TaskFailed"],"Next":"T"}],"End":true}"#,
        "{}",
        "",
        "-",
    ),
    // a catcher takes it up, and can't place it
    (
        r#"{"Type":"Task","Resource":"arn:aws:states:::dynamodb:getItem","Parameters":{"TableName":"other","Key":{"id":{"S":"k"}}},"Catch":[{"ErrorEquals":["X"],"Next":"T"},{"ErrorEquals":["States.ALL"],"ResultPath":"$.e[0]","Next":"T"}],"End":true}"#,
        "{}",
        "",
        r#"States.ResultPathMatchFailure ["Catch",1,"ResultPath"] can't place $.e[0] {}"#,
    ),
    // a retrier takes it up
    (
        r#"{"Type":"Task","Resource":"arn:aws:states:::dynamodb:getItem","Parameters":{"TableName":"other","Key":{"id":{"S":"k"}}},"Retry":[{"ErrorEquals":["States.ALL"]}],"End":true}"#,
        "{}",
        "",
        "-",
    ),
];

#[test]
fn turns_are_explained(rt: HostRuntime) -> Result<(), Fail> {
    for &(state, input, item, want) in ROWS {
        let said = asked(rt.alloc(), state, input, item)?;
        assert_eq!(rt; said.as_str(), want);
    }
    Ok(())
}
