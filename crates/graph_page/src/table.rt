// The steps as a table, for who has no script.
ghost use Rattle.graph_page.specs.Markup.{GrowsText};

use crate::markup::Markup;
use json_tree::{Json, write_text};
use std::alloc::{AllocError, Global};

const HEAD: &str =
    "<table>\n<tr><th>Step</th><th>Kind</th><th>State</th><th>Key</th><th>Went to</th><th>Depends on</th></tr>\n";

/// The steps of an answer, one in a row.
pub(crate) fn write_table(html: &mut Markup, alloc: Global, steps: &Json) -> Result<(), AllocError>
    ensures { GrowsText result html.old html.new }
{
    html.tags(HEAD)?;
    write_rows(html, alloc, list_in(steps, "steps"))?;
    html.tags("</table>\n")
}

fn write_rows(html: &mut Markup, alloc: Global, rows: &[Json]) -> Result<(), AllocError>
    ensures { GrowsText result html.old html.new }
{
    for row in rows {
        write_row(html, alloc, row)?;
    }
    Ok(())
}

fn write_row(html: &mut Markup, alloc: Global, row: &Json) -> Result<(), AllocError>
    ensures { GrowsText result html.old html.new }
{
    html.tags("<tr><td>")?;
    write_name(html, alloc, row)?;
    write_key(html, alloc, row)?;
    write_outcome(html, alloc, field(row, "outcome"))?;
    write_causes(html, alloc, list_in(row, "on"))?;
    html.tags("</td></tr>\n")
}

/// The cells of a step's name, kind and state.
fn write_name(html: &mut Markup, alloc: Global, row: &Json) -> Result<(), AllocError>
    ensures { GrowsText result html.old html.new }
{
    write_cell(html, alloc, row, "step")?;
    write_cell(html, alloc, row, "kind")?;
    write_cell(html, alloc, row, "state")
}

/// A field, up to the next cell.
fn write_cell(html: &mut Markup, alloc: Global, row: &Json, name: &str) -> Result<(), AllocError>
    ensures { GrowsText result html.old html.new }
{
    write_value(html, alloc, field(row, name))?;
    html.tags("</td><td>")
}

/// The cell of what a call did to which key.
fn write_key(html: &mut Markup, alloc: Global, row: &Json) -> Result<(), AllocError>
    ensures { GrowsText result html.old html.new }
{
    match field(row, "key") {
        None | Some(Json::Null) => html.tags(""),
        Some(key) => write_access(html, alloc, row, key),
    }
}

fn write_access(html: &mut Markup, alloc: Global, row: &Json, key: &Json) -> Result<(), AllocError>
    ensures { GrowsText result html.old html.new }
{
    write_value(html, alloc, field(row, "access"))?;
    html.tags(" ")?;
    write_value(html, alloc, Some(key))
}

/// The cell of what a step went on to.
fn write_outcome(html: &mut Markup, alloc: Global, outcome: Option<&Json>) -> Result<(), AllocError>
    ensures { GrowsText result html.old html.new }
{
    html.tags("</td><td>")?;
    match outcome {
        Some(outcome) => write_going(html, alloc, outcome)?,
        None => html.tags("")?,
    }
    html.tags("</td><td>")
}

fn write_going(html: &mut Markup, alloc: Global, outcome: &Json) -> Result<(), AllocError>
    ensures { GrowsText result html.old html.new }
{
    write_value(html, alloc, field(outcome, "to"))?;
    match detail_of(outcome) {
        Some(detail) => write_detail(html, alloc, detail),
        None => html.tags(""),
    }
}

/// The state, the error or the number of branches.
fn detail_of(outcome: &Json) -> Option<&Json> {
    match field(outcome, "state") {
        Some(state) => Some(state),
        None => match field(outcome, "error") {
            Some(error) => Some(error),
            None => field(outcome, "branches"),
        },
    }
}

fn write_detail(html: &mut Markup, alloc: Global, detail: &Json) -> Result<(), AllocError>
    ensures { GrowsText result html.old html.new }
{
    html.tags(" ")?;
    write_value(html, alloc, Some(detail))
}

/// The steps on which one depends, each with its reason.
fn write_causes(html: &mut Markup, alloc: Global, causes: &[Json]) -> Result<(), AllocError>
    ensures { GrowsText result html.old html.new }
{
    for (place, cause) in causes.iter().enumerate() {
        html.tags(if place == 0 { "" } else { ", " })?;
        write_cause(html, alloc, cause)?;
    }
    Ok(())
}

fn write_cause(html: &mut Markup, alloc: Global, cause: &Json) -> Result<(), AllocError>
    ensures { GrowsText result html.old html.new }
{
    write_value(html, alloc, field(cause, "step"))?;
    html.tags(" (")?;
    write_value(html, alloc, field(cause, "reason"))?;
    html.tags(")")
}

/// A text as it is, another value as JSON, and nothing of `null`.
fn write_value(html: &mut Markup, alloc: Global, value: Option<&Json>) -> Result<(), AllocError>
    ensures { GrowsText result html.old html.new }
{
    match value {
        None | Some(Json::Null) => html.tags(""),
        Some(Json::Text(text)) => html.text(text.as_str().as_bytes()),
        Some(value) => {
            let text = write_text(alloc, value)?;
            html.text(text.as_bytes())
        }
    }
}

// ---- fields

fn field<'a>(json: &'a Json, name: &str) -> Option<&'a Json> {
    match json {
        Json::Fields(fields) => fields.get(name),
        _ => None,
    }
}

fn list_in<'a>(json: &'a Json, name: &str) -> &'a [Json] {
    match field(json, name) {
        Some(Json::List(list)) => list.as_slice(),
        _ => &[],
    }
}
