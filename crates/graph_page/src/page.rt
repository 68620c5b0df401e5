// The whole page: its head, a table for who has no script, the answers, and the viewer.
ghost use Rattle.std.specs.Prelude.{IfOk};
ghost use Rattle.graph_page.specs.Markup.{GrowsText, IsWhole};

use crate::markup::Markup;
use crate::table::write_table;
use json_tree::{Json, JsonFields, Text};
use std::alloc::{AllocError, Global};

const BEGIN: &str = "<!DOCTYPE html>\n<html lang=\"en\">\n";

const HEAD: &str = "<head>\n<meta charset=\"utf-8\">\n";

const POLICY: &str =
    "<meta http-equiv=\"Content-Security-Policy\" content=\"default-src 'none'; script-src 'sha256-";

const POLICY_END: &str =
    "'; img-src data:; base-uri 'none'; form-action 'none'; require-trusted-types-for 'script'\">\n";

const VIEWPORT: &str = "<meta name=\"viewport\" content=\"width=device-width, initial-scale=1\">\n";

const STYLE: &str = "</title>\n<link rel=\"icon\" href=\"data:,\">\n<style>";

const END: &str = "</body>\n</html>\n";

/// What a page is made of.
#[derive(Drop)]
pub struct PageParts<'a> {
    /// The journal's name, for the title.
    pub name: &'a str,
    /// The step at which the page opens.
    pub show: Option<&'a str>,
    /// The answers to `list`, `machines`, and `steps` for all remaining steps.
    pub list: &'a Json,
    pub machines: &'a Json,
    pub steps: &'a Json,
    /// The viewer, in parts that are written one behind the other: JavaScript and CSS without an end tag of theirs.
    pub script: &'a [&'static str],
    pub style: &'a [&'static str],
}

/// The page of these answers. Takes time and memory in their size.
///
/// # Errors
///
/// `AllocError` if memory is refused.
pub fn page_of(alloc: Global, parts: &PageParts<'_>) -> Result<Vec<u8>, AllocError>
    ensures { IfOk result (λ page. IsWhole page.items) }
{
    let mut html = Markup::new(alloc);
    html.tags(BEGIN)?;
    write_whole(&mut html, alloc, parts)?;
    html.tags(END)?;
    Ok(html.into_bytes())
}

/// All that is between the beginning and the end.
fn write_whole(html: &mut Markup, alloc: Global, parts: &PageParts<'_>) -> Result<(), AllocError>
    ensures { GrowsText result html.old html.new }
{
    write_head(html, parts)?;
    write_fallback(html, alloc, parts)?;
    write_data(html, alloc, parts)?;
    html.tags("<script>")?;
    html.all_tags(parts.script)?;
    html.tags("</script>\n")
}

fn write_head(html: &mut Markup, parts: &PageParts<'_>) -> Result<(), AllocError>
    ensures { GrowsText result html.old html.new }
{
    html.tags(HEAD)?;
    write_policy(html, parts)?;
    html.tags(VIEWPORT)?;
    write_style(html, parts)?;
    html.tags("</style>\n</head>\n<body>\n")
}

/// What the page may load and run: nothing but its own script and style.
fn write_policy(html: &mut Markup, parts: &PageParts<'_>) -> Result<(), AllocError>
    ensures { GrowsText result html.old html.new }
{
    html.tags(POLICY)?;
    html.digest(parts.script)?;
    html.tags("'; style-src 'sha256-")?;
    html.digest(parts.style)?;
    html.tags(POLICY_END)
}

fn write_style(html: &mut Markup, parts: &PageParts<'_>) -> Result<(), AllocError>
    ensures { GrowsText result html.old html.new }
{
    html.tags("<title>")?;
    write_title(html, parts)?;
    html.tags(STYLE)?;
    html.all_tags(parts.style)
}

/// The journal's name, and the step at which the page opens.
fn write_title(html: &mut Markup, parts: &PageParts<'_>) -> Result<(), AllocError>
    ensures { GrowsText result html.old html.new }
{
    html.text(parts.name.as_bytes())?;
    match parts.show {
        Some(step) => {
            html.tags(": ")?;
            html.text(step.as_bytes())
        }
        None => html.tags(""),
    }
}

/// The steps as a table, for who has no script.
fn write_fallback(html: &mut Markup, alloc: Global, parts: &PageParts<'_>) -> Result<(), AllocError>
    ensures { GrowsText result html.old html.new }
{
    html.tags("<noscript>\n<h1>")?;
    write_title(html, parts)?;
    html.tags("</h1>\n")?;
    write_table(html, alloc, parts.steps)?;
    html.tags("</noscript>\n")
}

/// The answers, for the script.
fn write_data(html: &mut Markup, alloc: Global, parts: &PageParts<'_>) -> Result<(), AllocError>
    ensures { GrowsText result html.old html.new }
{
    let data = data_of(alloc, parts)?;
    html.tags("<script type=\"application/json\" id=\"book\">")?;
    html.data(&data)?;
    drop(data);
    html.tags("</script>\n")
}

/// One object with all answers, which it shares.
fn data_of(alloc: Global, parts: &PageParts<'_>) -> Result<Json, AllocError> {
    let show = match parts.show {
        Some(step) => Json::Text(Text::new(alloc, step)?),
        None => Json::Null,
    };
    let mut data = JsonFields::new(alloc);
    drop(data.insert(Text::new(alloc, "list")?, parts.list.copy()?)?);
    drop(data.insert(Text::new(alloc, "machines")?, parts.machines.copy()?)?);
    let name = Json::Text(Text::new(alloc, parts.name)?);
    drop(data.insert(Text::new(alloc, "name")?, name)?);
    drop(data.insert(Text::new(alloc, "show")?, show)?);
    drop(data.insert(Text::new(alloc, "steps")?, parts.steps.copy()?)?);
    Ok(Json::Fields(data))
}
