// A picture as Graphviz reads it.
use crate::barriers::write_barriers;
use crate::cutting::{is_longer, shown};
use crate::page::Page;
use crate::picture::{Look, Picture};
use book_events::{Fact, StepRecords};
use std::alloc::{AllocError, Global};
use step_graph::{Edge, Reason, reason_word, record_at};
use step_names::ThreadName;

const HEAD: &str =
    "digraph rollback {\n  newrank=true;\n  node [shape=box, fontname=\"monospace\"];\n  edge [fontname=\"monospace\", fontsize=10];\n";

/// The most characters of a key in a label, and in what is shown to who points at one: Graphviz takes no longer texts.
const LABEL: usize = 200;

const TOOLTIP: usize = 4_000;

/// The picture of these steps. Takes time in what is shown.
pub(crate) fn write_dot(
    page: &mut Page,
    alloc: Global,
    records: &StepRecords,
    picture: &Picture,
) -> Result<(), AllocError> {
    page.word(HEAD)?;
    write_clusters(page, alloc, records, picture)?;
    for edge in &picture.edges {
        if !matches!(edge.reason, Reason::Bound) {
            write_edge(page, alloc, records, *edge)?;
        }
    }
    write_barriers(page, alloc, records, picture)?;
    page.word("}\n")
}

/// A cluster for each execution, and in it one for each of its threads. Threads are in the order of their names, so those of an
/// execution stand together.
fn write_clusters(
    page: &mut Page,
    alloc: Global,
    records: &StepRecords,
    picture: &Picture,
) -> Result<(), AllocError> {
    let mut before: Option<&ThreadName> = None;
    for (name, places) in picture.threads.iter() {
        if is_other_execution(before, name) {
            if before.is_some() {
                page.word("  }\n")?;
            }
            begin_execution(page, name)?;
        }
        before = Some(name);
        begin_thread(page, alloc, name)?;
        for place in places {
            write_node(page, alloc, records, picture, *place)?;
        }
        page.word("    }\n")?;
    }
    if before.is_some() {
        page.word("  }\n")?;
    }
    Ok(())
}

fn is_other_execution(before: Option<&ThreadName>, name: &ThreadName) -> bool {
    match before {
        Some(before) => before.exec() != name.exec(),
        None => true,
    }
}

fn begin_execution(page: &mut Page, name: &ThreadName) -> Result<(), AllocError> {
    page.word("  subgraph \"cluster execution ")?;
    page.word(name.exec())?;
    page.word("\" {\n    label=\"")?;
    page.word(name.exec())?;
    page.word("\";\n")
}

fn begin_thread(page: &mut Page, alloc: Global, name: &ThreadName) -> Result<(), AllocError> {
    page.word("    subgraph \"cluster thread ")?;
    page.thread(alloc, name)?;
    page.word("\" {\n      label=\"")?;
    page.thread(alloc, name)?;
    page.word("\";\n")
}

fn write_node(
    page: &mut Page,
    alloc: Global,
    records: &StepRecords,
    picture: &Picture,
    place: usize,
) -> Result<(), AllocError> {
    let Some(kept) = record_at(records, place) else {
        return Ok(());
    };
    page.word("      \"")?;
    page.step(alloc, &kept.fact.name)?;
    page.word("\" [label=\"")?;
    page.step(alloc, &kept.fact.name)?;
    page.word("\\n")?;
    write_kind(page, alloc, &kept.fact)?;
    page.word(look_words(picture.look(place)))?;
    page.word("];\n")
}

/// What a step is, and the end of the quotes; if that is too long for a label, more of it for who points there.
fn write_kind(page: &mut Page, alloc: Global, fact: &Fact) -> Result<(), AllocError> {
    let mut kind = Page::new(alloc);
    kind.kind(alloc, fact)?;
    let text = kind.as_text();
    page.dot(shown(alloc, text, LABEL)?.as_str())?;
    page.word("\"")?;
    if is_longer(text, LABEL) {
        page.word(", tooltip=\"")?;
        page.dot(shown(alloc, text, TOOLTIP)?.as_str())?;
        page.word("\"")?;
    }
    Ok(())
}

fn look_words(look: Look) -> &'static str {
    match look {
        Look::Asked => ", style=filled, fillcolor=\"#f4a582\", penwidth=2",
        Look::Following => ", style=filled, fillcolor=\"#fddbc7\"",
        Look::Other => "",
    }
}

fn write_edge(
    page: &mut Page,
    alloc: Global,
    records: &StepRecords,
    edge: Edge,
) -> Result<(), AllocError> {
    let (Some(earlier), Some(later)) = (
        record_at(records, edge.earlier),
        record_at(records, edge.later),
    ) else {
        return Ok(());
    };
    page.word("  \"")?;
    page.step(alloc, &earlier.fact.name)?;
    page.word("\" -> \"")?;
    page.step(alloc, &later.fact.name)?;
    page.word("\" [label=\"")?;
    write_reason(page, alloc, &later.fact, edge.reason)?;
    page.word("\"];\n")
}

/// The name of a reason, and the key of an item that two steps share.
fn write_reason(
    page: &mut Page,
    alloc: Global,
    later: &Fact,
    reason: Reason,
) -> Result<(), AllocError> {
    page.word(reason_word(reason))?;
    match (reason, &later.access) {
        (Reason::Item, Some(access)) => {
            let mut key = Page::new(alloc);
            key.key(alloc, &access.key)?;
            page.word(" ")?;
            page.dot(shown(alloc, key.as_text(), LABEL)?.as_str())
        }
        _ => Ok(()),
    }
}
