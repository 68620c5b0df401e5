// Why one step is a consequence of another.
use crate::page::Page;
use book_events::StepRecords;
use std::alloc::{AllocError, Global};
use std::collections::VecDeque;
use step_graph::{reason_at, record_at};

/// A line for each pair of neighbours on a chain: why the later depends on the earlier. Takes time in their number.
pub(crate) fn tell_chain(
    page: &mut Page,
    alloc: Global,
    records: &StepRecords,
    chain: &VecDeque<usize>,
) -> Result<(), AllocError> {
    let mut before: Option<usize> = None;
    for place in chain.iter() {
        if let Some(earlier) = before {
            tell_reason(page, alloc, records, earlier, *place)?;
        }
        before = Some(*place);
    }
    Ok(())
}

fn tell_reason(
    page: &mut Page,
    alloc: Global,
    records: &StepRecords,
    earlier: usize,
    later: usize,
) -> Result<(), AllocError> {
    let Some(reason) = reason_at(records, earlier, later) else {
        return Ok(());
    };
    let (Some(one), Some(other)) = (record_at(records, earlier), record_at(records, later)) else {
        return Ok(());
    };
    page.because(alloc, &one.fact, &other.fact, reason)?;
    page.word("\n")
}
