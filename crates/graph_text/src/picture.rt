// What a picture shows: steps by their threads, and the dependences among them.
use book_events::StepRecords;
use std::alloc::{AllocError, Global};
use std::collections::BTreeMap;
use step_graph::{Edge, Marks, edges, record_at};
use step_names::ThreadName;

/// How a step is shown in a picture.
#[derive(Clone, Copy, Debug, PartialEq, Eq)]
pub(crate) enum Look {
    /// It is the step that was asked for.
    Asked,
    /// It is a consequence of that step.
    Following,
    /// It is shown since a consequence depends on it, or since all are shown.
    Other,
}

/// The steps that are shown, by their places in their threads, and the dependences among them. A contract says nothing of it.
#[derive(Drop)]
pub(crate) struct Picture {
    /// The places of the shown steps of each thread, which ascend.
    pub(crate) threads: BTreeMap<ThreadName, Vec<usize>>,
    /// By the later step, and then by the earlier one, but for the one for which it waited, which is the last.
    pub(crate) edges: Vec<Edge>,
    from: Option<usize>,
    marks: Option<Marks>,
}

impl Picture {
    /// All steps, or the one at a place with its consequences and the nearest steps on which these depend. Takes time in the number of
    /// records and, logarithms aside, of what is shown; memory for each step and dependence shown, and each thread and key.
    pub(crate) fn new(
        alloc: Global,
        records: &StepRecords,
        from: Option<usize>,
    ) -> Result<Picture, AllocError> {
        let marks = consequences(alloc, records, from)?;
        let edges = edges(alloc, records, marks.as_ref())?;
        let threads = match &marks {
            Some(marks) => by_thread(
                alloc,
                records,
                Some(&shown(alloc, marks, records, edges.as_slice())?),
            )?,
            None => by_thread(alloc, records, None)?,
        };
        Ok(Picture {
            threads,
            edges,
            from,
            marks,
        })
    }

    /// Whether a place is that of the step that was asked for or of a consequence.
    pub(crate) fn is_marked(&self, place: usize) -> bool {
        match &self.marks {
            Some(marks) => marks.has(place),
            None => false,
        }
    }

    /// Whether the dependences of the step at a place are shown.
    pub(crate) fn is_explained(&self, place: usize) -> bool {
        match &self.marks {
            Some(marks) => marks.has(place),
            None => true,
        }
    }

    /// How the step at a place is shown.
    pub(crate) fn look(&self, place: usize) -> Look {
        if self.from == Some(place) {
            return Look::Asked;
        }
        if self.is_marked(place) {
            Look::Following
        } else {
            Look::Other
        }
    }
}

/// The marks of a step and its consequences.
fn consequences(
    alloc: Global,
    records: &StepRecords,
    from: Option<usize>,
) -> Result<Option<Marks>, AllocError> {
    let Some(from) = from else {
        return Ok(None);
    };
    let mut marks = Marks::new(alloc, records.len())?;
    if from < records.len() {
        let plan = records.plan(alloc, from)?;
        for place in plan.places() {
            marks.mark(*place);
        }
    }
    Ok(Some(marks))
}

/// The marked places, and those on which they depend.
fn shown(
    alloc: Global,
    marks: &Marks,
    records: &StepRecords,
    edges: &[Edge],
) -> Result<Marks, AllocError> {
    let count = records.len();
    let mut shown = Marks::new(alloc, count)?;
    for place in 0..count {
        if marks.has(place) {
            shown.mark(place);
        }
    }
    for edge in edges {
        shown.mark(edge.earlier);
    }
    Ok(shown)
}

/// The shown places, by their threads.
fn by_thread(
    alloc: Global,
    records: &StepRecords,
    shown: Option<&Marks>,
) -> Result<BTreeMap<ThreadName, Vec<usize>>, AllocError> {
    let mut threads = BTreeMap::new(alloc);
    for place in 0..records.len() {
        if is_shown(shown, place) {
            put(alloc, &mut threads, records, place)?;
        }
    }
    Ok(threads)
}

fn is_shown(shown: Option<&Marks>, place: usize) -> bool {
    match shown {
        Some(shown) => shown.has(place),
        None => true,
    }
}

fn put(
    alloc: Global,
    threads: &mut BTreeMap<ThreadName, Vec<usize>>,
    records: &StepRecords,
    place: usize,
) -> Result<(), AllocError> {
    let Some(kept) = record_at(records, place) else {
        return Ok(());
    };
    let name = &kept.fact.name.thread;
    if let Some(places) = threads.get_mut(name) {
        places.push(place)?;
        return Ok(());
    }
    let mut places = Vec::new(alloc);
    places.push(place)?;
    threads.insert(name.copy()?, places)?;
    Ok(())
}
