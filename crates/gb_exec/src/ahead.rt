//! Which files are read ahead of the execution of their task.
//!
//! A task of few files has no four to digest at a time. So while nothing is out of date, the files
//! of up to 8 tasks are read at once. Only speed depends on which tasks these are. After a change
//! all that was read ahead is read again. So no more tasks are read ahead than were found up to date
//! since the last change, or since the build began.
use crate::one_task::Build;
use gb_core::place::Place;
use gb_history::record::Record;
use gb_plan::task::{FileProperty, TaskDeclaration};
use gb_report::report::Outcome;
use std::alloc::Global;

/// At most so many tasks are read ahead.
const TASKS: usize = 8;

/// With so many places no further task is read ahead.
const PLACES: usize = 24;

/// A task with more properties or outputs, or with more files in one of them, is not read ahead.
const FEW: usize = 16;

/// How far files are read ahead.
#[derive(Drop)]
pub(crate) struct Ahead {
    /// The number of the first task whose files were not read ahead.
    until: usize,
    /// How many tasks may be read ahead.
    window: usize,
}

impl Ahead {
    /// Nothing was read ahead. If every task is to run, nothing will be.
    pub(crate) fn new(rerun: bool) -> Ahead {
        Ahead {
            until: 0,
            window: if rerun { 0 } else { 1 },
        }
    }

    /// The places whose files are to be read before the task of this number is executed, in their
    /// order: of it and of the tasks after it. There are none if it has no record or its files were
    /// read ahead, and some are left out where memory lacks.
    pub(crate) fn next<S>(
        &mut self,
        alloc: Global,
        build: &Build<'_, S>,
        index: usize,
    ) -> Vec<Place> {
        let mut places = Vec::new(alloc);
        if index < self.until || self.window < 2 || !has_record(build.records, index) {
            return places;
        }
        let end = index.saturating_add(self.window);
        self.until = add_tasks(&mut places, build, index, end);
        places.sort_unstable();
        places.dedup();
        places
    }

    /// Takes note of the outcome of a task.
    pub(crate) fn note(&mut self, outcome: &Outcome) {
        match outcome {
            Outcome::UpToDate => self.widen(),
            Outcome::Skipped | Outcome::NotRun => {}
            Outcome::NoSource | Outcome::Executed | Outcome::Failed(_) => self.close(),
        }
    }

    fn widen(&mut self) {
        if 0 < self.window && self.window < TASKS {
            self.window += 1;
        }
    }

    fn close(&mut self) {
        self.until = 0;
        if 0 < self.window {
            self.window = 1;
        }
    }
}

/// Whether the task of this number has a record.
fn has_record(records: &[Option<Record>], index: usize) -> bool {
    match records.get(index) {
        Some(record) => record.is_some(),
        None => false,
    }
}

/// Adds the places of the tasks from this number on, up to the end or until there are
/// enough. Returns the number of the first task whose places were not added.
fn add_tasks<S>(places: &mut Vec<Place>, build: &Build<'_, S>, from: usize, end: usize) -> usize {
    for index in from..end {
        if places.len() >= PLACES {
            return index;
        }
        match (build.tasks.get(index), build.records.get(index)) {
            (Some(planned), Some(Some(record))) => add_task(places, &planned.task, record),
            _ => {}
        }
    }
    end
}

/// Adds the places at which a task looks for files, if it may be up to date and has few.
fn add_task(places: &mut Vec<Place>, task: &TaskDeclaration, record: &Record) {
    if !task.runs || task.is_stale || !has_few(record) {
        return;
    }
    for output in task.outputs.as_slice().iter() {
        add(places, &output.place);
    }
    for property in task.files.as_slice().iter() {
        add_roots(places, property);
    }
}

/// Whether the record has few properties and outputs, and few files in each.
fn has_few(record: &Record) -> bool {
    record.inputs().len() <= FEW
        && record.outputs().len() <= FEW
        && record
            .inputs()
            .iter()
            .all(|prints| prints.as_slice().len() <= FEW)
        && record
            .outputs()
            .iter()
            .all(|output| output.prints.as_slice().len() <= FEW)
}

/// Adds the roots of a property, if it takes whatever is there.
fn add_roots(places: &mut Vec<Place>, property: &FileProperty) {
    if !property.include.as_slice().is_empty() {
        return;
    }
    for root in property.roots.as_slice().iter() {
        add(places, root);
    }
}

/// Adds a place, unless memory lacks.
fn add(places: &mut Vec<Place>, place: &Place) {
    if let Ok(place) = place.copy() {
        let _ = places.push(place);
    }
}
