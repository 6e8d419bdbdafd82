//! Tests of the parts of a build: values, folders, disks, scripts, actions and the built-in kinds,
//! files and their digests, records, and reports. They are in a crate separate from the crates that
//! they test, so that the proofs of these are not run once more, and in one crate, because each
//! crate costs the gate the time to read it.
//!
//! A test walks a table: a row is a small input and its expected result. Set aside: a function for
//! each case, since each function costs the gate; and tests of what a contract says. Arguments,
//! values of scripts, tasks and plans are tested by the replays of `bench/replays`.
#![tactic(auto)]

#[cfg(test)]
mod deciding;
#[cfg(test)]
mod disk;
#[cfg(test)]
mod explaining;
#[cfg(test)]
mod folders;
#[cfg(test)]
mod formats;
#[cfg(test)]
mod histories;
#[cfg(test)]
mod kinds;
#[cfg(test)]
mod outside_vectors;
#[cfg(test)]
mod record_texts;
#[cfg(test)]
mod reports;
#[cfg(test)]
mod sample;
#[cfg(test)]
mod scripts;
#[cfg(test)]
mod steps;
#[cfg(test)]
mod trees;
#[cfg(test)]
mod vectors;
