//! Tests of whole builds: of a plan and of listeners (`gb_exec`), of events and invocations
//! (`gb_build`), of builds that keep their calls (`gb_answers`), of command lines (`gb_cli`,
//! `gb_ask_command`), and of replays that do not read all their lines (`gb_lines`; the run of
//! `gb_replay` makes the others); and of a site with kinds of one's own. They are in one separate
//! crate, so that neither the proofs of these crates nor the compilation of the sources of a
//! whole-build test is paid for more than once.
//!
//! Set aside: tests of what a contract says, since the gate pays for a test as for any function;
//! and wrong edits, since the gate tries an edit on a crate without its tests.
#![tactic(auto)]

#[cfg(test)]
mod asking;
#[cfg(test)]
mod building;
#[cfg(test)]
mod checking;
#[cfg(test)]
mod commanding;
#[cfg(test)]
mod damaging;
#[cfg(test)]
mod disturbing;
#[cfg(test)]
mod ending;
#[cfg(test)]
mod executing;
#[cfg(test)]
mod functions;
#[cfg(test)]
mod granting;
#[cfg(test)]
mod hearing;
#[cfg(test)]
mod listening;
#[cfg(test)]
mod logging;
#[cfg(test)]
mod notifying;
#[cfg(test)]
mod noting;
#[cfg(test)]
mod offering;
#[cfg(test)]
mod printing;
#[cfg(test)]
mod site;
#[cfg(test)]
mod stopping;
#[cfg(test)]
mod versions;
#[cfg(test)]
mod why;
