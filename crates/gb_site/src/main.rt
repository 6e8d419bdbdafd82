//! Builds the site in the current folder: `gb` with the kinds of pages and of feeds and the
//! built-in ones.
//!
//! The kinds are those of `gb_pages` and `gb_feed`. `data` has a site that the gate builds. Proved:
//! that the program never panics, and that it ends if its system calls end.
//!
//! It joins the three tables of kinds by `beside` of `gb_with`, and `here::build_here` of `gb_here`
//! does the rest.
//!
//! Set aside: the kinds in the program's own files, since kinds in a library are checked without
//! the program. Out of scope: serving the pages, and watching the files.
#![tactic(auto)]

use gb_action::actions::Actions;
use gb_action::table::{ActionTable, TableFault};
use gb_answer::{builtin_actions, builtin_functions};
use gb_cli::program::UNPRINTED;
use gb_feed::feed_kinds::{Feeds, feed_actions};
use gb_here::here::build_here;
use gb_kinds::builtin::{Builtin, StoredAction};
use gb_pages::page_kinds::{Pages, page_actions};
use gb_with::beside::beside;
use gb_with::both::Both;
use std::alloc::{AllocError, Global};
use std::process::ExitCode;

/// The built-in kinds, and those of sites.
type Kinds = Both<Builtin, Site>;

/// The kinds of pages and of feeds.
type Site = Both<Pages, Feeds>;

fn main(rt: HostRuntime) -> ExitCode {
    ExitCode::from(built(&rt).unwrap_or(UNPRINTED))
}

/// Builds the current folder.
fn built(rt: &HostRuntime) -> Result<u8, AllocError> {
    built_with(rt, builtin_actions!(rt.alloc()))
}

/// Builds it with these actions, those of sites, and all functions of values.
fn built_with(rt: &HostRuntime, builtin: ActionTable<StoredAction>) -> Result<u8, AllocError> {
    let transforms = builtin_functions!(rt.alloc());
    let actions = kinds(rt.alloc(), builtin);
    Ok(build_here::<Kinds, Builtin, _>(rt, actions, transforms))
}

/// These actions, and those of sites.
fn kinds(
    alloc: Global,
    builtin: ActionTable<StoredAction>,
) -> Result<ActionTable<<Kinds as Actions>::Stored>, TableFault> {
    beside(alloc, builtin, site_actions(alloc)?)
}

/// The actions of pages, and of feeds.
fn site_actions(alloc: Global) -> Result<ActionTable<<Site as Actions>::Stored>, TableFault> {
    beside(alloc, page_actions(alloc)?, feed_actions(alloc)?)
}
