//! Kinds of actions that make the pages of a site from texts in Markdown.
//!
//! The promise: each kind replies as its definition says, for all pages or for those that changed.
//! A check that finds a fault fails its task with the page and the line. [`page_kinds`] puts the
//! kinds into a table.
//!
//! A page is its front matter, as `key: value` lines, and a text that `gb_markdown` turns into
//! HTML. A layout is filled in with both, and lists of pages are sorted by path or by date. Dates
//! are read by `jiff_core`, and none comes from the clock: a site is a function of its files.
//!
//! A page alone is made file by file, so an edit costs one page. What depends on all pages, as a
//! list or the link to the next page, is made from all of them and compared with the old files.
//!
//! `docs/SITE.md` says what each kind makes. `page_actions` is a table with `markdown`,
//! `htmlPages`, `template`, `sitePages`, `index`, `checkPages` and `checkLinks`. Its clause has the
//! version of each.
//!
//! Out of scope: conditions, loops and includes in a layout, and a list of pages over several
//! pages.
#![tactic(auto)]

mod checked;
mod contents;
pub mod dates;
pub mod front_matter;
pub mod index_page;
pub mod kinds;
mod layout;
mod links;
pub mod page_kinds;
pub mod page_paths;
mod site_pages;
mod template;
