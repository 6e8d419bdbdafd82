//! Kinds of actions that make what machines read about a site: a site map, and a feed in Atom.
//!
//! The promise: each is the text that its definition gives of the pages' paths, titles and dates,
//! escaped for XML. The date of a feed is that of its newest page, so it is the same in each build
//! of the same pages. A feed fails (42) if no page has a date, or if a page has a bad one.
//!
//! How it works: each kind is a `TreeKind` of `gb_with`, which makes its file again from all pages
//! after any change, and writes it if it differs.
//!
//! Not proved: that the text is well-formed XML. Texts in it are escaped byte by byte (`xml_byte`).
//!
//! `feed_actions` is a table with `siteMap` and `atomFeed`; `docs/SITE.md` says how they are used.
//!
//! Set aside: the time of the build as the date of a feed, since a site is then no function of its
//! files. Out of scope: the texts of the pages in a feed.
#![tactic(auto)]

mod feed;
pub mod feed_kinds;
mod site;
mod site_map;
