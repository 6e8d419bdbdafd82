//! Markdown to HTML, of bytes to bytes.
//!
//! The promise: the page of a text is `Blocks.html` of it, a definition by blocks and by texts in
//! them. Three laws hold of every page, whatever is written on it: no text becomes a tag; each
//! address of a link has no scheme or `http`, `https` or `mailto`, and neither a control character
//! nor white space; and an address that is made of a file's path is safe in the same way.
//!
//! A page is parsed line by line: first the labels that it defines are read ([`gathered`]),
//! then each line continues or ends the open blocks ([`blocks`]), and the text of a finished block
//! is split at its signs ([`inline`]). Stressed words go by CommonMark's runs of signs, with a
//! stack of the open ones.
//!
//! What is not read is shown as text, so no HTML passes through. Not proved: that each tag that
//! begins an element is ended in its order, and that a page takes time in proportion to its length.
//!
//! `docs/SITE.md#the-markdown-that-it-reads` says what it reads.
//!
//! Out of scope, on purpose: HTML and entities, headings underlined by `-` or `=`, tabs as
//! indentation, aligned cells, and more than 16 quotes or items in one another.
#![tactic(auto)]

pub mod address;
pub mod blocks;
mod gathered;
pub mod inline;
pub mod laws;
pub mod line_parsing;
mod pipe_table;
pub mod references;
pub mod rendered;
mod runs;
mod slug;
mod stress;
mod target;
