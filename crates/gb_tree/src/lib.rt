//! Which files a pattern lets in, which files a property or an output has, what is remembered of
//! them, and how two states of them differ.
//!
//! A pattern is matched against the segments of a path, in steps that grow with the product of the
//! two lengths and without memory ([`Pattern`](pattern::Pattern)).
//! [`snapshot`](property::snapshot) reads the files of a property: those under its roots that its
//! patterns let in. Under a root it looks only in the folders before the first `*` or `?` of its
//! includes, so other files there cost nothing and cause no fault. The paths are sorted and
//! compared before any content is read, in steps that grow as n log n.
//! [`outputs`](output::outputs) reads the files at a place.
//!
//! [`reading_of`](property::reading_of) and [`output_reading`](output::output_reading) read such
//! files once, take their digests, and keep the bytes where there is room for them. From such a
//! [`Reading`](kept::Reading) a run gets the contents by [`completed`](kept::Reading::completed),
//! with the digests of these very contents.
//! [`DigestCache`](digest_cache::DigestCache) keeps the digests of readings, and neither of the two
//! reads a file whose digest it has. [`read_ahead`](ahead::read_ahead) reads files for that before it
//! is their turn.
//!
//! The digests of such files are remembered: [`prints`](digest::prints) takes them from contents,
//! [`prints_of`](property::prints_of) and [`output_prints`](output::output_prints) from the folder,
//! with 65,536 bytes in memory at a time. [`compare`](changes::compare) returns what was added,
//! modified or removed between two such states.
//!
//! Patterns are refused with 70. The faults in reading are 14, 72, 71 and 13, in this order; 11 and
//! 12 can only come from a folder whose contents are not known. An output in `.gb` has no files.
//! The promise, without a premise: where contents are known, each result is exact. Over any folder,
//! the entries are those of listings that the folder returned, and each digest is that of bytes
//! that it returned (`Answered`).
//!
//! No clause says how much memory is held or how often a file is read. By the code, each content is
//! read once, after everything that can be refused without it. Four files below 65,536 bytes are
//! digested together where they follow each other with no larger one between them, so at most four
//! are held beyond what is kept. Finding equal roots takes n log n in the roots, and finding where
//! to look n log n in the includes of each; the places to look at are held for one root at a time.
//! A path is tried against each pattern with a wildcard and looked up among the others. No more
//! entries are held than needed to find that there are too many.
//!
//! Left out: regular expressions, character classes and negation in patterns, and one digest for a
//! whole tree, which could not show which file changed.
#![tactic(auto)]

pub mod ahead;
pub mod changes;
mod completing;
pub mod digest;
pub mod digest_cache;
mod entries;
pub mod fault;
pub mod kept;
mod matching;
pub mod output;
pub mod pattern;
pub mod prints;
pub mod property;
mod reading;
pub mod relative;
mod scanning;
mod shortcut;
mod sieve;
mod starts;
mod waiting;
