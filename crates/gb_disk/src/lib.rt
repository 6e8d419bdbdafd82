//! A folder on a disk: the `Folder` with which the programs build.
//!
//! What each call answers (10 the device failed, 11 missing, 12 blocked, 14 a bad file name:
//! `docs/FAULTS.md`):
//!
//! | At the place | `list` | `read`, `read_part` | `write` | `remove` |
//! |---|---|---|---|---|
//! | a file | it | its bytes | a new one is renamed over it | it is unlinked |
//! | a folder with a file under it | the files | 12 | 12 | 12 |
//! | a tree of folders without a file | none | 11 | the folders are removed | 11 |
//! | nothing | none | 11 | folders above it are created | 11 |
//! | a link, a pipe, a socket or a device, there or at an ancestor folder | 14 | 10 | 10 | 10 |
//! | a file at an ancestor folder | none | 12 | 12 | 12 |
//! | a name under it that cannot be part of a place | 14 | 10 | 10 | 10 |
//! | no permission, a full disk, an error | 10 | 10 | 10 | 10 |
//!
//! Each segment of a place is looked up before anything is opened. So, if nobody puts one there
//! meanwhile, no link leads out of the folder, and no call waits for a pipe. Two look-ups are
//! saved, on the assumption that nobody else writes there during a build: `list`, `read` and
//! `read_part` trust a folder that they found earlier, until something is missing or a call fails;
//! and a read trusts the length of a file that is the only one listed by the preceding call. A
//! third is saved without it: where `list` expects a folder, since the last root in the same folder
//! was one, it opens that at once, by the system's call for folders, which follows no link at the
//! end of its path and opens nothing else. If that fails, the root is looked up.
//!
//! A folder for one build ([`for_one_build`](disk::DiskFolder::for_one_build)) also remembers the
//! last 32 listings, of which eight may have more than 16 places, and none more than 65,536: a
//! hundred tasks that each take their part of one folder list it once, and where files are read
//! ahead of their tasks, these list nothing again. A write or a removal forgets the listings of its
//! place, of roots above and under it and of `.gb`; a failure forgets all. So the build finds each
//! change of its own. What others add or remove meanwhile it may not find, as if the folder had been
//! listed earlier. A record has what was worked on, so the next build finds the difference. It has
//! to ask the system again, so it needs a new folder; one that serves many builds
//! ([`new`](disk::DiskFolder::new)) remembers no listing.
//!
//! All bytes that a read returns come from one open file. A small file is complete if it has
//! exactly the listed length. For a larger file and for a part, length and time of the open file
//! are compared after the read. If the file is another one by now, or changed, the read looks it up
//! again, three times in all. After that it returns what one open file yields up to its end, as
//! `cp` does: for example of a log that grows all the time. A file without a length is read to its
//! end, since the system generates some files only when they are read.
//!
//! A write creates a file under `.gb/new`, writes all bytes, and renames it to its place. So a
//! reader sees the old file or the new one, other names of the old file keep its bytes, and a
//! failed write leaves the old file. A rewrite therefore needs space for both. The next session
//! that writes removes what a stopped one left in `.gb/new`. Where a rename is not possible, as on
//! another file system, the old file is removed first.
//!
//! A listing omits files that others remove meanwhile. Nothing is flushed to the device: its
//! contents after a loss of power are not known, nor an error that it reports only when a written
//! file is closed. The kit has no flags for `open`: if somebody puts a pipe in place between
//! look-up and open, the open waits for it.
//!
//! `DiskFolder` keeps the calls that it was asked for, with what it returned, in a log that exists
//! only in proofs (`calls_of`): no call and no byte is kept when it runs. So what contracts say of
//! calls over any folder, they say of a disk. What a call does there is not in them: a body that
//! only notes its call would be proved too. Contents may be supposed of it, one for each state
//! (`Supposed`), also for proofs alone. They need not be what the disk holds; but as long as its
//! answers are theirs (`IsAsSupposed`), all that is proved of known contents holds of them.
//!
//! After a read, a write or a removal that succeeded, the path in use is that of the place (`at`, by
//! `path_in`). A listing is in byte order and under its root, and a read returns no more than was
//! asked. No clause is on the path of `create_dir`, or of what is removed under `.gb/new`: that is to
//! be read in `device.rt` and `putting.rt`. No contract can say that links are not followed, that a
//! read is of one file and that a write is whole, since the system's calls have no such contract.
//! Tests show it.
//!
//! That a remembered listing is in order and under its root is proved. That it is an earlier one of
//! the same root, and that a change ends it, is tested.
#![tactic(auto)]

mod bytes;
mod call_log;
mod calls;
mod device;
pub mod disk;
pub mod entries;
mod entry;
mod listings;
mod putting;
mod span;
mod system_path;
mod trail;
mod walk;
