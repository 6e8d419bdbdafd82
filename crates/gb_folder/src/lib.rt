//! The only way in which the build accesses files.
//!
//! [`Folder`](folder::Folder) is five calls over places, each with one clause (`IsCalled` of
//! `specs/Device.antt`): which call it was, with its answer, and how it led from one state of the
//! folder to the next. Code over a folder is proved once, for every type of folder. Its contracts
//! say which calls were made, with which bytes, and what they returned. A folder on a disk keeps
//! its calls for proofs, so they hold of it too. Where the contents of the folder are known
//! (`faithful`), each answer is exact (`Answers` of `specs/Semantics.antt`): a refused call changes
//! nothing, and only a device fault in a write or a removal may leave something else, at the place
//! of the call. The contents of a folder in memory are always known. A proof may suppose contents
//! of a folder on a disk: they are known as long as they answer its calls as the disk does.
//!
//! [`calls`] has the five calls for callers: what follows from that clause, fact by fact.
//! `proofs/Changes.antt` has lemmas for them. `specs/Each.antt` has the calls of a function that
//! processes a list.
//!
//! [`MemoryFolder`](memory::MemoryFolder) has files in memory.
//! [`FaultyFolder`](faulty::FaultyFolder) makes a chosen call of its inner folder fail, and all
//! later ones unless it is to fail once. [`NotedFolder`](noted::NotedFolder) records the writes and
//! removals that are requested. [`FileMap`](file_map::FileMap) stores files without being a folder:
//! one may be in the way of another.
//!
//! For builds, `listed_at` ([`listing`]) lists the files at or under a place, and
//! `remove_all` ([`removal`]) removes files, with the faults of reports, which name the place. If a
//! removal is cut short (`IsCutShort`), the first of the places are empty, and at the next there is
//! what the device left, or memory ran out before it. What calls leave elsewhere follows from what
//! they request (`proofs/Elsewhere.antt`).
//!
//! Two laws: `calls_are_exact` (over known contents a call returns and leaves what its definition
//! says) and `requests_are_calls` (what is requested between two states is a list of calls that
//! lead from the one to the other, and the other way round).
//!
//! Out of scope: handles, streams, folders as objects of their own, permissions and times. A folder
//! exists where a file exists under it, and a large file is read in parts.
#![tactic(auto)]

pub mod calls;
pub mod faults;
pub mod faulty;
pub mod file_map;
pub mod folder;
pub mod laws;
pub mod limits;
pub mod listing;
pub mod memory;
pub mod noted;
pub mod own;
pub mod range;
pub mod removal;
