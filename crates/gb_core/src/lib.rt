//! The basic types of every crate of `gb`: names, places, paths and values.
//!
//! Each is a small type over text. Only parsing constructs a value, so every value is well formed.
//! Contracts view each as the list of its bytes. Places are compared segment by segment: `srcx` is
//! not under `src`.
//!
//! Two laws concern paths of tasks: `task_paths_have_parts` and `parts_make_task_paths` say that a
//! task path is a project path and a name, in both directions. `beneath_is_by_segments` and its two
//! neighbours say that comparing bytes is comparing segments. A `Text` of at most 22 bytes
//! allocates nothing.
//!
//! Set aside: the kit's `ArrayString` for short texts, since it stores its length in eight bytes
//! and would leave 8 of the 22; and a check in `as_str` that the bytes are UTF-8, since it would
//! slow down each comparison: that they are is an invariant of the type.
#![tactic(auto)]

pub mod bytes;
pub mod laws;
pub mod name;
pub mod path;
pub mod place;
pub mod row;
mod short;
pub mod task_paths;
pub mod text;
pub mod value;
