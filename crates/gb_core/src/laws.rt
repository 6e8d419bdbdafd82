//! Theorems about places, by bytes and by segments, and about the parts of paths.
ghost use Rattle.gb_core.specs.Laws.{BeneathIsBySegments, OverlapIsBySegments, JoinIsBySegments};
ghost use Rattle.gb_core.specs.Laws.{TaskPathsHaveParts, PartsMakeTaskPaths};

/// A place lies under a folder, compared by bytes, exactly when its segments are the folder's and
/// at least one more.
pub fn beneath_is_by_segments()
    ensures { BeneathIsBySegments }
{}

/// Two places overlap, compared by bytes, exactly when they are equal or one is under the other by
/// segments.
pub fn overlap_is_by_segments()
    ensures { OverlapIsBySegments }
{}

/// The segments of a joined place are those of the folder, then those of the text.
pub fn join_is_by_segments()
    ensures { JoinIsBySegments }
{}

/// The parts of a task path are a project path and a name; joined, they give the task path back.
pub fn task_paths_have_parts()
    ensures { TaskPathsHaveParts }
{}

/// A project path and a name make a task path, and its parts are these two.
pub fn parts_make_task_paths()
    ensures { PartsMakeTaskPaths }
{}
