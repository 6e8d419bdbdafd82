//! What follows from the definitions alone.
ghost use Rattle.gb_query.specs.Laws.{FilesAreTakenIn};

/// Whatever the files, a property reads exactly the files whose places it includes.
pub fn files_are_taken_in()
    ensures { FilesAreTakenIn }
{}
