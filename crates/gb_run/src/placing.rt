//! The places that the files of a task take, checked before any is written.
//!
//! The files of an action are checked by place, together with all that the task has put so far. The
//! order in which they are listed decides only which of two at one place counts. The places taken
//! are in a map, as empty files. So whether another file is in the way is one look-up for each
//! folder of a place.
ghost use Rattle.std.specs.Prelude.{◌≡◌, ◌⊎◌, [], ◌∷◌, false, Some, IsTrue, IfOk, IfErr, OnOk, string_bytes};
ghost use Rattle.std.specs.List.{flat_map};
ghost use Rattle.std.specs.Option.{option_copied};
ghost use Rattle.gb_core.specs.Lists.{first_of};
ghost use Rattle.gb_core.specs.Place.{is_place, beneath};
ghost use Rattle.gb_folder.specs.Files.{are_placed, with_file};
ghost use Rattle.gb_semantics.specs.Made.{file_faults, output_named, placed, put_over};
ghost use Rattle.gb_run.specs.Named.{put};
ghost use Rattle.gb_run.specs.Placing.{blank, count_faults, faults_beside};
ghost use Rattle.gb_run.specs.Texts.{files_in};

use gb_action::reply::{Writes, Written};
use gb_core::bytes::Bytes;
use gb_core::name::Name;
use gb_core::place::{Place, PlaceFault, RelPath};
use gb_core::text::Text;
use gb_folder::file_map::FileMap;
use gb_folder::limits::{MAX_FILE, MAX_FILES};
use gb_plan::task::Output;
use gb_report::fault::Fault;
use std::alloc::{AllocError, Global};
use std::collections::BTreeMap;

/// Takes the places of the files that an action writes, given those taken before, and returns the
/// steps that write them, by place. An error is the first fault of these files, or lack of memory
/// (fault 3).
pub fn take_places(
    alloc: Global,
    taken: &mut FileMap,
    outputs: &[Output],
    writes: Writes,
) -> Result<Vec<(Place, Option<Bytes>)>, Fault>
    requires placed { IsTrue (are_placed taken.old) }
    ensures steps { IfOk result (λ steps. steps.items ≡ put (put_over [] (placed outputs.now writes))) }
    ensures placed { OnOk result (IsTrue (are_placed taken.new)) }
    ensures taken { OnOk result
        (taken.new ≡ put_over taken.old (blank (put_over [] (placed outputs.now writes)))) }
    ensures ok { OnOk result
        (faults_beside outputs.now taken.old (put_over [] (placed outputs.now writes)) ≡ []) }
    ensures err { IfErr result (λ fault. (fault ≡ Fault.OutOfMemory)
        ⊎ (first_of (faults_beside outputs.now taken.old (put_over [] (placed outputs.now writes)))
        ≡ Some fault)) }
{
    let files = by_place(alloc, outputs, writes)?;
    hold_all(taken, &files)?;
    let steps = check_all(alloc, taken, files)?;
    check_counts(alloc, taken, outputs)?;
    Ok(steps)
}

/// The files that an action writes, by place: of two at one place the later counts. A reply names
/// outputs of its task only.
fn by_place(
    alloc: Global,
    outputs: &[Output],
    writes: Writes,
) -> Result<BTreeMap<String, Bytes>, AllocError>
    ensures { IfOk result (λ files. files_in files ≡ put_over [] (placed outputs.now writes)) }
{
    let mut files = BTreeMap::new(alloc);
    for file in writes.into_vec() {
        if let Some(output) = output_named(outputs, &file.output) {
            put_file(alloc, &mut files, output, file)?;
        }
    }
    Ok(files)
}

/// The output of the name.
pub fn output_named<'a>(outputs: &'a [Output], name: &Name) -> Option<&'a Output>
    ensures { option_copied result ≡ output_named outputs.now name.now }
{
    for output in outputs.iter() {
        if output.name == *name {
            return Some(output);
        }
    }
    None
}

/// Puts a file under the place of its output.
fn put_file(
    alloc: Global,
    files: &mut BTreeMap<String, Bytes>,
    output: &Output,
    file: Written,
) -> Result<(), AllocError>
    ensures { OnOk result (files_in files.new
        ≡ with_file (files_in files.old) (beneath output.now.place file.path) file.bytes) }
{
    let text = text_beneath(alloc, &output.place, &file.path)?;
    files.insert(text, file.bytes)?;
    Ok(())
}

/// The text of a path under a root, whether or not it is a place.
pub fn text_beneath(alloc: Global, root: &Place, path: &RelPath) -> Result<String, AllocError>
    ensures { IfOk result (λ text. string_bytes text ≡ beneath root.now path.now) }
{
    let (above, below) = (root.as_str(), path.as_str());
    let len = above.len().saturating_add(below.len()).saturating_add(1);
    let mut text = String::with_capacity(alloc, len)?;
    text.push_str(above)?;
    if !below.is_empty() {
        text.push('/')?;
        text.push_str(below)?;
    }
    Ok(text)
}

/// Takes the places of all these files.
fn hold_all(taken: &mut FileMap, files: &BTreeMap<String, Bytes>) -> Result<(), AllocError>
    ensures { OnOk result (taken.new ≡ put_over taken.old (blank (files_in files.now))) }
{
    for (text, _) in files.iter() {
        taken.put(text.as_str(), &[])?;
    }
    Ok(())
}

/// Checks each of these files against all files. Returns the steps that write them.
fn check_all(
    alloc: Global,
    all: &FileMap,
    files: BTreeMap<String, Bytes>,
) -> Result<Vec<(Place, Option<Bytes>)>, Fault>
    ensures steps { IfOk result (λ steps. steps.items ≡ put (files_in files)) }
    ensures ok { OnOk result (flat_map (file_faults all.now) (files_in files) ≡ []) }
    ensures err { IfErr result (λ fault. (fault ≡ Fault.OutOfMemory)
        ⊎ (first_of (flat_map (file_faults all.now) (files_in files)) ≡ Some fault)) }
{
    let mut steps = Vec::new(alloc);
    for (text, bytes) in files {
        let place = check_file(alloc, all, text.as_str(), &bytes)?;
        steps.push((place, Some(bytes)))?;
    }
    Ok(steps)
}

/// Checks one file against all files.
fn check_file(alloc: Global, all: &FileMap, text: &str, bytes: &Bytes) -> Result<Place, Fault>
    ensures place { IfOk result (λ place. place ≡ text.now) }
    ensures ok { OnOk result (file_faults all.now (text.now, bytes.now) ≡ []) }
    ensures err { IfErr result (λ fault. (fault ≡ Fault.OutOfMemory)
        ⊎ (first_of (file_faults all.now (text.now, bytes.now)) ≡ Some fault)) }
{
    let place = place_of(alloc, text)?;
    if all.is_blocked(&place)? {
        return Err(Fault::Blocked(place));
    }
    if bytes.as_slice().len() as u64 > MAX_FILE {
        return Err(Fault::TooLarge(place));
    }
    Ok(place)
}

/// The place with this text.
pub fn place_of(alloc: Global, text: &str) -> Result<Place, Fault>
    ensures place { IfOk result (λ place. place ≡ text.now) }
    ensures good { OnOk result (IsTrue (is_place text.now)) }
    ensures err { IfErr result (λ fault. (fault ≡ Fault.OutOfMemory)
        ⊎ ((is_place text.now ≡ false) × (fault ≡ Fault.BadPlace text.now))) }
{
    match Place::read(alloc, text) {
        Ok(place) => Ok(place),
        Err(PlaceFault::OutOfMemory) => Err(Fault::OutOfMemory),
        Err(PlaceFault::BadPlace) => Err(Fault::BadPlace(Text::from_str(alloc, text)?)),
    }
}

/// Whether no output has more files than it may. The outputs are checked one by one only if the
/// task has put more files than one may have. So an action costs no listing of all that was put
/// before it.
#[tactic(auto, using(crate::proofs::Counted::none_full))]
pub fn check_counts(alloc: Global, taken: &FileMap, outputs: &[Output]) -> Result<(), Fault>
    requires { IsTrue (are_placed taken.now) }
    ensures ok { OnOk result (count_faults outputs.now taken.now ≡ []) }
    ensures err { IfErr result (λ fault. (fault ≡ Fault.OutOfMemory)
        ⊎ (first_of (count_faults outputs.now taken.now) ≡ Some fault)) }
{
    if taken.len() <= MAX_FILES {
        return Ok(());
    }
    check_each_count(alloc, taken, outputs)
}

/// Checks the outputs one by one.
fn check_each_count(alloc: Global, taken: &FileMap, outputs: &[Output]) -> Result<(), Fault>
    requires { IsTrue (are_placed taken.now) }
    ensures ok { OnOk result (count_faults outputs.now taken.now ≡ []) }
    ensures err { IfErr result (λ fault. (fault ≡ Fault.OutOfMemory)
        ⊎ (first_of (count_faults outputs.now taken.now) ≡ Some fault)) }
{
    for output in outputs.iter() {
        check_count(alloc, taken, output)?;
    }
    Ok(())
}

fn check_count(alloc: Global, taken: &FileMap, output: &Output) -> Result<(), Fault>
    requires { IsTrue (are_placed taken.now) }
    ensures ok { OnOk result (count_faults (output.now ∷ []) taken.now ≡ []) }
    ensures err { IfErr result (λ fault. (fault ≡ Fault.OutOfMemory)
        ⊎ (first_of (count_faults (output.now ∷ []) taken.now) ≡ Some fault)) }
{
    let places = taken.list_under(alloc, &output.place)?;
    if places.len() > MAX_FILES {
        return Err(Fault::TooManyFiles(output.name.copy()?));
    }
    Ok(())
}
