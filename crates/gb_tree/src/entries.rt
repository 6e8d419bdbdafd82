//! The files that belong to a property, in the order of their paths.
ghost use Rattle.std.specs.Prelude.{◌≡◌, ◌≤◌, ◌⊎◌, ◌+◌, ◌++◌, [], ◌∷◌, ℕ, List, length, take, drop, true};
ghost use Rattle.std.specs.Prelude.{None, Some, IsTrue, IfOk, IfErr, OnOk, string_bytes};
ghost use Rattle.std.specs.List.{AllByRecursion, AllPass, AllZip, filter, zip};
ghost use Rattle.std.specs.Option.{option_copied};
ghost use Rattle.std.specs.Ordering.{is_lt};
ghost use Rattle.std.specs.FinMap.Entries.{is_sorted};
ghost use Rattle.gb_core.specs.Place.{is_beneath, is_under};
ghost use Rattle.gb_core.specs.Lists.{byte_order, first_of};
ghost use Rattle.gb_folder.specs.Calls.{OnlyReads};
ghost use Rattle.gb_folder.specs.Limits.{max_files};
ghost use Rattle.gb_tree.specs.Tree.{Blames, IsRefused, special_roots, too_many};
ghost use Rattle.gb_tree.specs.Property.{doubled, entries_in, entries_of, entry_faults, found_from};
ghost use Rattle.gb_tree.specs.Property.{held, in_order, is_in, is_under_any, lets_in};
ghost use Rattle.gb_tree.specs.Property.{paths_of, places_of, starts_in};
ghost use Rattle.gb_tree.specs.Rising.{IsFrom, IsRising};
ghost use Rattle.gb_tree.specs.Answered.{AreEntriesListed, IsStartListed, listed_in};

use crate::fault::TreeFault;
use crate::pattern::Pattern;
use crate::property::Naming;
use crate::reading::listed;
use crate::relative::{path_of, relative_to};
use crate::sieve::Sieve;
use crate::starts::{distinct, starts_at};
use gb_core::name::Name;
use gb_core::place::{Place, RelPath, lies_beneath};
use gb_folder::folder::Folder;
use gb_folder::limits::MAX_FILES;
use gb_folder::own::is_own;
use std::alloc::{AllocError, Global};

/// The places of the property's files, in the order of their paths. All of these paths can exist
/// together in one tree. No content is read.
pub(crate) fn entries_of<F: Folder>(
    alloc: Global,
    folder: &mut F,
    name: &Name,
    naming: Naming,
    roots: &[Place],
    include: &[Pattern],
    exclude: &[Pattern],
) -> Result<Vec<(RelPath, Place)>, TreeFault>
    ensures reads { OnlyReads F.device folder.old folder.new }
    ensures blame { Blames (λ at. IsTrue (is_under_any roots.now at))
        (F.device.failures folder.old) (F.device.failures folder.new) result }
    ensures under { IfOk result
        (λ entries. AllByRecursion (λ entry. IsTrue (is_under_any roots.now entry.1)) entries.items) }
    ensures ordered { IfOk result (λ entries. IsTrue (is_sorted byte_order entries.items)) }
    ensures listed { IfOk result (λ entries. AreEntriesListed F.device naming
        roots.now include.now exclude.now folder.old folder.new entries.items) }
    ensures entries { F.device.faithful folder.new → IfOk result (λ entries.
        entries.items ≡ entries_of naming roots.now include.now exclude.now
        (F.device.contents folder.old).files) }
    ensures fit { F.device.faithful folder.new → OnOk result
        (entry_faults name.now naming roots.now include.now exclude.now (F.device.contents folder.old) ≡ []) }
    ensures err { F.device.faithful folder.new → IfErr result (λ fault.
        IsRefused (F.device.failures folder.old) (F.device.failures folder.new)
        (entry_faults name.now naming roots.now include.now exclude.now (F.device.contents folder.old))
        fault) }
{
    let roots = distinct(alloc, roots)?;
    let mut entries = found_few(
        alloc,
        folder,
        name,
        naming,
        include,
        exclude,
        roots.as_slice(),
    )?;
    sort(&mut entries);
    check_doubled(alloc, name, entries.as_slice())?;
    Ok(entries)
}

/// The entries that the starts of these roots give, where these are no more than can be read.
fn found_few<F: Folder>(
    alloc: Global,
    folder: &mut F,
    name: &Name,
    naming: Naming,
    include: &[Pattern],
    exclude: &[Pattern],
    roots: &[Place],
) -> Result<Vec<(RelPath, Place)>, TreeFault>
    ensures reads { OnlyReads F.device folder.old folder.new }
    ensures blame { Blames (λ at. IsTrue (is_under_any (places_of (starts_in include.now roots.now)) at))
        (F.device.failures folder.old) (F.device.failures folder.new) result }
    ensures under { IfOk result (λ entries.
        AllByRecursion
        (λ entry. IsTrue (is_under_any (places_of (starts_in include.now roots.now)) entry.1))
        entries.items) }
    ensures answered { IfOk result (λ entries. (listings : List (List (List ℕ)))
        × AllZip (IsStartListed F.device folder.old folder.new)
        (starts_in include.now roots.now) listings
        × (entries.items ≡ listed_in naming include.now exclude.now
        (zip (starts_in include.now roots.now) listings))) }
    ensures found { F.device.faithful folder.new → IfOk result (λ entries.
        entries.items
        ≡ found_from naming include.now exclude.now (F.device.contents folder.old).files
        (starts_in include.now roots.now)) }
    ensures none_special { F.device.faithful folder.new → OnOk result
        (special_roots (F.device.contents folder.old) (places_of (starts_in include.now roots.now)) ≡ []) }
    ensures few { IfOk result (λ entries. too_many name.now entries.items ≡ []) }
    ensures err { F.device.faithful folder.new → IfErr result (λ fault.
        IsRefused (F.device.failures folder.old) (F.device.failures folder.new)
        (special_roots (F.device.contents folder.old) (places_of (starts_in include.now roots.now))
        ++ too_many name.now
        (found_from naming include.now exclude.now (F.device.contents folder.old).files
        (starts_in include.now roots.now))) fault) }
{
    let entries = found_at_all(alloc, folder, naming, include, exclude, roots)?;
    if entries.len() > MAX_FILES {
        return Err(TreeFault::TooManyFiles(name.copy()?));
    }
    Ok(entries)
}

/// What the starts of each of the roots give, up to one entry more than the limit. The starts of one
/// root at a time are in memory.
fn found_at_all<F: Folder>(
    alloc: Global,
    folder: &mut F,
    naming: Naming,
    include: &[Pattern],
    exclude: &[Pattern],
    roots: &[Place],
) -> Result<Vec<(RelPath, Place)>, TreeFault>
    ensures reads { OnlyReads F.device folder.old folder.new }
    ensures blame { Blames (λ at. IsTrue (is_under_any (places_of (starts_in include.now roots.now)) at))
        (F.device.failures folder.old) (F.device.failures folder.new) result }
    ensures under { IfOk result (λ entries.
        AllByRecursion
        (λ entry. IsTrue (is_under_any (places_of (starts_in include.now roots.now)) entry.1))
        entries.items) }
    ensures few { IfOk result (λ entries. length entries.items ≤ max_files + 1) }
    ensures answered { IfOk result (λ entries. (listings : List (List (List ℕ)))
        × AllZip (IsStartListed F.device folder.old folder.new)
        (starts_in include.now roots.now) listings
        × (entries.items ≡ held (listed_in naming include.now exclude.now
        (zip (starts_in include.now roots.now) listings)))) }
    ensures found { F.device.faithful folder.new → IfOk result (λ entries.
        entries.items
        ≡ held (found_from naming include.now exclude.now (F.device.contents folder.old).files
        (starts_in include.now roots.now))) }
    ensures none_special { F.device.faithful folder.new → OnOk result
        (special_roots (F.device.contents folder.old) (places_of (starts_in include.now roots.now)) ≡ []) }
    ensures special { F.device.faithful folder.new → IfErr result (λ fault.
        IsRefused (F.device.failures folder.old) (F.device.failures folder.new)
        (special_roots (F.device.contents folder.old) (places_of (starts_in include.now roots.now))) fault) }
{
    let included = Sieve::new(alloc, include)?;
    let excluded = Sieve::new(alloc, exclude)?;
    let mut entries = Vec::new(alloc);
    for root in roots.iter() {
        let starts = starts_at(alloc, include, root)?;
        let here = found(
            alloc,
            folder,
            naming,
            &included,
            &excluded,
            starts.as_slice(),
        )?;
        append_held(&mut entries, here)?;
    }
    Ok(entries)
}

/// Appends entries to others, up to one more than the limit.
fn append_held(
    entries: &mut Vec<(RelPath, Place)>,
    mut more: Vec<(RelPath, Place)>,
) -> Result<(), AllocError>
    ensures { OnOk result (entries.new.items ≡ held (entries.old.items ++ more.items)) }
{
    entries.append(&mut more)?;
    entries.truncate(MAX_FILES + 1);
    Ok(())
}

/// What each of the starts gives, up to one entry more than the limit. Later starts are listed all
/// the same, since a special file under them is reported first.
fn found<F: Folder>(
    alloc: Global,
    folder: &mut F,
    naming: Naming,
    include: &Sieve,
    exclude: &Sieve,
    starts: &[(Place, Place)],
) -> Result<Vec<(RelPath, Place)>, TreeFault>
    requires { AllByRecursion (λ start. IsTrue (is_under start.1 start.0)) starts.now }
    ensures reads { OnlyReads F.device folder.old folder.new }
    ensures blame { Blames (λ at. IsTrue (is_under_any (places_of starts.now) at))
        (F.device.failures folder.old) (F.device.failures folder.new) result }
    ensures under { IfOk result (λ entries.
        AllByRecursion (λ entry. IsTrue (is_under_any (places_of starts.now) entry.1)) entries.items) }
    ensures few { IfOk result (λ entries. length entries.items ≤ max_files + 1) }
    ensures answered { IfOk result (λ entries. (listings : List (List (List ℕ)))
        × AllZip (IsStartListed F.device folder.old folder.new) starts.now listings
        × (entries.items ≡ held (listed_in naming include.now exclude.now (zip starts.now listings)))) }
    ensures found { F.device.faithful folder.new → IfOk result (λ entries.
        entries.items
        ≡ held (found_from naming include.now exclude.now (F.device.contents folder.old).files starts.now)) }
    ensures none_special { F.device.faithful folder.new → OnOk result
        (special_roots (F.device.contents folder.old) (places_of starts.now) ≡ []) }
    ensures special { F.device.faithful folder.new → IfErr result (λ fault.
        IsRefused (F.device.failures folder.old) (F.device.failures folder.new)
        (special_roots (F.device.contents folder.old) (places_of starts.now)) fault) }
{
    let mut entries = Vec::new(alloc);
    for (root, start) in starts.iter() {
        let places = listed(alloc, folder, start)?;
        add_entries(
            alloc,
            &mut entries,
            naming,
            include,
            exclude,
            root,
            places.as_slice(),
        )?;
    }
    Ok(entries)
}

/// Adds those of the places under a root that belong to the property, until there are too many.
fn add_entries(
    alloc: Global,
    entries: &mut Vec<(RelPath, Place)>,
    naming: Naming,
    include: &Sieve,
    exclude: &Sieve,
    root: &Place,
    places: &[Place],
) -> Result<(), TreeFault>
    requires under { AllPass (λ at. is_under at root.now) places.now }
    requires few { length entries.old.items ≤ max_files + 1 }
    ensures few { OnOk result (length entries.new.items ≤ max_files + 1) }
    ensures entries { OnOk result (entries.new.items
        ≡ held (entries.old.items ++ entries_in naming include.now exclude.now root.now places.now)) }
    ensures err { IfErr result (λ fault. fault ≡ TreeFault.OutOfMemory) }
{
    for place in places.iter() {
        if entries.len() <= MAX_FILES && is_in(include, exclude, root, place) {
            entries.push((path_of(alloc, naming, root, place)?, place.copy()?))?;
        }
    }
    Ok(())
}

/// Whether a place under the root belongs to the property.
fn is_in(include: &Sieve, exclude: &Sieve, root: &Place, place: &Place) -> bool
    requires { IsTrue (is_under place.now root.now) }
    ensures { result ≡ is_in include.now exclude.now root.now place.now }
{
    !is_own(place) && lets_in(include, exclude, relative_to(root.as_str(), place.as_str()))
}

/// Whether some include matches the path, or there is none, and no exclude does.
fn lets_in(include: &Sieve, exclude: &Sieve, path: &str) -> bool
    ensures { result ≡ lets_in include.now exclude.now path.now }
{
    (include.is_empty() || include.matches(path)) && !exclude.matches(path)
}

fn sort(entries: &mut Vec<(RelPath, Place)>)
    ensures sorted { entries.new.items ≡ in_order entries.old.items }
    ensures rising { IsRising entries.new.items }
{
    entries.sort_unstable();
}

/// Refuses the first path that cannot be in one tree with an earlier one.
fn check_doubled(alloc: Global, name: &Name, entries: &[(RelPath, Place)]) -> Result<(), TreeFault>
    requires { IsRising entries.now }
    ensures ordered { OnOk result (IsTrue (is_sorted byte_order entries.now)) }
    ensures fit { OnOk result (doubled (paths_of entries.now) ≡ []) }
    ensures err { IfErr result (λ fault. (fault ≡ TreeFault.OutOfMemory)
        ⊎ ((path : List ℕ) × (first_of (doubled (paths_of entries.now)) ≡ Some path)
        × (fault ≡ TreeFault.DuplicateInput name.now path))) }
{
    for index in 0..entries.len() {
        if let Some(other) = first_under(alloc, &entries[index].0, &entries[index + 1..])? {
            return Err(TreeFault::DuplicateInput(name.copy()?, other.copy()?));
        }
    }
    Ok(())
}

/// The first of later paths, in order, that is the path or lies under it.
fn first_under<'a>(
    alloc: Global,
    path: &RelPath,
    later: &'a [(RelPath, Place)],
) -> Result<Option<&'a RelPath>, AllocError>
    requires rising { IsRising later.now }
    requires from { IsFrom path.now later.now }
    ensures { IfOk result (λ other.
        option_copied other ≡ first_of (filter (λ other. is_under other path.now) (paths_of later.now))) }
{
    match later.first() {
        Some((other, _)) if other == path => Ok(Some(other)),
        _ => first_beneath(alloc, path, later),
    }
}

/// The first of the sorted paths that lies under this one. The paths under a path are contiguous,
/// but do not always follow it directly: `a-b` sorts before `a/b`.
fn first_beneath<'a>(
    alloc: Global,
    path: &RelPath,
    later: &'a [(RelPath, Place)],
) -> Result<Option<&'a RelPath>, AllocError>
    requires { IsRising later.now }
    ensures { IfOk result (λ other.
        option_copied other ≡ first_of (filter (λ other. is_beneath other path.now) (paths_of later.now))) }
{
    let prefix = with_slash(alloc, path)?;
    let index = count_before(prefix.as_str(), later);
    match later[index..].first() {
        Some((other, _)) if is_beneath(other, path) => Ok(Some(other)),
        _ => Ok(None),
    }
}

fn is_beneath(path: &RelPath, folder: &RelPath) -> bool
    ensures { result ≡ is_beneath path.now folder.now }
{
    lies_beneath(path.as_str().as_bytes(), folder.as_str().as_bytes())
}

/// The path and a slash: each path under it begins with this text.
fn with_slash(alloc: Global, path: &RelPath) -> Result<String, AllocError>
    ensures { IfOk result (λ prefix. string_bytes prefix ≡ path.now ++ 47 ∷ []) }
{
    let mut prefix = String::from_str(alloc, path.as_str())?;
    prefix.push('/')?;
    Ok(prefix)
}

/// How many of the sorted paths come before the text.
fn count_before(text: &str, entries: &[(RelPath, Place)]) -> usize
    requires { IsRising entries.now }
    ensures within { result ≤ length entries.now }
    ensures before { AllByRecursion (λ entry. is_lt (byte_order entry.0 text.now) ≡ true)
        (take result entries.now) }
    ensures from { IsFrom text.now (drop result entries.now) }
{
    entries.partition_point(|entry| entry.0.as_str() < text)
}
