//! The five calls of a folder, and what holds after each, fact by fact.
//!
//! All of it follows from `called`, the one clause of the trait's method.
ghost use Rattle.std.specs.Prelude.{◌≡◌, ◌≢◌, ◌<◌, ◌≤◌, ℕ, List, Option, Some, None, false, length};
ghost use Rattle.std.specs.Prelude.{take, drop, IsTrue, IsSome, IsSomeAnd, IsErrOf, IfOk, IfErr, OnOk};
ghost use Rattle.std.specs.List.{AllPass};
ghost use Rattle.std.specs.List.Sorted.{IsStrictlySortedBy};
ghost use Rattle.gb_core.specs.Place.{is_under};
ghost use Rattle.gb_core.specs.Lists.{byte_order};
ghost use Rattle.gb_folder.specs.Call.{Lists, Reads, ReadsPart, Removes, Writes, answered};
ghost use Rattle.gb_folder.specs.Calls.{OnlyReads, Requests, put_at, taken_at};
ghost use Rattle.gb_folder.specs.Device.{IsCalled};
ghost use Rattle.gb_folder.specs.Files.{HasRisen, file_at, is_blocked, is_special_under, places_under};
ghost use Rattle.gb_folder.specs.Files.{with_file, with_left, without};

use crate::folder::{Folder, FolderFault};
use gb_core::place::Place;
use std::alloc::Global;

/// The places of the files at or under the root, in byte order.
pub fn list<F: Folder>(
    alloc: Global,
    folder: &mut F,
    root: &Place,
) -> Result<Vec<Place>, FolderFault>
    ensures called { IsCalled F.device folder.old (Lists root.now (answered result)) folder.new }
    ensures reads { OnlyReads F.device folder.old folder.new }
    ensures risen { IsErrOf result FolderFault.Device
        → HasRisen (F.device.failures folder.old) (F.device.failures folder.new) }
    ensures under { IfOk result
        (λ places. AllPass (λ place. is_under place root.now) places.items) }
    ensures ordered { IfOk result (λ places. IsStrictlySortedBy byte_order places.items) }
    ensures not_large { result ≢ Err FolderFault.TooLarge }
    // Where the contents are known after the call, the places are those of all files at or under
    // the root, and no entry there is special. `BadFileName` means that one is. `Missing` and
    // `Blocked` do not occur.
    ensures listed { F.device.faithful folder.new → IfOk result
        (λ places. places.items ≡ places_under (F.device.contents folder.old).files root.now) }
    ensures none_special { F.device.faithful folder.new → OnOk result
        (is_special_under (F.device.contents folder.old) root.now ≡ false) }
    ensures bad_name { F.device.faithful folder.new → IsErrOf result FolderFault.BadFileName
        → IsTrue (is_special_under (F.device.contents folder.old) root.now) }
    ensures not_missing { F.device.faithful folder.new → result ≢ Err FolderFault.Missing }
    ensures not_blocked { F.device.faithful folder.new → result ≢ Err FolderFault.Blocked }
{
    folder.list(alloc, root)
}

/// The bytes of a file of at most `limit` bytes.
pub fn read<F: Folder>(
    alloc: Global,
    folder: &mut F,
    place: &Place,
    limit: u64,
) -> Result<Vec<u8>, FolderFault>
    ensures called { IsCalled F.device folder.old (Reads place.now limit (answered result)) folder.new }
    ensures reads { OnlyReads F.device folder.old folder.new }
    ensures risen { IsErrOf result FolderFault.Device
        → HasRisen (F.device.failures folder.old) (F.device.failures folder.new) }
    ensures within { IfOk result (λ bytes. length bytes.items ≤ limit) }
    ensures not_named { result ≢ Err FolderFault.BadFileName }
    // Where the contents are known after the call, the bytes are those of the file at the place.
    // `Missing` means that no file is there and none is in the way, `Blocked` that one is in the
    // way, and `TooLarge` that the file has more than `limit` bytes.
    ensures found { F.device.faithful folder.new → IfOk result
        (λ bytes. file_at (F.device.contents folder.old).files place.now ≡ Some bytes.items) }
    ensures missing { F.device.faithful folder.new → IsErrOf result FolderFault.Missing
        → file_at (F.device.contents folder.old).files place.now ≡ None }
    ensures missing_free { F.device.faithful folder.new → IsErrOf result FolderFault.Missing
        → is_blocked (F.device.contents folder.old).files place.now ≡ false }
    ensures blocked { F.device.faithful folder.new → IsErrOf result FolderFault.Blocked
        → IsTrue (is_blocked (F.device.contents folder.old).files place.now) }
    ensures large { F.device.faithful folder.new → IsErrOf result FolderFault.TooLarge
        → IsSomeAnd (file_at (F.device.contents folder.old).files place.now)
        (λ bytes. limit < length bytes) }
{
    folder.read(alloc, place, limit)
}

/// The bytes of a file from `at` on: `len` of them, or fewer where the file ends.
pub fn read_part<F: Folder>(
    alloc: Global,
    folder: &mut F,
    place: &Place,
    at: u64,
    len: u64,
) -> Result<Vec<u8>, FolderFault>
    ensures called { IsCalled F.device folder.old (ReadsPart place.now at len (answered result)) folder.new }
    ensures reads { OnlyReads F.device folder.old folder.new }
    ensures risen { IsErrOf result FolderFault.Device
        → HasRisen (F.device.failures folder.old) (F.device.failures folder.new) }
    ensures within { IfOk result (λ part. length part.items ≤ len) }
    ensures not_large { result ≢ Err FolderFault.TooLarge }
    ensures not_named { result ≢ Err FolderFault.BadFileName }
    // Where the contents are known after the call, the bytes are those of the file from `at` on,
    // `len` of them or as many as there are. `Missing` means that no file is there and none is in
    // the way, `Blocked` that one is in the way.
    ensures found { F.device.faithful folder.new → IfOk result
        (λ part. IsSomeAnd (file_at (F.device.contents folder.old).files place.now)
        (λ bytes. part.items ≡ take len (drop at bytes))) }
    ensures missing { F.device.faithful folder.new → IsErrOf result FolderFault.Missing
        → file_at (F.device.contents folder.old).files place.now ≡ None }
    ensures missing_free { F.device.faithful folder.new → IsErrOf result FolderFault.Missing
        → is_blocked (F.device.contents folder.old).files place.now ≡ false }
    ensures blocked { F.device.faithful folder.new → IsErrOf result FolderFault.Blocked
        → IsTrue (is_blocked (F.device.contents folder.old).files place.now) }
{
    folder.read_part(alloc, place, at, len)
}

/// Writes a file of at most `limit` bytes, and creates the folders above it.
pub fn write<F: Folder>(
    folder: &mut F,
    place: &Place,
    bytes: &[u8],
    limit: u64,
) -> Result<(), FolderFault>
    ensures called { IsCalled F.device folder.old (Writes place.now bytes.now limit result) folder.new }
    ensures requests { Requests F.device (put_at place.now bytes.now) folder.old folder.new }
    ensures risen { IsErrOf result FolderFault.Device
        → HasRisen (F.device.failures folder.old) (F.device.failures folder.new) }
    ensures within { OnOk result (length bytes.now ≤ limit) }
    ensures large { IsErrOf result FolderFault.TooLarge → limit < length bytes.now }
    ensures not_missing { result ≢ Err FolderFault.Missing }
    ensures not_named { result ≢ Err FolderFault.BadFileName }
    // Where the contents are known after the call, the place has a file with these bytes, no file
    // was in its way, and all else is as before. `Blocked` means that a file is in the way. After a
    // fault nothing has changed, but after `Device` the place has what a stopped write may leave
    // there.
    ensures written { F.device.faithful folder.new → OnOk result
        (F.device.contents folder.new ≡ record (F.device.contents folder.old) {
          files = with_file (F.device.contents folder.old).files place.now bytes.now;
        }) }
    ensures free { F.device.faithful folder.new → OnOk result
        (is_blocked (F.device.contents folder.old).files place.now ≡ false) }
    ensures blocked { F.device.faithful folder.new → IsErrOf result FolderFault.Blocked
        → IsTrue (is_blocked (F.device.contents folder.old).files place.now) }
    ensures same { F.device.faithful folder.new → IfErr result
        (λ fault. fault ≢ FolderFault.Device → F.device.contents folder.new ≡ F.device.contents folder.old) }
    ensures torn { F.device.faithful folder.new → IsErrOf result FolderFault.Device
        → let files = (F.device.contents folder.old).files in
        (left : Option (List ℕ))
        × F.device.may_leave folder.old place.now (file_at files place.now) (Some bytes.now) left
        × (F.device.contents folder.new ≡ record (F.device.contents folder.old) {
          files = with_left files place.now left;
        }) }
{
    folder.write(place, bytes, limit)
}

/// Removes a file.
pub fn remove<F: Folder>(folder: &mut F, place: &Place) -> Result<(), FolderFault>
    ensures called { IsCalled F.device folder.old (Removes place.now result) folder.new }
    ensures requests { Requests F.device (taken_at place.now) folder.old folder.new }
    ensures risen { IsErrOf result FolderFault.Device
        → HasRisen (F.device.failures folder.old) (F.device.failures folder.new) }
    ensures not_large { result ≢ Err FolderFault.TooLarge }
    ensures not_named { result ≢ Err FolderFault.BadFileName }
    // Where the contents are known after the call, the place had a file and has none now, and all
    // else is as before. `Missing` means that no file is there and none is in the way, `Blocked`
    // that one is in the way. After a fault nothing has changed, but after `Device` the place has
    // what a stopped removal may leave there.
    ensures removed { F.device.faithful folder.new → OnOk result
        (F.device.contents folder.new ≡ record (F.device.contents folder.old) {
          files = without (F.device.contents folder.old).files place.now;
        }) }
    ensures existed { F.device.faithful folder.new → OnOk result
        (IsSome (file_at (F.device.contents folder.old).files place.now)) }
    ensures missing { F.device.faithful folder.new → IsErrOf result FolderFault.Missing
        → file_at (F.device.contents folder.old).files place.now ≡ None }
    ensures missing_free { F.device.faithful folder.new → IsErrOf result FolderFault.Missing
        → is_blocked (F.device.contents folder.old).files place.now ≡ false }
    ensures blocked { F.device.faithful folder.new → IsErrOf result FolderFault.Blocked
        → IsTrue (is_blocked (F.device.contents folder.old).files place.now) }
    ensures same { F.device.faithful folder.new → IfErr result
        (λ fault. fault ≢ FolderFault.Device → F.device.contents folder.new ≡ F.device.contents folder.old) }
    ensures torn { F.device.faithful folder.new → IsErrOf result FolderFault.Device
        → let files = (F.device.contents folder.old).files in
        (left : Option (List ℕ))
        × F.device.may_leave folder.old place.now (file_at files place.now) None left
        × (F.device.contents folder.new ≡ record (F.device.contents folder.old) {
          files = with_left files place.now left;
        }) }
{
    folder.remove(place)
}
