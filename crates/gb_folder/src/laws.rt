//! Theorems about sequences of folder calls.
ghost use Rattle.std.specs.Prelude.{◌↔◌, Bool, List};
ghost use Rattle.std.specs.List.{AllByRecursion};
ghost use Rattle.gb_folder.specs.Calls.{Requests, Call, IsPermitted, changes_at};
ghost use Rattle.gb_folder.specs.Device.{Leads};
ghost use Rattle.gb_folder.specs.Files.{Place};
ghost use Rattle.gb_folder.specs.Semantics.{AnswersAll};

use crate::folder::Folder;

/// A folder with known contents answers each call by them, as the calls before it left them.
pub fn calls_are_exact<F: Folder>()
    ensures { (old new : F) (calls : List Call) → F.device.faithful new → Leads F.device old calls new
        → AnswersAll (F.device.may_leave old) (F.device.contents old) calls (F.device.contents new) }
{}

/// What is requested between two states of a folder is a list of calls, with their answers, which lead
/// from the one to the other and change files only where the test holds; and the other way round.
pub fn requests_are_calls<F: Folder>()
    ensures { (test : Place → Bool) (old new : F) → Requests F.device (changes_at test) old new
        ↔ ((calls : List Call) × Leads F.device old calls new
        × AllByRecursion (IsPermitted (changes_at test)) calls) }
{}
