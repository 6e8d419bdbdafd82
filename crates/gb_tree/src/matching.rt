//! Whether a path matches a pattern, in steps that grow with the product of their lengths at most.
//!
//! The text is read from the left, once. For each item of the pattern one flag records whether a
//! match of the text read so far can end before the item, so no choice is tried twice.
ghost use Rattle.std.specs.Prelude.{◌≡◌, ◌≤◌, ◌<◌, ◌&&◌, ◌||◌, if◌then◌else◌, false, length};
ghost use Rattle.std.specs.List.{list_any, AllByRecursion};
ghost use Rattle.std.specs.Str.{chars};
ghost use Rattle.std.specs.Option.{option_copied};
ghost use Rattle.gb_core.specs.Place.{segments};
ghost use Rattle.gb_tree.specs.Pattern.{is_double_star, is_star, is_wild, path_matches};
ghost use Rattle.gb_tree.specs.Pattern.{segment_matches, represents, wild_matches};
ghost use Rattle.gb_tree.specs.Passes.{pass, fits_read, is_start};

use crate::shortcut::{
    after_folders, after_star, before_all, has_wild, is_double_star, is_under, last_of,
};

/// More than the most items of a pattern: a place has at most 1,024 bytes.
const MOST_ITEMS: usize = 1025;

/// More than the items of a pattern of at most 64 bytes, for which fewer flags are cleared.
const FEW_ITEMS: usize = 65;

/// One pass along a pattern, as one more element of the text is read.
#[derive(Clone, Copy)]
struct Pass {
    /// Whether a match reaches the position before the next item.
    entered: bool,
    /// Whether a match was at that position that has not read the element yet.
    waiting: bool,
}

impl Pass {
    /// Whether a match that has not read the element yet is before the next item.
    fn is_open(self, existed: bool) -> bool
        ensures { result ≡ (existed || self.waiting) }
    {
        existed || self.waiting
    }

    /// Passes one item; returns whether a match is before it.
    fn over(&mut self, existed: bool, any: bool, fits: bool) -> bool
        ensures exists { result ≡ (self.old.entered || (any && (existed || self.old.waiting))) }
        ensures entered { self.new.entered ≡ (if any
            then (self.old.entered || (any && (existed || self.old.waiting)))
            else ((existed || self.old.waiting) && fits)) }
        ensures waiting { self.new.waiting ≡ (any && (existed || self.old.waiting)) }
    {
        let here = existed || self.waiting;
        let exists = self.entered || any && here;
        self.entered = if any { exists } else { here && fits };
        self.waiting = any && here;
        exists
    }
}

/// Reads one more character, or begins; returns whether all that was read matches.
fn read_character(states: &mut [bool], pattern: &str, read: Option<char>) -> bool
    requires { length (chars pattern.now) ≤ length states.now }
    ensures states { states.new ≡ (pass is_star (fits_read represents read) (is_start read) false
        states.old (chars pattern.now)).0 }
    ensures ended { result ≡ (pass is_star (fits_read represents read) (is_start read) false
        states.old (chars pattern.now)).1 }
{
    let mut pass = Pass {
        entered: read.is_none(),
        waiting: false,
    };
    let mut index = 0;
    for item in pattern.chars() {
        let existed = states[index];
        states[index] = pass.over(existed, item == '*', represents(item, read));
        index += 1;
    }
    pass.entered
}

/// Whether the character that was read fits this one of a pattern.
fn represents(item: char, read: Option<char>) -> bool
    ensures { result ≡ fits_read represents read item }
{
    match read {
        None => false,
        Some(character) => item == '?' || item == character,
    }
}

/// Whether the text matches one segment of a pattern.
fn segment_matches(pattern: &str, text: &str) -> bool
    requires { length pattern.now ≤ 1024 }
    ensures { result ≡ segment_matches pattern.now text.now }
{
    if !has_wild(pattern) {
        return pattern == text;
    }
    match after_star(pattern) {
        Some(end) => text.ends_with(end),
        None => wild_matches(pattern, text),
    }
}

/// Whether the text matches a segment with `*` and `?`.
fn wild_matches(pattern: &str, text: &str) -> bool
    requires { length pattern.now ≤ 1024 }
    ensures { result ≡ wild_matches pattern.now text.now }
{
    if pattern.len() < FEW_ITEMS {
        let mut states = [false; FEW_ITEMS];
        characters_match(&mut states, pattern, text)
    } else {
        let mut states = [false; MOST_ITEMS];
        characters_match(&mut states, pattern, text)
    }
}

/// The same with these flags, more than the pattern has bytes and none of them set.
fn characters_match(states: &mut [bool], pattern: &str, text: &str) -> bool
    requires fit { length pattern.now < length states.now }
    requires none { AllByRecursion (λ exists. exists ≡ false) states.now }
    ensures { result ≡ wild_matches pattern.now text.now }
{
    let mut matched = read_character(states, pattern, None);
    for character in text.chars() {
        matched = read_character(states, pattern, Some(character));
    }
    matched
}

/// Reads one more segment, or begins; returns whether all that was read matches.
fn read_segment(states: &mut [bool], pattern: &str, read: Option<&str>) -> bool
    requires { length (segments pattern.now) ≤ length states.now × length pattern.now ≤ 1024 }
    ensures states { states.new
        ≡ (pass is_double_star (fits_read segment_matches (option_copied read.entry))
        (is_start (option_copied read.entry)) false states.old (segments pattern.now)).0 }
    ensures ended { result
        ≡ (pass is_double_star (fits_read segment_matches (option_copied read.entry))
        (is_start (option_copied read.entry)) false states.old (segments pattern.now)).1 }
{
    let mut pass = Pass {
        entered: read.is_none(),
        waiting: false,
    };
    let mut index = 0;
    for item in pattern.split('/') {
        let existed = states[index];
        let here = pass.is_open(existed);
        states[index] = pass.over(existed, is_double_star(item), fits_here(here, item, read));
        index += 1;
    }
    pass.entered
}

/// Whether the segment that was read matches this one of a pattern; evaluated only where a match is
/// before it.
fn fits_here(here: bool, item: &str, read: Option<&str>) -> bool
    requires { length item.now ≤ 1024 }
    ensures { result ≡ (here && fits_read segment_matches (option_copied read.entry) item.now) }
{
    match read {
        Some(segment) if here => segment_matches(item, segment),
        _ => false,
    }
}

/// Whether the path matches the pattern.
pub fn path_matches(pattern: &str, path: &str) -> bool
    requires { length pattern.now ≤ 1024 }
    ensures { result ≡ path_matches pattern.now path.now }
{
    if !has_wild(pattern) {
        return pattern == path;
    }
    if let Some(item) = after_folders(pattern) {
        return segment_matches(item, last_of(path));
    }
    match before_all(pattern) {
        Some(folder) => is_under(path, folder),
        None => steps_match(pattern, path),
    }
}

/// Whether the path matches the pattern, by steps along both.
fn steps_match(pattern: &str, path: &str) -> bool
    requires { length pattern.now ≤ 1024 }
    ensures { result ≡ path_matches pattern.now path.now }
{
    if pattern.len() < FEW_ITEMS {
        let mut states = [false; FEW_ITEMS];
        segments_match(&mut states, pattern, path)
    } else {
        let mut states = [false; MOST_ITEMS];
        segments_match(&mut states, pattern, path)
    }
}

/// The same with these flags, more than the pattern has bytes and none of them set.
fn segments_match(states: &mut [bool], pattern: &str, path: &str) -> bool
    requires short { length pattern.now ≤ 1024 }
    requires fit { length pattern.now < length states.now }
    requires none { AllByRecursion (λ exists. exists ≡ false) states.now }
    ensures { result ≡ path_matches pattern.now path.now }
{
    let mut matched = read_segment(states, pattern, None);
    for segment in path.split('/') {
        matched = read_segment(states, pattern, Some(segment));
    }
    matched
}
