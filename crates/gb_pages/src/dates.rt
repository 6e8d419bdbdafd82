//! The dates of pages, as `2026-03-01`.
ghost use Rattle.std.specs.Prelude.{◌≡◌, ◌++◌, ◌≤◌, ◌+◌, ◌==◌, true, codes, count_by, Ok, IfOk, MatchResult};
ghost use Rattle.std.specs.Option.{option_copied};
ghost use Rattle.gb_action.specs.declared.reply.ActionFault.TheVariants.{ActionFailed};
ghost use Rattle.gb_pages.specs.Dates.{date_of, day_path, is_date, is_day, is_marked, is_two, line_after};
ghost use Rattle.gb_pages.specs.Dates.{message_at, two, with_entry};
ghost use Rattle.gb_with.specs.TreeKinds.{IsFailure};

use crate::front_matter::{first_line, front_matter};
use crate::page_paths::as_path;
use bstr::ByteSlice;
use gb_action::files::Files;
use gb_action::reply::ActionFault;
use gb_core::bytes::Bytes;
use gb_core::place::RelPath;
use gb_core::text::Text;
use jiff_core::civil::Date;
use std::alloc::{AllocError, Global};

/// The date of a page, if its front matter has the key `date`. It fails at a value that is no date.
pub fn date_of<'a>(
    alloc: Global,
    path: &RelPath,
    text: &'a [u8],
) -> Result<Option<&'a [u8]>, ActionFault>
    ensures { let meant = date_of path.now text.now in
        MatchResult result (λ date. meant ≡ Ok (option_copied date)) (λ fault. IsFailure fault meant) }
{
    let Some((before, after)) = front_matter(text).split_once_str(b"\ndate: ") else {
        return Ok(None);
    };
    let date = first_line(after);
    if is_date(date) {
        return Ok(Some(date));
    }
    Err(fault_at(alloc, path, line_after(before), "date is not YYYY-MM-DD")?)
}

/// The line of a page after a part of its front matter.
fn line_after(front: &[u8]) -> usize
    ensures { result ≡ line_after front.now }
{
    front.iter().filter(|byte| **byte == b'\n').count() + 2
}

/// The failure of a page, with the line of the error.
pub(crate) fn fault_at(
    alloc: Global,
    path: &RelPath,
    line: usize,
    what: &str,
) -> Result<ActionFault, AllocError>
    ensures { IfOk result (λ fault. fault ≡ ActionFailed (message_at path.now line what.now)) }
{
    let text = Text::new(format!(in alloc; "{path}:{line}: {what}")?)?;
    Ok(ActionFault::ActionFailed(text))
}

/// Stores an entry at a date and the path of its text.
pub fn put_entry(
    alloc: Global,
    days: &mut Files,
    path: &RelPath,
    date: &[u8],
    entry: Bytes,
) -> Result<(), ActionFault>
    ensures { let meant = with_entry days.old path.now entry (day_path date.now path.now) in
        MatchResult result (λ _. meant ≡ Ok days.new) (λ fault. IsFailure fault meant) }
{
    match day_path(alloc, date, path)? {
        Some(day) => {
            days.insert(day, entry)?;
            Ok(())
        }
        None => {
            let text = Text::new(format!(in alloc; "{path}: too long for a date")?)?;
            Err(ActionFault::ActionFailed(text))
        }
    }
}

/// The sort path of an entry.
fn day_path(alloc: Global, date: &[u8], path: &RelPath) -> Result<Option<RelPath>, AllocError>
    ensures { IfOk result (λ day. day ≡ day_path date.now path.now) }
{
    let mut day = date.to_vec(alloc)?;
    day.push(b'/')?;
    day.extend_from_slice(path.as_str().as_bytes())?;
    as_path(alloc, day.as_slice())
}

/// Whether a text is a date of the calendar, as `2026-03-01`.
fn is_date(text: &[u8]) -> bool
    ensures { result ≡ is_date text.now }
{
    is_marked(text)
        && is_two(text[0], text[1])
        && is_two(text[2], text[3])
        && is_two(text[5], text[6])
        && is_two(text[8], text[9])
        && is_day(
            100 * two(text[0], text[1]) + two(text[2], text[3]),
            two(text[5], text[6]),
            two(text[8], text[9]),
        )
}

/// Whether a text has ten bytes, of which the fifth and the eighth are `-`.
fn is_marked(text: &[u8]) -> bool
    ensures { result ≡ is_marked text.now }
{
    text.len() == 10 && text[4] == b'-' && text[7] == b'-'
}

/// Whether these are two digits.
fn is_two(tens: u8, ones: u8) -> bool
    ensures { result ≡ is_two tens ones }
{
    tens.is_ascii_digit() && ones.is_ascii_digit()
}

/// The number that two digits form.
fn two(tens: u8, ones: u8) -> u16
    requires { is_two tens ones ≡ true }
    ensures number { result ≡ two tens ones }
    ensures small { result ≤ 99 }
{
    10 * (tens - b'0') as u16 + (ones - b'0') as u16
}

/// Whether the calendar has a day.
fn is_day(year: u16, month: u16, day: u16) -> bool
    requires year { year ≤ 9999 }
    requires month { month ≤ 99 }
    requires day { day ≤ 99 }
    ensures { result ≡ is_day year month day }
{
    Date::new(year as i16, month as i8, day as i8).is_ok()
}
