//! A folder over another one that keeps each call with its answer.
ghost use Rattle.std.specs.Prelude.{◌≡◌, ◌∷◌, ◌++◌, [], IfOk, OnOk, OnErr};
ghost use Rattle.gb_folder.specs.Calls.{Lists, Reads, ReadsPart, answered};
ghost use Rattle.gb_logged.specs.Logged.{call_of, log_of};

use gb_core::bytes::Bytes;
use gb_core::place::Place;
use gb_core::row::Row;
use gb_folder::folder::{Folder, FolderFault};
use std::alloc::{AllocError, Global};

/// A call of a folder, with its answer.
#[derive(Drop)]
pub enum LoggedCall {
    /// The root, and the places at or under it.
    Lists(Place, Result<Row<Place>, FolderFault>),
    /// The place, the limit, and the bytes.
    Reads(Place, u64, Result<Bytes, FolderFault>),
    /// The place, the first byte, how many are wanted, and the bytes.
    ReadsPart(Place, u64, u64, Result<Bytes, FolderFault>),
    /// The place, the bytes to be written, and the limit.
    Writes(Place, Bytes, u64, Result<(), FolderFault>),
    /// The place.
    Removes(Place, Result<(), FolderFault>),
}

/// Keeps each call with its answer. If there is no memory to keep it, the answer is `OutOfMemory`,
/// and a write or a removal is not made. Its contents are known where those of the inner folder
/// are.
#[derive(Drop)]
pub struct LoggedFolder<F> {
    alloc: Global,
    inner: F,
    calls: Vec<LoggedCall>,
}

impl<F: Folder + Drop> LoggedFolder<F> {
    /// The folder over `inner`, without calls yet.
    pub fn new(alloc: Global, inner: F) -> LoggedFolder<F>
        ensures inner { result.inner ≡ inner }
        ensures calls { result.calls.items ≡ [] }
    {
        LoggedFolder {
            alloc,
            inner,
            calls: Vec::new(alloc),
        }
    }

    /// The calls so far, in order.
    pub fn calls(&self) -> &[LoggedCall]
        ensures { result.now ≡ self.now.calls.items }
    {
        self.calls.as_slice()
    }

    /// The inner folder.
    pub fn into_inner(self) -> F
        ensures { result ≡ self.inner }
    {
        self.inner
    }
}

/// Keeps one call.
fn keep(calls: &mut Vec<LoggedCall>, call: LoggedCall) -> Result<(), AllocError>
    ensures ok { OnOk result (log_of calls.new.items ≡ log_of calls.old.items ++ call_of call ∷ []) }
    ensures err { OnErr result (log_of calls.new.items ≡ log_of calls.old.items) }
{
    calls.push(call)?;
    Ok(())
}

/// Equal places in the same order.
fn places_like(alloc: Global, places: &[Place]) -> Result<Row<Place>, AllocError>
    ensures { IfOk result (λ copied. copied ≡ places.now) }
{
    let mut copied = Row::new(alloc);
    for place in places {
        copied.push(place.copy()?)?;
    }
    Ok(copied)
}

/// An equal answer to a listing.
fn listing_like(
    alloc: Global,
    answer: &Result<Vec<Place>, FolderFault>,
) -> Result<Result<Row<Place>, FolderFault>, AllocError>
    ensures { IfOk result (λ copied. copied ≡ answered answer.now) }
{
    match answer {
        Ok(places) => Ok(Ok(places_like(alloc, places.as_slice())?)),
        Err(fault) => Ok(Err(*fault)),
    }
}

/// An equal answer to a reading.
fn reading_like(
    alloc: Global,
    answer: &Result<Vec<u8>, FolderFault>,
) -> Result<Result<Bytes, FolderFault>, AllocError>
    ensures { IfOk result (λ copied. copied ≡ answered answer.now) }
{
    match answer {
        Ok(bytes) => Ok(Ok(Bytes::from_slice(alloc, bytes.as_slice())?)),
        Err(fault) => Ok(Err(*fault)),
    }
}

/// Keeps a listing with a copy of its answer.
fn keep_list(
    alloc: Global,
    calls: &mut Vec<LoggedCall>,
    root: &Place,
    answer: &Result<Vec<Place>, FolderFault>,
) -> Result<(), AllocError>
    ensures ok { OnOk result
        (log_of calls.new.items ≡ log_of calls.old.items ++ Lists root.now (answered answer.now) ∷ []) }
    ensures err { OnErr result (log_of calls.new.items ≡ log_of calls.old.items) }
{
    let copied = listing_like(alloc, answer)?;
    keep(calls, LoggedCall::Lists(root.copy()?, copied))
}

/// Keeps a reading with a copy of its answer.
fn keep_read(
    alloc: Global,
    calls: &mut Vec<LoggedCall>,
    place: &Place,
    limit: u64,
    answer: &Result<Vec<u8>, FolderFault>,
) -> Result<(), AllocError>
    ensures ok { OnOk result (log_of calls.new.items
        ≡ log_of calls.old.items ++ Reads place.now limit (answered answer.now) ∷ []) }
    ensures err { OnErr result (log_of calls.new.items ≡ log_of calls.old.items) }
{
    let copied = reading_like(alloc, answer)?;
    keep(calls, LoggedCall::Reads(place.copy()?, limit, copied))
}

/// Keeps a reading of a part with a copy of its answer.
fn keep_read_part(
    alloc: Global,
    calls: &mut Vec<LoggedCall>,
    place: &Place,
    at: u64,
    len: u64,
    answer: &Result<Vec<u8>, FolderFault>,
) -> Result<(), AllocError>
    ensures ok { OnOk result (log_of calls.new.items
        ≡ log_of calls.old.items ++ ReadsPart place.now at len (answered answer.now) ∷ []) }
    ensures err { OnErr result (log_of calls.new.items ≡ log_of calls.old.items) }
{
    let copied = reading_like(alloc, answer)?;
    keep(calls, LoggedCall::ReadsPart(place.copy()?, at, len, copied))
}

impl<F: Folder + Drop> Folder for LoggedFolder<F> {
    ghost use Rattle.gb_logged.specs.Logged.{allowed_over};

    ghost device = { record {
      failures = λ f. F.device.failures f.inner;
      may_leave = λ f. F.device.may_leave f.inner;
      allowed = λ old call new. allowed_over F.device old call new;
      faithful = λ f. F.device.faithful f.inner;
      contents = λ f. F.device.contents f.inner;
    } };

    ghost sound = { λ f. F.sound f.inner };

    ghost placed = { λ f. F.placed f.inner };

    fn list(&mut self, alloc: Global, root: &Place) -> Result<Vec<Place>, FolderFault> {
        let answer = self.inner.list(alloc, root);
        keep_list(self.alloc, &mut self.calls, root, &answer)?;
        answer
    }

    fn read(&mut self, alloc: Global, place: &Place, limit: u64) -> Result<Vec<u8>, FolderFault> {
        let answer = self.inner.read(alloc, place, limit);
        keep_read(self.alloc, &mut self.calls, place, limit, &answer)?;
        answer
    }

    fn read_part(
        &mut self,
        alloc: Global,
        place: &Place,
        at: u64,
        len: u64,
    ) -> Result<Vec<u8>, FolderFault> {
        let answer = self.inner.read_part(alloc, place, at, len);
        keep_read_part(self.alloc, &mut self.calls, place, at, len, &answer)?;
        answer
    }

    fn write(&mut self, place: &Place, bytes: &[u8], limit: u64) -> Result<(), FolderFault> {
        let written = Bytes::from_slice(self.alloc, bytes)?;
        let at = place.copy()?;
        self.calls.reserve(1)?;
        let answer = self.inner.write(place, bytes, limit);
        self.calls
            .push_reserved(LoggedCall::Writes(at, written, limit, answer));
        answer
    }

    fn remove(&mut self, place: &Place) -> Result<(), FolderFault> {
        let at = place.copy()?;
        self.calls.reserve(1)?;
        let answer = self.inner.remove(place);
        self.calls.push_reserved(LoggedCall::Removes(at, answer));
        answer
    }
}

#[cfg(test)]
mod tests {
    use super::*;
    use gb_folder::memory::MemoryFolder;
    use std::test::Fail;

    /// The call and its answer, on a line.
    fn line_of(alloc: Global, call: &LoggedCall) -> Result<String, Fail> {
        Ok(match call {
            LoggedCall::Lists(root, Ok(places)) => {
                format!(in alloc; "list {root}: {}\n", places.as_slice().len())?
            }
            LoggedCall::Reads(place, limit, Ok(bytes)) => {
                let text = std::str::from_utf8(bytes.as_slice())?;
                format!(in alloc; "read {place} in {limit}: {text}\n")?
            }
            LoggedCall::Reads(place, limit, Err(fault)) => {
                format!(in alloc; "read {place} in {limit}: {fault}\n")?
            }
            LoggedCall::Writes(place, bytes, limit, Ok(())) => {
                let text = std::str::from_utf8(bytes.as_slice())?;
                format!(in alloc; "write {place} {text} in {limit}\n")?
            }
            LoggedCall::Removes(place, Err(fault)) => {
                format!(in alloc; "remove {place}: {fault}\n")?
            }
            _ => format!(in alloc; "another\n")?,
        })
    }

    fn lines_of(alloc: Global, calls: &[LoggedCall]) -> Result<String, Fail> {
        let mut lines = String::new(alloc);
        for call in calls {
            lines.push_str(line_of(alloc, call)?.as_str())?;
        }
        Ok(lines)
    }

    #[test]
    fn keeps_calls_with_their_answers(rt: HostRuntime) -> Result<(), Fail> {
        let alloc = rt.alloc();
        let mut folder = LoggedFolder::new(alloc, MemoryFolder::new(alloc));
        let place = Place::read(alloc, "src/a")?;
        let root = Place::read(alloc, "src")?;
        let _ = folder.read(alloc, &place, 9);
        folder.write(&place, b"one", 9)?;
        folder.read(alloc, &place, 9)?;
        folder.list(alloc, &root)?;
        let _ = folder.remove(&root);
        let lines = "read src/a in 9: missing\nwrite src/a one in 9\nread src/a in 9: one\n\
            list src: 1\nremove src: blocked\n";
        assert_eq!(rt; lines_of(alloc, folder.calls())?.as_str(), lines);
        let mut inner = folder.into_inner();
        assert_eq!(rt; inner.read(alloc, &place, 9)?.as_slice(), b"one".as_slice());
        Ok(())
    }
}
