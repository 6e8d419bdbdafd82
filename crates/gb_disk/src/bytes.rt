//! The bytes of a file on a disk, all from one open file.
ghost use Rattle.std.specs.Prelude.{◌≤◌, length, IfOk, IfErr, IfSome};
ghost use Rattle.gb_disk.specs.Disk.{IsOfMachine};

use crate::device::Device;
use crate::entry::FileInfo;
use crate::span::Span;
use gb_folder::folder::FolderFault;
use std::alloc::Global;
use std::fs::{self, Files, OpenFile};
use std::io::{self, ErrorKind, Read, Seek, SeekFrom};

/// A file with fewer bytes is read by one system call.
const SMALL: u64 = 65_536;

/// Reads once, and again only after an interruption. Returns the number of bytes read.
fn read_once<D: Read>(file: &mut D, buf: &mut [u8]) -> io::Result<usize> {
    for _ in 0..u64::MAX {
        match file.read(buf) {
            Ok(read) => return Ok(read),
            Err(error) if error.kind() == ErrorKind::Interrupted => {}
            Err(error) => return Err(error),
        }
    }
    Ok(0)
}

impl<R: Files> Device<R> {
    /// Appends the bytes of a span of a file. Returns whether the open file is still the one that
    /// `info` describes; without `info`, whether it is a file at all. A small file that is read
    /// whole counts as the same if it has no further byte.
    fn read_from(
        &self,
        path: &str,
        info: Option<&FileInfo>,
        span: &Span,
        bytes: &mut Vec<u8>,
    ) -> io::Result<bool> {
        let mut file = fs::open(&self.rt, path)?;
        if span.at > 0 {
            file.seek(SeekFrom::Start(span.at))?;
        }
        match info {
            Some(info) if info.len < SMALL && span.most == info.len => {
                bytes.resize(span.most as usize + 1, 0)?;
                let read = read_once(&mut file, bytes.as_mut_slice())?;
                bytes.truncate(read);
                Ok(read as u64 == info.len)
            }
            Some(info) => {
                file.by_ref().take(span.most).read_to_end(bytes)?;
                Ok(info.is_of(&file.metadata()?))
            }
            None => {
                file.by_ref().take(span.most).read_to_end(bytes)?;
                Ok(file.metadata()?.is_file())
            }
        }
    }

    /// The bytes of a span of the file at a path that `info` describes. `None`: another file or no
    /// file is there by now, the file changed during the read, or it cannot be read. Without `info`
    /// the bytes are those that one open file yields up to its end.
    pub fn bytes_of(
        &self,
        alloc: Global,
        path: &str,
        info: Option<&FileInfo>,
        span: &Span,
    ) -> Result<Option<Vec<u8>>, FolderFault>
        ensures within { IfOk result
            (λ found. IfSome found (λ bytes. length bytes.items ≤ span.now.most)) }
        ensures enough { IfOk result
            (λ found. IfSome found (λ bytes. span.now.least ≤ length bytes.items)) }
        ensures err { IfErr result IsOfMachine }
    {
        let mut bytes = Vec::with_capacity(alloc, span.room())?;
        match self.read_from(path, info, span, &mut bytes) {
            // An empty file keeps no buffer.
            Ok(true) if bytes.is_empty() && span.least == 0 => Ok(Some(Vec::new(alloc))),
            Ok(true) if span.takes(bytes.len() as u64) => Ok(Some(bytes)),
            Ok(_) => Ok(None),
            Err(error) if error.kind() == ErrorKind::OutOfMemory => Err(FolderFault::OutOfMemory),
            Err(_) => Ok(None),
        }
    }
}
