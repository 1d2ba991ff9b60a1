// Reads and writes of files.
ghost use Rattle.std.specs.Prelude.{◌≡◌, ◌≤◌, length, IfOk};

use crate::fault::Fault;
use std::fs::OpenOptions;
use std::io::{ErrorKind, Read, Seek, SeekFrom, Write};
use std::rt::Files;
use std::{fs, io};

/// The file at a path, none where there is none.
pub fn open_to_read<R: Files>(rt: &R, path: &str) -> io::Result<Option<R::File>> {
    match fs::open(rt, path) {
        Ok(file) => Ok(Some(file)),
        Err(e) if e.kind() == ErrorKind::NotFound => Ok(None),
        Err(e) => Err(e),
    }
}

/// The file at a path, made where there is none.
pub fn open_to_write<R: Files>(rt: &R, path: &str) -> io::Result<R::File> {
    OpenOptions::new().write(true).create(true).open(rt, path)
}

/// Reads until the buffer is full or the file ends, and answers how many bytes it put in front.
pub fn fill<F: Read>(file: &mut F, buf: &mut [u8]) -> io::Result<usize>
    ensures bound { IfOk result (λ n. n ≤ length buf.new) }
    ensures len { length buf.new ≡ length buf.old }
{
    let mut filled = 0;
    for _ in 0..buf.len() {
        let count = file.read(&mut buf[filled..])?;
        if count == 0 {
            break;
        }
        filled += count;
    }
    Ok(filled)
}

/// Writes bytes from byte `at` on.
pub fn write_at<F: Write + Seek>(file: &mut F, at: u64, bytes: &[u8]) -> io::Result<()> {
    file.seek(SeekFrom::Start(at))?;
    file.write_all(bytes)
}

/// Puts a file with these bytes in the place of the one at the path. It is written beside it first, so that one of both
/// stands whole at any time.
pub fn replace_file<R: Files + AllocGlobal>(rt: &R, path: &str, bytes: &[u8]) -> Result<(), Fault> {
    let mut fresh = String::from_str(rt.alloc(), path)?;
    fresh.push_str(".new")?;
    fs::write(rt, fresh.as_str(), bytes)?;
    fs::rename(rt, fresh.as_str(), path)?;
    Ok(())
}

/// Removes the file at a path, where there is one.
pub fn remove_if_there<R: Files>(rt: &R, path: &str) -> io::Result<()> {
    match fs::remove_file(rt, path) {
        Err(e) if e.kind() != ErrorKind::NotFound => Err(e),
        _ => Ok(()),
    }
}
