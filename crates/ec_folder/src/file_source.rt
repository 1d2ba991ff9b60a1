// A source over a reader.
ghost use Rattle.std.specs.Prelude.{List, ℕ, IsSome, IsNone, IsErr};
ghost use Rattle.std.specs.declared.option.Option.{Option};
ghost use Rattle.std.specs.declared.option.Option.TheVariants.{None};
ghost use Rattle.std.specs.Io.{ReadsAtMost};
ghost use Rattle.ec_store.specs.Causes.{HasCause};

use ec_store::{Failed, Source};
use std::fs;
use std::io::Read;
use std::rt::Files;

/// A reader of a file or a stream that counts its faults. One that is missing fails at each read.
#[derive(Drop)]
pub struct FileSource<R> {
    pub inner: Option<R>,
    faults: u64,
}

impl<R: Read + Drop> FileSource<R> {
    /// No fault yet.
    pub fn new(inner: R) -> FileSource<R>
        ensures { IsSome result.inner }
    {
        FileSource {
            inner: Some(inner),
            faults: 0,
        }
    }

    /// A reader that could not be had. No fault yet.
    pub fn missing() -> FileSource<R>
        ensures { IsNone result.inner }
    {
        FileSource {
            inner: None,
            faults: 0,
        }
    }
}

/// The file at a path, which is missing where it can't be opened.
pub fn open<R: Files>(rt: &R, path: &str) -> FileSource<R::File> {
    match fs::open(rt, path) {
        Ok(file) => FileSource::new(file),
        Err(_) => FileSource::missing(),
    }
}

impl<R: Read> Source for FileSource<R> {
    ghost left = { λ s. None };

    ghost faults = { λ s. s.faults };

    fn read(&mut self, buf: &mut [u8]) -> Result<usize, Failed>
        ensures bound { ReadsAtMost result buf.new }
        ensures cause { HasCause self.old.faults self.new.faults result }
        ensures missing { IsNone self.old.inner → IsErr result × IsNone self.new.inner }
    {
        let read = match &mut self.inner {
            Some(inner) => inner.read(buf).ok(),
            None => None,
        };
        if read.is_none() {
            self.faults = self.faults.saturating_add(1);
        }
        read.ok_or(Failed)
    }
}

#[cfg(test)]
mod tests {
    use super::*;
    use std::test::Fail;

    /// What two reads give, each of up to four bytes.
    fn two_reads(rt: &HostRuntime) -> (Result<usize, Failed>, Result<usize, Failed>) {
        let mut source = open(rt, "source");
        let mut buf = [0u8; 4];
        (source.read(&mut buf), source.read(&mut buf))
    }

    #[test]
    fn fails_where_it_is_no_file(rt: HostRuntime) -> Result<(), Fail> {
        assert!(rt; two_reads(&rt) == (Err(Failed), Err(Failed)));
        fs::create_dir(&rt, "source")?;
        assert!(rt; two_reads(&rt) == (Err(Failed), Err(Failed)));
        fs::remove_dir(&rt, "source")?;
        fs::write(&rt, "source", "abcdef")?;
        assert!(rt; two_reads(&rt) == (Ok(4), Ok(2)));
        fs::remove_file(&rt, "source")?;
        Ok(())
    }
}
