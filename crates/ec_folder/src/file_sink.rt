// A sink over a writer.
ghost use Rattle.std.specs.Prelude.{List, ℕ};
ghost use Rattle.std.specs.declared.option.Option.{Option};
ghost use Rattle.std.specs.declared.option.Option.TheVariants.{None};

use ec_store::{Sink, SinkFault};
use std::io::Write;

/// A writer of a file or a stream that counts its faults, a write of nothing among them.
#[derive(Drop)]
pub struct FileSink<W> {
    inner: W,
    faults: u64,
}

impl<W: Write + Drop> FileSink<W> {
    /// No fault yet.
    pub fn new(inner: W) -> FileSink<W> {
        FileSink { inner, faults: 0 }
    }
}

impl<W: Write> Sink for FileSink<W> {
    ghost written = { λ s. None };

    ghost faults = { λ s. s.faults };

    fn write(&mut self, bytes: &[u8]) -> Result<usize, SinkFault> {
        match self.inner.write(bytes) {
            Ok(count) => {
                if count == 0 {
                    self.faults = self.faults.saturating_add(1);
                }
                Ok(count)
            }
            Err(_) => {
                self.faults = self.faults.saturating_add(1);
                Err(SinkFault::Failed)
            }
        }
    }
}

#[cfg(test)]
mod tests {
    use super::*;
    use std::fs;
    use std::test::Fail;

    #[test]
    fn writes_to_its_file(rt: HostRuntime) -> Result<(), Fail> {
        let mut sink = FileSink::new(fs::create(&rt, "sink")?);
        assert!(rt; sink.write(b"abc") == Ok(3));
        assert!(rt; sink.write(b"def") == Ok(3));
        assert_eq!(rt; fs::read(&rt, "sink")?.as_slice(), b"abcdef".as_slice());
        fs::remove_file(&rt, "sink")?;
        Ok(())
    }
}
