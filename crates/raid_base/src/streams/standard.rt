//! Readers and buffered writers of the standard library as sources and sinks. They tell nothing of their content.
ghost use Rattle.std.specs.Prelude.{◌≡◌, ◌≤◌, ◌<◌, ◌++◌, ℕ, List, [], Bool, true, false, Ok, IfOk, OnOk, OnErr, is_err, length};
ghost use Rattle.std.specs.Io.Buffered.{writer_buffer, writer_contents};
ghost use Rattle.std.specs.Io.KnownBytes.{ReadConsumes, Appends, Keeps};
ghost use Rattle.raid_base.specs.Counts.{HasCause};

use super::{Sink, Source};
use crate::status::Failed;
use std::io::{BufWriter, Read, Write};

/// A reader as a source, with the number of its failures so far, which stays at the greatest `u64`.
#[derive(Drop)]
pub struct ReaderSource<R> {
    pub reader: R,
    pub faults: u64,
}

impl<R> ReaderSource<R> {
    /// A source of what the reader gives.
    pub fn over(reader: R) -> Self
        ensures { result ≡ record { reader = reader; faults = 0 } }
    {
        ReaderSource { reader, faults: 0 }
    }
}

impl<R: Read> Source for ReaderSource<R> {
    ghost left = { λ s. [] };

    ghost tells = { λ s. false };

    ghost faults = { λ s. s.faults };

    fn read(&mut self, piece: &mut [u8]) -> Result<usize, Failed>
        ensures bound { IfOk result (λ n. n ≤ length piece.old) }
        ensures cause { HasCause self.old.faults self.new.faults (is_err result) }
        ensures bytes { ReadConsumes (R.remaining self.old.reader) (R.remaining self.new.reader) result piece.new }
    {
        match self.reader.read(piece) {
            Ok(count) => Ok(count),
            Err(_) => {
                self.faults = self.faults.saturating_add(1);
                Err(Failed)
            }
        }
    }
}

/// A writer behind a buffer as a sink, with the number of its failures so far, which stays at the greatest `u64`.
///
/// The writer gets blocks as long as the buffer. What it has not taken stays in the buffer.
#[derive(Drop)]
pub struct WriterSink<W: Write + Drop> {
    pub writer: BufWriter<W>,
    pub faults: u64,
}

impl<W: Write + Drop> WriterSink<W> {
    /// A sink that gives all to the writer.
    pub fn over(writer: BufWriter<W>) -> Self
        ensures { result ≡ record { writer = writer; faults = 0 } }
    {
        WriterSink { writer, faults: 0 }
    }
}

impl<W: Write + Drop> Sink for WriterSink<W> {
    ghost use Rattle.std.proofs.Common.{rules};

    ghost written = { λ s. [] };

    ghost held = { λ s. writer_buffer s.writer };

    ghost tells = { λ s. false };

    ghost faults = { λ s. s.faults };

    ghost last = { Prim.search rules };

    fn write_all(&mut self, piece: &[u8]) -> Result<(), Failed>
        ensures cause { HasCause self.old.faults self.new.faults (is_err result) }
        ensures bytes { OnOk result (Appends (writer_contents W.contents self.old.writer) (writer_contents W.contents self.new.writer) piece.now) }
    {
        match self.writer.write_all(piece) {
            Ok(()) => Ok(()),
            Err(_) => {
                self.faults = self.faults.saturating_add(1);
                Err(Failed)
            }
        }
    }

    fn flush(&mut self) -> Result<(), Failed>
        ensures emptied { OnOk result (writer_buffer self.new.writer ≡ []) }
        ensures cause { HasCause self.old.faults self.new.faults (is_err result) }
        ensures bytes { Keeps (writer_contents W.contents self.old.writer) (writer_contents W.contents self.new.writer) }
    {
        match self.writer.flush() {
            Ok(()) => Ok(()),
            Err(_) => {
                self.faults = self.faults.saturating_add(1);
                Err(Failed)
            }
        }
    }
}

#[cfg(test)]
mod tests {
    use super::*;
    use std::test::Fail;

    #[test]
    fn a_reader_is_a_source(rt: HostRuntime) {
        let bytes: &[u8] = &[1, 2, 3];
        let mut source = ReaderSource::over(bytes);
        let mut piece = [0; 2];
        assert_eq!(rt; source.read(&mut piece), Ok(2));
        assert_eq!(rt; piece, [1, 2]);
        assert_eq!(rt; source.read(&mut piece), Ok(1));
        assert_eq!(rt; source.read(&mut piece), Ok(0));
        assert_eq!(rt; piece, [3, 2]);
        assert_eq!(rt; source.faults, 0);
    }

    #[test]
    fn a_writer_gets_what_is_written_when_it_is_flushed(rt: HostRuntime) -> Result<(), Fail> {
        let mut bytes = [0; 3];
        let writer = BufWriter::with_capacity(rt.alloc(), 8, bytes.as_mut_slice())?;
        let mut sink = WriterSink::over(writer);
        assert_eq!(rt; sink.write_all(&[1, 2]), Ok(()));
        assert_eq!(rt; sink.writer.get_ref().len(), 3);
        assert_eq!(rt; sink.flush(), Ok(()));
        assert_eq!(rt; sink.writer.get_ref().len(), 1);
        assert_eq!(rt; sink.write_all(&[3, 4]), Ok(()));
        assert_eq!(rt; sink.faults, 0);
        assert_eq!(rt; sink.flush(), Err(Failed));
        assert_eq!(rt; sink.faults, 1);
        drop(sink);
        assert_eq!(rt; bytes, [1, 2, 3]);
        Ok(())
    }
}
