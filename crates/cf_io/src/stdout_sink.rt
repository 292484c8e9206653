ghost use Rattle.std.specs.Prelude.{◌≡◌, Err};
ghost use Rattle.cf_io.specs.Sink.{HasPutCause};

use crate::sink::{Sink, SinkFail};
use std::io;
use std::io::{ErrorKind, Write};

/// A sink that prints to a writer, as standard output, and counts the writes that fail.
///
/// A write that takes nothing counts as failed, and so does each error of the writer, but that of kind
/// `OutOfMemory`, which is want of memory. A failure that counts is told in one line on standard error, with the
/// system's words; where that can't be printed either, nothing else changes.
#[derive(Drop)]
pub struct StdoutSink<R: Eprint + Drop, W: Write + Drop> {
    rt: R,
    out: W,
    faults: u64,
}

impl<R: Eprint + Drop, W: Write + Drop> StdoutSink<R, W> {
    /// A sink that prints to this writer.
    pub fn new(rt: R, out: W) -> StdoutSink<R, W>
        ensures faultless { ⟦<StdoutSink<R, W> as Sink>⟧.count result ≡ 0 }
        ensures same { ⟦<StdoutSink<R, W> as Sink>⟧.held result ≡ W.contents out }
    {
        StdoutSink { rt, out, faults: 0 }
    }

    // The failure of a write.
    fn failed(&mut self, error: &io::Error) -> SinkFail
        ensures kept { self.new.out ≡ self.old.out }
        ensures cause { HasPutCause self.old.faults self.new.faults (Err result) }
    {
        if error.kind() == ErrorKind::OutOfMemory {
            return SinkFail::NoMemory;
        }
        self.faults = self.faults.saturating_add(1);
        drop(eprintln!(self.rt; "cfstack: standard output: {error}"));
        SinkFail::Failed
    }
}

impl<R: Eprint + Drop, W: Write + Drop> Sink for StdoutSink<R, W> {
    ghost held = { λ s. W.contents s.out };

    ghost count = { λ s. s.faults };

    fn put(&mut self, bytes: &[u8]) -> Result<(), SinkFail> {
        let mut written = 0;
        while written < bytes.len() {
            match self.out.write(&bytes[written..]) {
                Ok(0) => return Err(self.failed(&io::Error::from(ErrorKind::WriteZero))),
                Ok(taken) => written += taken,
                Err(error) => return Err(self.failed(&error)),
            }
        }
        Ok(())
    }

    fn faults(&self) -> u64 {
        self.faults
    }
}
