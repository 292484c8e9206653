ghost use Rattle.std.specs.Prelude.{◌≡◌, [], Some};
ghost use Rattle.cf_io.specs.Sink.{Puts};

use crate::sink::{Sink, SinkFail};
use std::alloc::Global;

/// A sink in memory that never fails: its count of faults is the constant 0.
#[derive(Drop)]
pub struct SteadySink {
    bytes: Vec<u8>,
}

impl SteadySink {
    /// A sink that holds nothing yet.
    pub fn new(alloc: Global) -> SteadySink
        ensures { ⟦<SteadySink as Sink>⟧.held result ≡ Some [] }
    {
        SteadySink {
            bytes: Vec::new(alloc),
        }
    }

    /// The bytes put so far.
    pub fn bytes(&self) -> &[u8]
        ensures { ⟦<SteadySink as Sink>⟧.held self.now ≡ Some result.now }
    {
        self.bytes.as_slice()
    }
}

impl Sink for SteadySink {
    ghost use Rattle.std.specs.Prelude.{Some};

    ghost held = { λ s. Some s.bytes.items };

    ghost count = { λ _. 0 };

    fn put(&mut self, bytes: &[u8]) -> Result<(), SinkFail> {
        match self.bytes.extend_from_slice(bytes) {
            Ok(()) => Ok(()),
            Err(_) => Err(SinkFail::NoMemory),
        }
    }

    fn faults(&self) -> u64 {
        0
    }
}
