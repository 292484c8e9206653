ghost use Rattle.std.specs.Prelude.{◌≡◌, ℕ, List, Option, None};
ghost use Rattle.cf_io.specs.Sink.{Puts, HasPutCause};

/// Why bytes were not put, or not all of them.
#[derive(Clone, Copy, Debug, PartialEq, Eq)]
pub enum SinkFail {
    /// The sink did not take the bytes; its count of faults rose in the call.
    Failed,
    /// Memory was not there.
    NoMemory,
}

/// Where reports are printed to.
pub trait Sink {
    // The bytes put so far, where it tells them.
    ghost held: { Self → Option (List ℕ) } = { λ _. None };

    // How often it failed.
    ghost count: { Self → ℕ };

    /// Puts the bytes at the end. After an error, whichever it is, the sink holds some prefix of them more.
    fn put(&mut self, bytes: &[u8]) -> Result<(), SinkFail>
        ensures bytes { Puts (held self.old) (held self.new) bytes.now result }
        ensures cause { HasPutCause (count self.old) (count self.new) result };

    /// How often a put failed. The count never falls, and stays at 2^64 - 1.
    fn faults(&self) -> u64
        ensures { result ≡ count self.now };
}
