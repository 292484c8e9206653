ghost use Rattle.std.specs.Prelude.{◌≡◌, ℕ, Option, None};
ghost use Rattle.cf_io.specs.Library.{Texts, Fetches, HasFetchCause, CountsMisses};

/// Why a fetch came to nothing.
#[derive(Clone, Copy, Debug, PartialEq, Eq)]
pub enum FetchFault {
    /// The library could not be read; its count of faults rose in the call.
    Failed,
    /// Memory was not there.
    NoMemory,
}

/// Named texts, as the templates that a deployment names.
pub trait Library {
    // The names that it holds and their bytes, where it tells them.
    ghost texts: { Self → Option Texts } = { λ _. None };

    // How often it failed.
    ghost count: { Self → ℕ };

    // How often it held nothing under a wanted name.
    ghost missed: { Self → ℕ };

    /// The bytes that the library holds under a name, and None exactly where it holds none.
    /// It changes no content. A failed fetch may be tried again.
    fn fetch(&mut self, name: &str) -> Result<Option<Vec<u8>>, FetchFault>
        ensures found { Fetches (texts self.old) name.now result }
        ensures same { texts self.new ≡ texts self.old }
        ensures cause { HasFetchCause (count self.old) (count self.new) result }
        ensures misses { CountsMisses (missed self.old) (missed self.new) result };

    /// How often a fetch failed. The count never falls, and stays at 2^64 - 1.
    fn faults(&self) -> u64
        ensures { result ≡ count self.now };

    /// How often a fetch found nothing. The count never falls, and stays at 2^64 - 1.
    fn misses(&self) -> u64
        ensures { result ≡ missed self.now };
}
