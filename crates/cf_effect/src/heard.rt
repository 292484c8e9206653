//! The entries that a stack heard.
ghost use Rattle.std.specs.Prelude.{◌≡◌, ◌<◌, ◌≤◌, ◌^◌, [], true, length, vec_capacity, IfNone, IfOk, IfSome};
ghost use Rattle.cf_entry.specs.Entry.{spelling_of, IsProper};
ghost use Rattle.cf_entry.specs.EntryReading.{entry_of};
ghost use Rattle.cf_effect.specs.Heard.{is_success_outcome, spelled, unsuccessful};
ghost use Rattle.cf_effect.specs.Bounds.{IsShortOutcomeOf};

use cf_entry::{Entry, Reply, read_entry, write_entry};
use cf_tree::{NoMemory, TryClone};
use std::alloc::{AllocError, Global};
use std::marker::Model;

/// An entry, or its spelling.
#[derive(Drop)]
enum Form {
    Whole(Entry),
    Spelled(Vec<u8>),
}

/// An entry that a stack heard, which contracts see as the entry. It is kept as one, but for an
/// outcome that is a success: that may be kept as its spelling, so that a step over an outcome that is
/// awaited takes no memory.
#[derive(Drop)]
pub struct HeardEntry {
    form: Form,
}

/// The entries that a stack heard.
pub type HeardEntries = Vec<HeardEntry>;

impl Model for HeardEntry {
    ghost use Rattle.cf_entry.specs.declared.entry.Entry.{Entry};

    ghost Value = { Entry };

    ghost use Rattle.std.specs.Coded.{codes};
    ghost use Rattle.cf_tree.specs.Datum.{data_code};

    ghost coded = { Prim.hlevel (codes, data_code) };

    ghost use Rattle.cf_effect.specs.Heard.{entry_of_form};

    ghost view = { λ h. entry_of_form h.form };

    ghost use Rattle.cf_effect.specs.Heard.{IsForm};

    ghost invariant = { λ h. IsForm h.form };
}

/// A copy of an outcome that is no success; it takes no memory.
fn unsuccessful(entry: &Entry) -> Option<Entry>
    ensures { result ≡ unsuccessful entry.now }
{
    match entry {
        Entry::Outcome {
            number,
            token,
            answer,
            before,
            after,
        } => match answer {
            Reply::Failed { code } => Some(Entry::Outcome {
                number: *number,
                token: *token,
                answer: Reply::Failed { code: *code },
                before: *before,
                after: *after,
            }),
            Reply::Doubt => Some(Entry::Outcome {
                number: *number,
                token: *token,
                answer: Reply::Doubt,
                before: *before,
                after: *after,
            }),
            Reply::Success { .. } => None,
        },
        _ => None,
    }
}

impl HeardEntry {
    /// An entry as it is.
    pub fn new(entry: Entry) -> HeardEntry
        ensures { result ≡ entry }
    {
        HeardEntry {
            form: Form::Whole(entry),
        }
    }

    /// A success, kept as its spelling in bytes for which there is room; it takes no memory.
    #[tactic(auto, using(crate::proofs::Kept::kept_spelled))]
    pub(crate) fn spell(entry: &Entry, mut bytes: Vec<u8>) -> HeardEntry
        requires success { is_success_outcome entry.now ≡ true }
        requires small { length (spelling_of entry.now) < 2 ^ 32 }
        requires empty { bytes.items ≡ [] }
        requires room { length (spelling_of entry.now) ≤ vec_capacity bytes }
        requires proper { IsProper entry.now }
        ensures { result ≡ entry.now }
    {
        write_entry(entry, &mut bytes);
        HeardEntry {
            form: Form::Spelled(bytes),
        }
    }

    /// An outcome of a call, kept as its spelling where it is a success; it takes no memory.
    #[tactic(auto, using(crate::proofs::Kept::only_success, crate::proofs::Kept::same_outcome))]
    pub fn keep(token: u64, entry: &Entry, bytes: Vec<u8>) -> HeardEntry
        requires outcome { IsShortOutcomeOf token entry.now }
        requires small { length (spelling_of entry.now) < 2 ^ 32 }
        requires empty { bytes.items ≡ [] }
        requires room { length (spelling_of entry.now) ≤ vec_capacity bytes }
        requires proper { IsProper entry.now }
        ensures { result ≡ entry.now }
    {
        let _token = token;
        match unsuccessful(entry) {
            Some(outcome) => {
                drop(bytes);
                HeardEntry::new(outcome)
            }
            None => HeardEntry::spell(entry, bytes),
        }
    }

    /// A copy of the entry.
    ///
    /// # Errors
    ///
    /// Only for want of memory.
    pub fn entry(&self, alloc: Global) -> Result<Entry, AllocError>
        ensures { IfOk result (λ e. e ≡ self.now) }
    {
        match &self.form {
            Form::Whole(entry) => entry.try_clone(alloc),
            Form::Spelled(bytes) => read_spelled(alloc, bytes.as_slice()),
        }
    }

    /// The entry where it is kept as one, as each is that is no success of a call.
    pub fn as_entry(&self) -> Option<&Entry>
        ensures some { IfSome result (λ e. e.now ≡ self.now) }
        ensures none { IfNone result (is_success_outcome self.now ≡ true) }
    {
        match &self.form {
            Form::Whole(entry) => Some(entry),
            Form::Spelled(_) => None,
        }
    }
}

/// A copy is an entry, so that a spelling is read once.
impl TryClone for HeardEntry {
    fn try_clone(&self, alloc: Global) -> Result<HeardEntry, AllocError> {
        match self.entry(alloc) {
            Ok(entry) => Ok(HeardEntry::new(entry)),
            Err(failed) => Err(failed),
        }
    }
}

/// The entry of the spelling of a success.
fn read_spelled(alloc: Global, bytes: &[u8]) -> Result<Entry, AllocError>
    requires { is_success_outcome (spelled (entry_of bytes.now)) ≡ true }
    ensures { IfOk result (λ e. e ≡ spelled (entry_of bytes.now)) }
{
    match read_entry(alloc, bytes) {
        Ok(Some(entry)) => Ok(entry),
        Ok(None) => unreachable!(),
        Err(NoMemory) => Err(AllocError),
    }
}
