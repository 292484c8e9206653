//! Rows of a table, as they are written.
ghost use Rattle.std.specs.Prelude.{◌≡◌, ◌≤◌, ◌++◌, IfOk, OnOk, vec_len, length};
ghost use Rattle.byteorder.specs.Endian.{big_bytes};
ghost use Rattle.cf_entry.specs.Entry.{spelling_of};
ghost use Rattle.cf_tokens.specs.Rows.{row_bytes};

use byteorder::{BigEndian, ByteOrder};
use cf_entry::{Entry, LaneNames, Reply, entry_size, write_entry};
use cf_handler::Settlement;
use cf_tree::{Request, Txt};
use std::alloc::{AllocError, Global};

/// The longest spelling of an entry in a table, in bytes.
const MOST_BYTES: u64 = 1_073_741_824;

/// Why there is no row.
#[derive(Clone, Copy, Debug)]
pub enum Unspelled {
    NoMemory,
    /// The spelling of an entry would be longer than 1,073,741,824 bytes.
    TooLong,
}

impl From<AllocError> for Unspelled {
    fn from(_error: AllocError) -> Unspelled {
        Unspelled::NoMemory
    }
}

// The spelling of an entry.
fn spell(alloc: Global, entry: &Entry) -> Result<Vec<u8>, Unspelled>
    ensures bytes { IfOk result (λ bytes. bytes.items ≡ spelling_of entry.now) }
    ensures short { IfOk result (λ bytes. vec_len bytes ≤ 1073741824) }
{
    let size = entry_size(entry);
    if size > MOST_BYTES {
        return Err(Unspelled::TooLong);
    }
    let mut bytes = Vec::with_capacity(alloc, size as usize)?;
    write_entry(entry, &mut bytes);
    Ok(bytes)
}

// A number in four bytes.
fn put_number(to: &mut Vec<u8>, number: u32) -> Result<(), AllocError>
    ensures { OnOk result (to.new.items ≡ to.old.items ++ big_bytes 4 number) }
{
    let mut four = [0u8; 4];
    BigEndian::write_u32(&mut four, number);
    to.extend_from_slice(&four)
}

// What stands behind the gate of a row.
fn row_of(alloc: Global, first: &[u8], second: &[u8]) -> Result<Vec<u8>, AllocError>
    requires first { length first.now ≤ 1073741824 }
    requires second { length second.now ≤ 1073741824 }
    ensures { IfOk result (λ bytes. bytes.items ≡ row_bytes first.now second.now) }
{
    let mut bytes = Vec::new(alloc);
    put_number(&mut bytes, (4 + first.len() + second.len()) as u32)?;
    put_number(&mut bytes, first.len() as u32)?;
    bytes.extend_from_slice(first)?;
    bytes.extend_from_slice(second)?;
    bytes.push(0)?;
    Ok(bytes)
}

// The answer as an entry tells it.
fn reply_of(alloc: Global, settlement: &Settlement) -> Result<Reply, AllocError> {
    match settlement {
        Settlement::Success { physical, attrs } => {
            let physical = physical.try_clone(alloc)?;
            let attrs = attrs.try_clone(alloc)?;
            Ok(Reply::Success { physical, attrs })
        }
        Settlement::Failed { code } => Ok(Reply::Failed { code: *code }),
    }
}

/// The row of a settled call, which stores at this path where it stores a file.
pub fn settled_row(
    alloc: Global,
    lane: &Txt,
    path: &Txt,
    token: u64,
    request: &Request,
    settlement: &Settlement,
) -> Result<Vec<u8>, Unspelled> {
    let intent = Entry::Intent {
        number: 0,
        token,
        lane: lane.try_clone(alloc)?,
        path: path.try_clone(alloc)?,
        request: request.try_clone(alloc)?,
    };
    let outcome = Entry::Outcome {
        number: 0,
        token,
        answer: reply_of(alloc, settlement)?,
        before: 0,
        after: 0,
    };
    let first = spell(alloc, &intent)?;
    let second = spell(alloc, &outcome)?;
    Ok(row_of(alloc, first.as_slice(), second.as_slice())?)
}

// The one lane, whose resources are of this type.
fn one_lane(alloc: Global, lane: &Txt, kind: &Txt) -> Result<LaneNames, AllocError> {
    let lane = lane.try_clone(alloc)?;
    let kind = kind.try_clone(alloc)?;
    let mut lanes = LaneNames::new(alloc);
    lanes.push((lane, kind))?;
    Ok(lanes)
}

/// The row of a fence.
pub fn fence_row(alloc: Global, lane: &Txt, kind: &Txt, epoch: u64) -> Result<Vec<u8>, Unspelled> {
    let lanes = one_lane(alloc, lane, kind)?;
    let first = spell(alloc, &Entry::Opened { epoch, lanes })?;
    Ok(row_of(alloc, first.as_slice(), &[])?)
}
