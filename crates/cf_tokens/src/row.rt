//! Rows of a table, as they are read.
use cf_entry::{Entry, LaneNames, Reply, read_entry};
use cf_handler::{Settled, Settlement};
use cf_tree::{NoMemory, Txt};
use std::alloc::{AllocError, Global};

/// What a row says.
#[derive(Drop)]
pub enum Row {
    /// A call of the lane is settled so. What it asks for stands at this path of the folder, where the lane stores files.
    Settled {
        lane: Txt,
        path: Txt,
        settled: Settled,
    },
    /// The fence of the lane was raised to the epoch.
    Fenced {
        lane: Txt,
        epoch: u64,
    },
}

// The answer for good, where it is one.
fn settlement_in(reply: Reply) -> Option<Settlement> {
    match reply {
        Reply::Success { physical, attrs } => Some(Settlement::Success { physical, attrs }),
        Reply::Failed { code } => Some(Settlement::Failed { code }),
        Reply::Doubt => None,
    }
}

// The answer to a token, where these bytes tell it.
fn read_settlement(
    alloc: Global,
    token: u64,
    bytes: &[u8],
) -> Result<Option<Settlement>, NoMemory> {
    match read_entry(alloc, bytes)? {
        Some(
            Entry::Outcome {
                number: _,
                token: answered,
                answer,
                before: _,
                after: _,
            },
        ) => {
            if answered == token {
                Ok(settlement_in(answer))
            } else {
                Ok(None)
            }
        }
        _ => Ok(None),
    }
}

// The fence of the one lane that was opened.
fn fenced(alloc: Global, lanes: &LaneNames, epoch: u64) -> Result<Option<Row>, AllocError> {
    match lanes.as_slice() {
        [(lane, _)] => Ok(Some(Row::Fenced {
            lane: lane.try_clone(alloc)?,
            epoch,
        })),
        _ => Ok(None),
    }
}

/// The row whose entries have these spellings, and None where there is no such row.
pub fn read_row(alloc: Global, first: &[u8], second: &[u8]) -> Result<Option<Row>, NoMemory> {
    match read_entry(alloc, first)? {
        Some(
            Entry::Intent {
                number: _,
                token,
                lane,
                path,
                request,
            },
        ) => match read_settlement(alloc, token, second)? {
            Some(settlement) => Ok(Some(Row::Settled {
                lane,
                path,
                settled: Settled {
                    token,
                    request,
                    settlement,
                },
            })),
            None => Ok(None),
        },
        Some(Entry::Opened { epoch, lanes }) => Ok(fenced(alloc, &lanes, epoch)?),
        _ => Ok(None),
    }
}
