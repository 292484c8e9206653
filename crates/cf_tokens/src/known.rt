//! What the rows of a table say.
ghost use Rattle.std.specs.Prelude.{◌≡◌, ◌<◌, IfOk, IfSome, length};

use crate::row::{Row, read_row};
use byteorder::{BigEndian, ByteOrder};
use cf_answers::{LiveResource, LiveSet, is_of_lane};
use cf_handler::Settled;
use cf_tree::{NoMemory, Request, Txt};
use std::alloc::{AllocError, Global};

/// The gate of a row whose call is settled, and may be undone yet.
pub const SETTLED: u8 = 1;

/// The gate of a row whose call is settled and done.
pub const DONE: u8 = 2;

/// What the last row may have left undone in the folder.
#[derive(Drop)]
pub struct Undone {
    /// Where the gate of its row stands.
    pub at: u64,
    /// The name of the file in the folder.
    pub path: Txt,
    pub request: Request,
}

/// What the rows of a table say to one of its lanes: what is live in all of its lanes, and the lane's own tokens and fence.
#[derive(Drop)]
pub struct Known {
    alloc: Global,
    name: Txt,
    end: u64,
    last: Option<u64>,
    fence: u64,
    settled: Vec<Settled>,
    live: LiveSet,
    undone: Option<Undone>,
}

/// A row of bytes: the spellings of its two entries, and what follows.
struct Spelled<'a> {
    first: &'a [u8],
    second: &'a [u8],
    next: &'a [u8],
}

/// What stands behind a gate: a row, and from the next gate on what follows. None where the row is not whole.
fn take_row(bytes: &[u8]) -> Option<Spelled<'_>>
    ensures { IfSome result (λ row. length row.next.now < length bytes.now) }
{
    let (size, behind) = bytes.split_first_chunk::<4>()?;
    let size = BigEndian::read_u32(size) as usize;
    if behind.len() <= size {
        return None;
    }
    let (body, next) = behind.split_at(size);
    let (size, entries) = body.split_first_chunk::<4>()?;
    let size = BigEndian::read_u32(size) as usize;
    if entries.len() < size {
        return None;
    }
    let (first, second) = entries.split_at(size);
    Some(Spelled {
        first,
        second,
        next,
    })
}

impl Known {
    /// Of no rows.
    pub fn new(alloc: Global, name: Txt) -> Known {
        Known {
            alloc,
            name,
            end: 0,
            last: None,
            fence: 0,
            settled: Vec::new(alloc),
            live: LiveSet::new(alloc),
            undone: None,
        }
    }

    /// The lane.
    pub fn name(&self) -> &Txt {
        &self.name
    }

    /// Where the gate of the next row stands.
    pub fn end(&self) -> u64 {
        self.end
    }

    /// Where the gate of the last row stands, and what it is.
    pub fn last_gate(&self) -> Option<(u64, u8)> {
        let at = self.last?;
        match &self.undone {
            Some(_) => Some((at, SETTLED)),
            None => Some((at, DONE)),
        }
    }

    /// The lane's fence.
    pub fn fence(&self) -> u64 {
        self.fence
    }

    /// The call that settled a token of the lane.
    pub fn settled(&self, token: u64) -> Option<&Settled> {
        self.settled.iter().find(|settled| settled.token == token)
    }

    /// What is live in the lanes of the table.
    pub fn live(&self) -> &[LiveResource] {
        self.live.as_slice()
    }

    /// What is live in the lanes of the table, where this id is one of the lane's own, and none elsewhere.
    pub fn own(&self, id: &Txt) -> &[LiveResource] {
        if is_of_lane(self.name.as_str(), id) {
            self.live.as_slice()
        } else {
            &[]
        }
    }

    /// The live resources on which the answer to a request rests: for a creation those of all lanes, else those of its own lane.
    pub fn met(&self, request: &Request) -> &[LiveResource] {
        match request {
            Request::Create { kind: _, props: _ } => self.live.as_slice(),
            Request::Update { physical, props: _ } => self.own(physical),
            Request::Delete { physical } => self.own(physical),
        }
    }

    /// What the last row may have left undone.
    pub fn undone(&self) -> &Option<Undone> {
        &self.undone
    }

    /// Nothing is undone.
    pub fn forget_undone(&mut self) {
        self.undone = None;
    }

    // What a row with this gate may leave undone.
    fn undone_by(
        &self,
        gate: u8,
        path: Txt,
        request: &Request,
    ) -> Result<Option<Undone>, AllocError> {
        if gate != SETTLED {
            return Ok(None);
        }
        Ok(Some(Undone {
            at: self.end,
            path,
            request: request.try_clone(self.alloc)?,
        }))
    }

    // Learns that a call of a lane is settled. False where that can't be.
    fn learn_settled(
        &mut self,
        gate: u8,
        lane: &Txt,
        path: Txt,
        settled: Settled,
    ) -> Result<bool, AllocError> {
        let undone = self.undone_by(gate, path, &settled.request)?;
        self.settled.reserve(1)?;
        if !self.live.change(&settled.request, &settled.settlement)? {
            return Ok(false);
        }
        self.undone = undone;
        if *lane == self.name {
            self.settled.push_reserved(settled);
        }
        Ok(true)
    }

    // Learns a row. False where it can't be.
    fn learn(&mut self, gate: u8, row: Row) -> Result<bool, AllocError> {
        match row {
            Row::Settled {
                lane,
                path,
                settled,
            } => self.learn_settled(gate, &lane, path, settled),
            Row::Fenced { lane, epoch } => {
                if lane == self.name {
                    self.fence = epoch;
                }
                self.undone = None;
                Ok(true)
            }
        }
    }

    // Learns the row behind a gate, and gives what follows it. None where there is no such row.
    fn learn_one<'a>(&mut self, gate: u8, behind: &'a [u8]) -> Result<Option<&'a [u8]>, NoMemory>
        ensures { IfOk result (λ o. IfSome o (λ next. length next.now < length behind.now)) }
    {
        let Some(
            Spelled {
                first,
                second,
                next,
            },
        ) = take_row(behind)
        else {
            return Ok(None);
        };
        let Some(row) = read_row(self.alloc, first, second)? else {
            return Ok(None);
        };
        if !self.learn(gate, row)? {
            return Ok(None);
        }
        self.last = Some(self.end);
        let size = behind.len().saturating_sub(next.len()) as u64;
        self.end = self.end.saturating_add(size.saturating_add(1));
        Ok(Some(next))
    }

    /// Learns the rows that stand from the next gate on, up to one that is shut. False where a row is not whole, or says what
    /// can't be; the rows before it are known then.
    ///
    /// # Errors
    /// Want of memory; some rows are known then.
    pub fn learn_rows(&mut self, bytes: &[u8]) -> Result<bool, NoMemory> {
        let mut rest = bytes;
        while let [gate, behind @ ..] = rest {
            if *gate != SETTLED && *gate != DONE {
                return Ok(true);
            }
            let Some(next) = self.learn_one(*gate, behind)? else {
                return Ok(false);
            };
            rest = next;
        }
        Ok(false)
    }
}
