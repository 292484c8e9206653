ghost use Rattle.std.specs.Prelude.{◌≡◌, List, ℕ, Option, IsTrue};
ghost use Rattle.cf_tree.specs.declared.request.Request.{Request};
ghost use Rattle.cf_tree.specs.declared.request.Answer.{Answer};
ghost use Rattle.cf_schema.specs.declared.described.Schema.{Schema};
ghost use Rattle.cf_handler.specs.Fence.{FencedLane};
ghost use Rattle.cf_handler.specs.Look.{HasLookCause, ShowsShort};
ghost use Rattle.cf_handler.specs.Move.{CreatesInLane, HasCause, IsShort};
ghost use Rattle.cf_handler.specs.Name.{is_lane_name};
ghost use Rattle.cf_handler.specs.Tells.{CallTells, FenceTells, HasFenceCause, IsStaleWhereBelow, LookTells};

use crate::fence::FenceAnswer;
use cf_schema::Schema;
use cf_tree::{Answer, Look, Request, Txt};

/// Who makes and changes resources of one type: a lane of the engine.
///
/// A call is settled by a success or a refusal, and the token answers the same from then on and acts no more. A
/// refusal changes no resource. After a fault the call may have acted or not, or it may act later, before any other
/// call. Each call is made in an epoch. The fence is the least epoch from which the lane takes calls: what is called
/// in an earlier one never acts after the fence was raised.
pub trait Handler {
    /// The lane's name.
    ghost label: { Self → List ℕ };

    /// The schema of the type of its resources.
    ghost schema_of: { Self → Schema };

    /// How often it has refused or failed.
    ghost count: { Self → ℕ };

    /// What it is, where it tells: what was live at first, which calls are settled, which may act later, and its
    /// fence.
    ghost told: { Self → Option FencedLane };

    /// What a call in an epoch under a token may answer, and what it makes of what a type keeps. Nothing more than the
    /// clauses of `call` is said where a type leaves this out.
    ghost answers: { Self → ℕ → ℕ → Request → Self → Answer → Type 0 } = { λ _ _ _ _ _ _. Unit {0} };

    /// The lane's name: 1 to 64 letters, digits and hyphens. It never changes.
    fn name(&self) -> &str
        ensures value { result.now ≡ label self.now }
        ensures form { IsTrue (is_lane_name result.now) };

    /// The schema of the type of its resources, which says the type's name. It never changes.
    fn schema(&self) -> &Schema
        ensures { result.now ≡ schema_of self.now };

    /// How often it has answered with a refusal or a fault. It never falls.
    fn faults(&self) -> u64
        ensures { result ≡ count self.now };

    /// Raises the fence to an epoch.
    ///
    /// `Raised` makes the fence the epoch. `Ahead` comes just where the fence is at least the epoch, which it tells,
    /// and changes nothing. `Fault` comes only where the count rose in this call; the fence is then as it was, or the
    /// epoch. No resource changes, but by calls that act late.
    fn fence(&mut self, epoch: u64) -> FenceAnswer
        ensures name { label self.new ≡ label self.old }
        ensures schema { schema_of self.new ≡ schema_of self.old }
        ensures cause { HasFenceCause (count self.old) (count self.new) result }
        ensures told { FenceTells (label self.old) (told self.old) (told self.new) epoch result (count self.old) (count self.new) };

    /// Asks for a change, in an epoch and under a token.
    ///
    /// `Success` and `Failed` settle the token, and a settled token answers the same again. `Failed` and `Fault` come
    /// only where the count rose in this call; after `Failed` no resource has changed, after `Fault` the call may
    /// have been settled or not, or may act later. `Stale` comes just where the epoch is below the fence, which it
    /// tells, and changes nothing; `NoMemory` may come in its place, and changes nothing. A created id begins with the
    /// lane's name and a colon and was never used before; an update and a deletion answer the id of their request,
    /// which was live. A deletion answers `NotFound` only where the id is not live. An id has at most 1,024 bytes, and
    /// attributes encode to at most 524,288.
    fn call(&mut self, epoch: u64, token: u64, request: &Request) -> Answer
        ensures name { label self.new ≡ label self.old }
        ensures schema { schema_of self.new ≡ schema_of self.old }
        ensures cause { HasCause (count self.old) (count self.new) result }
        ensures limits { IsShort result }
        ensures created { CreatesInLane (label self.old) request.now result }
        ensures stale { IsStaleWhereBelow (told self.old) epoch result }
        ensures told { CallTells (label self.old) (told self.old) (told self.new) epoch token request.now result }
        ensures answers { answers self.old epoch token request.now self.new result };

    /// Looks at the resource of an id, in an epoch. It changes none.
    ///
    /// `Found` comes only where the resource is live, and gives its properties and its attributes, which encode to at
    /// most 524,288 bytes. `Failed` with `NotFound` comes only where it is not live. Any other `Failed` and `Fault`
    /// come only where the count rose in this call. `Stale` comes just where the epoch is below the fence, which it
    /// tells; `NoMemory` may come in its place.
    fn read(&mut self, epoch: u64, physical: &Txt) -> Look
        ensures name { label self.new ≡ label self.old }
        ensures schema { schema_of self.new ≡ schema_of self.old }
        ensures cause { HasLookCause (count self.old) (count self.new) result }
        ensures limits { ShowsShort result }
        ensures told { LookTells (label self.old) (told self.old) (told self.new) epoch physical.now result };
}
