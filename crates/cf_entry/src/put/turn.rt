//! How the causes of turns are written.
ghost use Rattle.std.specs.Prelude.{◌<◌, ◌^◌, length, IfSome};
ghost use Rattle.cf_entry.specs.Bytes.{option_bytes, HasCapacity, AddsBytes};
ghost use Rattle.cf_entry.specs.Entry.{cause_bytes, IsCauseText};

use crate::put::{put_byte, put_text};
use crate::turn::Cause;

/// A cause, or that there is none.
pub fn put_cause_if_any(to: &mut Vec<u8>, cause: &Option<Cause>)
    requires small { length (option_bytes cause_bytes cause.now) < 2 ^ 32 }
    requires room { HasCapacity to.old (option_bytes cause_bytes cause.now) }
    ensures added { AddsBytes to.old to.new (option_bytes cause_bytes cause.now) }
    ensures fits { IfSome cause.now IsCauseText }
{
    match cause {
        None => put_byte(to, 0),
        Some(cause) => {
            put_byte(to, 1);
            put_cause(to, cause);
        }
    }
}

fn put_cause(to: &mut Vec<u8>, cause: &Cause)
    requires small { length (cause_bytes cause.now) < 2 ^ 32 }
    requires room { HasCapacity to.old (cause_bytes cause.now) }
    ensures added { AddsBytes to.old to.new (cause_bytes cause.now) }
    ensures fits { IsCauseText cause.now }
{
    match cause {
        Cause::Handler { path, reason } => {
            put_byte(to, 1);
            put_text(to, path);
            put_byte(to, reason.number());
        }
        Cause::Plan { fault } => {
            put_byte(to, 2);
            put_text(to, fault);
        }
        Cause::Export { name } => {
            put_byte(to, 3);
            put_text(to, name);
        }
    }
}
