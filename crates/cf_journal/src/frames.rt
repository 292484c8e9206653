//! The frames of a journal.
ghost use Rattle.std.specs.Prelude.{◌≡◌, ◌+◌, true, false, IfSome, IfNone};
ghost use Rattle.cf_journal.specs.Frames.{body_size, is_whole, body_of, next_of};

/// Behind a gate: the body of the frame, and what is there from the next gate on. None where the frame is not whole.
pub fn read_frame(bytes: &[u8]) -> Option<(&[u8], &[u8])>
    ensures whole { IfSome result (λ frame. is_whole bytes.now ≡ true) }
    ensures body { IfSome result (λ frame. frame.0.now ≡ body_of bytes.now) }
    ensures next { IfSome result (λ frame. frame.1.now ≡ next_of bytes.now) }
    ensures none { IfNone result (is_whole bytes.now ≡ false) }
{
    let (size, behind) = bytes.split_first_chunk::<4>()?;
    let size = u32::from_be_bytes(*size) as usize;
    if behind.len() <= size {
        return None;
    }
    Some(behind.split_at(size))
}
