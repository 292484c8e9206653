ghost use Rattle.std.specs.Prelude.{◌≡◌, IfOk, string_bytes};
ghost use Rattle.base64.specs.Engines.{standard};
ghost use Rattle.base64.specs.GeneralPurpose.{encode_of};

use crate::memory::TextMemory;
use base64::engine::general_purpose::STANDARD;
use std::alloc::Global;

/// The bytes of a text in base64, with the standard alphabet and padding of RFC 4648, section 4.
///
/// # Errors
///
/// `TextMemory`, where there is no memory for the encoded text.
pub fn base64_of(alloc: Global, text: &str) -> Result<String, TextMemory>
    ensures { IfOk result (λ s. string_bytes s ≡ encode_of standard text.now) }
{
    Ok(STANDARD.encode(alloc, text.as_bytes())?)
}
