//! The validation of a template.
ghost use Rattle.std.specs.Prelude.{◌≡◌, ◌≤◌};
ghost use Rattle.cf_top.specs.Answer.{Validates};

use crate::refusals::{missing, unread};
use cf_face::Exit;
use cf_io::{FetchFault, Library};
use cf_template::read_template;
use cf_tree::Txt;
use std::alloc::Global;

/// Whether the library holds a template under a name that can be read: `Done`, or the exit with its cause.
///
/// `LibraryFault` comes only where the library's count of faults rose, `TemplateRefused` exactly where the library holds
/// none of the name or the bytes are no template.
pub fn validate<L: Library>(alloc: Global, library: &mut L, template: &Txt) -> Exit
    ensures same { L.texts library.new ≡ L.texts library.old }
    ensures faults { L.count library.old ≤ L.count library.new }
    ensures misses { L.missed library.old ≤ L.missed library.new }
    ensures validates { Validates (record {
      texts = L.texts library.old;
      faults = L.count library.old;
      faults' = L.count library.new;
      misses = L.missed library.old;
      misses' = L.missed library.new;
    })
        template.now result }
{
    match library.fetch(template.as_str()) {
        Ok(Some(bytes)) => match read_template(alloc, bytes.as_slice()) {
            Ok(read) => {
                drop(read);
                Exit::Done
            }
            Err(fault) => unread(alloc, template, fault),
        },
        Ok(None) => missing(alloc, template),
        Err(FetchFault::Failed) => Exit::LibraryFault,
        Err(FetchFault::NoMemory) => Exit::NoMemory,
    }
}
