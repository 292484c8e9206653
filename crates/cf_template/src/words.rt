ghost use Rattle.std.specs.Prelude.{◌≡◌};
ghost use Rattle.std.specs.Char.{is_ascii_alphanumeric};
ghost use Rattle.std.specs.List.{list_all};
ghost use Rattle.cf_template.specs.Words.{is_name, is_function, opens_reference, has_reference};

/// The longest name of a resource, a parameter, a mapping, a condition or an output, in bytes.
const LONGEST_NAME: usize = 255;

/// Whether the text may name a resource: 1 to 255 ASCII letters and digits.
pub(crate) fn is_name(text: &str) -> bool
    ensures { result ≡ is_name text.now }
{
    !text.is_empty() && text.len() <= LONGEST_NAME && are_alphanumeric(text.as_bytes())
}

fn are_alphanumeric(bytes: &[u8]) -> bool
    ensures { result ≡ list_all is_ascii_alphanumeric bytes.now }
{
    for byte in bytes {
        if !byte.is_ascii_alphanumeric() {
            return false;
        }
    }
    true
}

/// Whether a member of that name makes its object a function: `Ref`, or a name that begins with `Fn::`.
pub(crate) fn is_function(name: &str) -> bool
    ensures { result ≡ is_function name.now }
{
    name == "Ref" || name.as_bytes().starts_with(b"Fn::")
}

/// Whether `{{resolve:` stands anywhere in the text.
#[tactic(auto, using(crate::proofs::References::passed, crate::proofs::References::opened))]
pub(crate) fn has_reference(text: &str) -> bool
    ensures { result ≡ has_reference text.now }
{
    let bytes = text.as_bytes();
    for at in 0..bytes.len() {
        if opens_reference(&bytes[at..]) {
            return true;
        }
    }
    false
}

fn opens_reference(bytes: &[u8]) -> bool
    ensures { result ≡ opens_reference bytes.now }
{
    bytes.starts_with(b"{{resolve:")
}
