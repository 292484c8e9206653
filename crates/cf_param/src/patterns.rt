ghost use Rattle.std.specs.Prelude.{◌≡◌, ℕ, ◌<◌, true, IfOk, IfErr, find, is_some, slice_index, string_bytes};
ghost use Rattle.regex.specs.Patterns.{default_config, find_str};
ghost use Rattle.regex.specs.Strings.{IsReadFromSource, matcher_pattern, regex_config, regex_source};
ghost use Rattle.cf_param.specs.Binding.{breaks, pattern_constraints};
ghost use Rattle.cf_param.specs.Pattern.{anchored, is_pattern};
ghost use Rattle.cf_param.specs.Tested.{IsPatternFault, TestsPattern, breach_by};

use crate::constraints::Breach;
use cf_tree::{Kind, NoMemory, Param, Txt};
use regex::{Error, Matcher, Regex};
use std::alloc::{AllocError, Global};

/// Why a pattern can't be tested.
#[derive(Debug, Drop, PartialEq, Eq)]
pub(crate) enum PatternFault {
    BadPattern,
    NoMemory,
}

/// The first constraint on the pattern that the texts break.
pub(crate) fn pattern_breach(
    alloc: Global,
    param: &Param,
    parts: &[Txt],
) -> Result<Option<Breach>, NoMemory>
    ensures { IfOk result (λ b. b ≡ find (breaks param.now parts.now) pattern_constraints) }
{
    match param.kind {
        Kind::Text | Kind::Commas => match &param.pattern {
            Some(pattern) => breach_of(alloc, pattern.as_str(), parts),
            None => Ok(None),
        },
        Kind::Number | Kind::Numbers => Ok(None),
    }
}

fn breach_of(alloc: Global, pattern: &str, parts: &[Txt]) -> Result<Option<Breach>, NoMemory>
    ensures { IfOk result (λ b. b ≡ breach_by pattern.now parts.now) }
{
    match unmatched(alloc, pattern, parts) {
        Ok(true) => Ok(Some(Breach::NoMatch)),
        Ok(false) => Ok(None),
        Err(PatternFault::BadPattern) => Ok(Some(Breach::BadPattern)),
        Err(PatternFault::NoMemory) => Err(NoMemory),
    }
}

/// Whether a text is there that the pattern doesn't match as a whole.
fn unmatched(alloc: Global, pattern: &str, parts: &[Txt]) -> Result<bool, PatternFault>
    ensures { TestsPattern pattern.now parts.now result }
{
    let alone = compiled(alloc, pattern)?;
    drop(alone);
    let Ok(text) = anchor(alloc, pattern) else {
        return Err(PatternFault::NoMemory);
    };
    let regex = compiled(alloc, text.as_str())?;
    let Ok(mut matcher) = regex.matcher(alloc) else {
        return Err(PatternFault::NoMemory);
    };
    for part in parts {
        if !is_matched(&mut matcher, part.as_str()) {
            return Ok(true);
        }
    }
    Ok(false)
}

fn is_matched(matcher: &mut Matcher<'_>, text: &str) -> bool
    ensures found { result ≡ is_some (find_str (matcher_pattern matcher.old) text.now 0) }
    ensures same { matcher_pattern matcher.new ≡ matcher_pattern matcher.old }
    ensures bytes { (k : ℕ) → slice_index text.now k < 256 }
{
    matcher.is_match(text)
}

/// The pattern, anchored at both ends.
fn anchor(alloc: Global, pattern: &str) -> Result<String, AllocError>
    ensures { IfOk result (λ s. string_bytes s ≡ anchored pattern.now) }
{
    let mut text = String::from_str(alloc, "\\A(?:")?;
    text.push_str(pattern)?;
    text.push_str(")\\z")?;
    Ok(text)
}

fn compiled(alloc: Global, pattern: &str) -> Result<Regex, PatternFault>
    ensures ok { IfOk result (λ r. is_pattern pattern.now ≡ true) }
    ensures source { IfOk result (λ r. regex_source r ≡ pattern.now) }
    ensures config { IfOk result (λ r. regex_config r ≡ default_config) }
    ensures read { IfOk result IsReadFromSource }
    ensures err { IfErr result (λ e. IsPatternFault pattern.now e) }
{
    match Regex::new(alloc, pattern) {
        Ok(regex) => Ok(regex),
        Err(Error::Syntax(_)) => Err(PatternFault::BadPattern),
        Err(Error::CompiledTooBig | Error::Internal | Error::OutOfMemory) => {
            Err(PatternFault::NoMemory)
        }
    }
}
