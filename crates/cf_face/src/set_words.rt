//! The words of the commands on change sets.
ghost use Rattle.std.specs.Prelude.{◌≡◌, IfOk, option_map};
ghost use Rattle.std.specs.Char.{is_ascii_digit};
ghost use Rattle.std.specs.List.{list_all};
ghost use Rattle.cf_funcs.specs.Number.{are_digits, digits_of};
ghost use Rattle.cf_face.specs.Words.{create_set_of, describe_set_of, execute_set_of, set_command_of, set_in_words, set_number_of};

use crate::words::{Choice, Command, is_stack_name, read_choice};
use cf_tree::{NoMemory, Txt};
use std::alloc::Global;

/// The most digits of the number of a change set.
const MOST_DIGITS: usize = 18;

/// The command on a change set that a word names with those after it.
///
/// # Errors
///
/// Only for want of memory.
pub fn read_set_words(alloc: Global, word: &Txt, words: &[Txt]) -> Result<Option<Command>, NoMemory>
    ensures { IfOk result (λ command. command ≡ set_command_of word.now words.now) }
{
    if word.is("create-change-set") {
        return read_create_set(alloc, words);
    }
    if word.is("describe-change-set") {
        return read_describe_set(alloc, words);
    }
    if word.is("execute-change-set") {
        return read_execute_set(alloc, words);
    }
    Ok(None)
}

// The words after `create-change-set`.
fn read_create_set(alloc: Global, words: &[Txt]) -> Result<Option<Command>, NoMemory>
    ensures { IfOk result (λ command. command ≡ create_set_of words.now) }
{
    match read_choice(alloc, words)? {
        Some((stack, Choice { template, given })) => Ok(Some(Command::CreateSet {
            stack,
            template,
            given,
        })),
        None => Ok(None),
    }
}

// The words after `describe-change-set`.
fn read_describe_set(alloc: Global, words: &[Txt]) -> Result<Option<Command>, NoMemory>
    ensures { IfOk result (λ command. command ≡ describe_set_of words.now) }
{
    match read_set(alloc, words)? {
        Some((stack, number)) => Ok(Some(Command::DescribeSet { stack, number })),
        None => Ok(None),
    }
}

// The words after `execute-change-set`.
fn read_execute_set(alloc: Global, words: &[Txt]) -> Result<Option<Command>, NoMemory>
    ensures { IfOk result (λ command. command ≡ execute_set_of words.now) }
{
    match read_set(alloc, words)? {
        Some((stack, number)) => Ok(Some(Command::ExecuteSet { stack, number })),
        None => Ok(None),
    }
}

// A stack and the number of one of its change sets.
fn read_set(alloc: Global, words: &[Txt]) -> Result<Option<(Txt, u64)>, NoMemory>
    ensures { IfOk result (λ set. set ≡ set_in_words words.now) }
{
    match words {
        [stack, number] if is_stack_name(stack.as_str()) => set_named(alloc, stack, number),
        _ => Ok(None),
    }
}

// The change set of a stack that a word numbers.
fn set_named(alloc: Global, stack: &Txt, number: &Txt) -> Result<Option<(Txt, u64)>, NoMemory>
    ensures { IfOk result (λ set. set ≡ option_map (λ n. (stack.now, n)) (set_number_of number.now)) }
{
    match set_number(number.as_str()) {
        Some(number) => Ok(Some((stack.try_clone(alloc)?, number))),
        None => Ok(None),
    }
}

// The number of a change set: 1 to 18 digits, the first of them no 0.
fn set_number(word: &str) -> Option<u64>
    ensures { result ≡ set_number_of word.now }
{
    match word.as_bytes().split_first() {
        Some((first, _)) => { if *first == b'0' { None } else { digits(word) } }
        None => None,
    }
}

// What 1 to 18 digits write.
fn digits(word: &str) -> Option<u64>
    ensures { result ≡ digits_of 18 word.now }
{
    if are_digits(word) {
        word.parse::<u64>().ok()
    } else {
        None
    }
}

fn are_digits(word: &str) -> bool
    ensures { result ≡ are_digits 18 word.now }
{
    !word.is_empty() && word.len() <= MOST_DIGITS && all_digits(word.as_bytes())
}

fn all_digits(bytes: &[u8]) -> bool
    ensures { result ≡ list_all is_ascii_digit bytes.now }
{
    bytes.iter().all(|byte| byte.is_ascii_digit())
}
