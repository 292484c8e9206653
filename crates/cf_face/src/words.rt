//! The words of a command line.

ghost use Rattle.std.specs.Prelude.{◌≡◌, IfOk, map, option_map, string_bytes};
ghost use Rattle.std.specs.Char.{is_ascii_alphanumeric};
ghost use Rattle.std.specs.List.{list_all};
ghost use Rattle.cf_template.specs.Words.{is_name};
ghost use Rattle.cf_face.specs.declared.words.Command.TheVariants.{ContinueRollback};
ghost use Rattle.cf_face.specs.Words.{chosen_in, command_of, continue_of, drives, workers_of, deploy_of, describe_of, events_of, list_of, resume_of, validate_of, setting_in_word, given_of, is_path, is_stack_name, is_template_name, is_name_byte, paths_of, question_of, task_of, load_choice, load_count_of, load_name, load_of};

use crate::set_words::read_set_words;
use cf_funcs::{cut, split};
use cf_tree::{Names, NoMemory, Pairs, Txt};
use std::alloc::Global;

/// The longest name of a parameter, in bytes.
const LONGEST_NAME: usize = 255;

/// A template by its name in the library, and what is given for its parameters.
#[derive(Drop)]
pub struct Choice {
    pub template: Txt,
    pub given: Pairs,
}

/// What a command that drives handlers is to do with its stack.
#[derive(Drop)]
pub enum Task {
    /// Create it by a template, or update it by one.
    Deploy(Choice),
    /// Go on with its rollback, which failed, and skip what failed at these paths.
    Continue(Names),
    /// End the operation that is in progress on it.
    Resume,
    /// Do what its change set of this number tells.
    Execute(u64),
    /// Create it by the template of the load mode with so many records, or update it by that.
    Load(u32),
}

/// What the journal is to tell.
#[derive(Drop)]
pub enum Subject {
    /// The stack of this name.
    Stack(Txt),
    /// The events of the stack of this name.
    Events(Txt),
    /// All stacks that are not deleted.
    Stacks,
    /// The change set of this number of the stack of this name.
    Set(Txt, u64),
}

/// What a command asks that drives no handlers.
#[derive(Drop)]
pub enum Question {
    /// Whether the template of this name can be read.
    Validate(Txt),
    /// What the journal tells.
    Tell(Subject),
    /// What a template would change of the stack of this name, which is kept as a change set.
    Review(Txt, Choice),
}

/// What a command line asks for.
#[derive(Drop)]
pub enum Command {
    /// `deploy STACK TEMPLATE NAME=VALUE ..`: bring the stack to what the template says.
    Deploy {
        stack: Txt,
        template: Txt,
        given: Pairs,
    },
    /// `continue-rollback STACK PATH ..`: go on with the rollback of an update that failed, and skip what failed at these paths.
    ContinueRollback {
        stack: Txt,
        paths: Names,
    },
    /// `resume STACK`: end the operation that is in progress on the stack.
    Resume {
        stack: Txt,
    },
    /// `load N`: bring the stack `load-N` to what the template of the load mode with N records says.
    Load {
        count: u32,
    },
    /// `describe STACK`: report on the stack.
    Describe {
        stack: Txt,
    },
    /// `events STACK`: report on what became of the stack, entry by entry of the journal.
    Events {
        stack: Txt,
    },
    /// `list`: report on all stacks that are not deleted.
    List,
    /// `validate TEMPLATE`: say whether the template can be read.
    Validate {
        template: Txt,
    },
    /// `create-change-set STACK TEMPLATE NAME=VALUE ..`: keep what the template would change of the stack as a change set.
    CreateSet {
        stack: Txt,
        template: Txt,
        given: Pairs,
    },
    /// `describe-change-set STACK NUMBER`: report on the change set of this number.
    DescribeSet {
        stack: Txt,
        number: u64,
    },
    /// `execute-change-set STACK NUMBER`: do what the change set of this number tells.
    ExecuteSet {
        stack: Txt,
        number: u64,
    },
}

impl Command {
    /// Whether the command changes a stack, and so drives handlers.
    pub fn drives(&self) -> bool
        ensures { result ≡ drives self.now }
    {
        match self {
            Command::Deploy { .. }
            | Command::ContinueRollback { .. }
            | Command::Resume { .. }
            | Command::Load { .. }
            | Command::ExecuteSet { .. } => true,
            Command::Describe { .. }
            | Command::Events { .. }
            | Command::List
            | Command::Validate { .. }
            | Command::CreateSet { .. }
            | Command::DescribeSet { .. } => false,
        }
    }

    /// The stack that the command changes and what is to be done with it, if it changes one.
    ///
    /// # Errors
    ///
    /// Only for want of memory.
    pub fn into_task(self, alloc: Global) -> Result<Option<(Txt, Task)>, NoMemory>
        ensures { IfOk result (λ named. named ≡ task_of self) }
    {
        match self {
            Command::Deploy {
                stack,
                template,
                given,
            } => Ok(Some((stack, Task::Deploy(Choice { template, given })))),
            Command::ContinueRollback { stack, paths } => Ok(Some((stack, Task::Continue(paths)))),
            Command::Resume { stack } => Ok(Some((stack, Task::Resume))),
            Command::ExecuteSet { stack, number } => Ok(Some((stack, Task::Execute(number)))),
            Command::Load { count } => Ok(Some((load_name(alloc, count)?, Task::Load(count)))),
            Command::Describe { stack: _ }
            | Command::Events { stack: _ }
            | Command::List
            | Command::Validate { template: _ }
            | Command::DescribeSet { stack: _, .. } => Ok(None),
            Command::CreateSet {
                stack: _,
                template: _,
                given: _,
            } => Ok(None),
        }
    }

    /// What the command asks, if it drives no handlers.
    pub fn into_question(self) -> Option<Question>
        ensures { result ≡ question_of self }
    {
        match self {
            Command::Describe { stack } => Some(Question::Tell(Subject::Stack(stack))),
            Command::Events { stack } => Some(Question::Tell(Subject::Events(stack))),
            Command::List => Some(Question::Tell(Subject::Stacks)),
            Command::DescribeSet { stack, number } => {
                Some(Question::Tell(Subject::Set(stack, number)))
            }
            Command::Validate { template } => Some(Question::Validate(template)),
            Command::CreateSet {
                stack,
                template,
                given,
            } => Some(Question::Review(stack, Choice { template, given })),
            Command::Deploy {
                stack: _,
                template: _,
                given: _,
            } => None,
            Command::ContinueRollback { stack: _, paths: _ }
            | Command::Resume { stack: _ }
            | Command::Load { count: _ }
            | Command::ExecuteSet { stack: _, .. } => None,
        }
    }
}

/// The command that the words ask for, and None exactly where no row of the table of commands fits.
///
/// A stack's name is a letter, then letters, digits and `-`, at most 128 of them. A template's name has
/// 1 to 128 bytes. What is given for a parameter is cut at the first `=`: the name before it has 1 to 255 letters and
/// digits and stands once, the value behind it may be empty. A path is names of 1 to 255 letters and digits, joined by `/`,
/// and stands once. The number of records of a load is decimal, from 1 to 500 without a leading zero. The number of a change set has 1 to
/// 18 digits, of which the first is no 0.
///
/// # Errors
///
/// Only for want of memory.
pub fn read_words(alloc: Global, words: &[Txt]) -> Result<Option<Command>, NoMemory>
    ensures { IfOk result (λ command. command ≡ command_of words.now) }
{
    let Some((word, rest)) = words.split_first() else {
        return Ok(None);
    };
    if word.is("deploy") {
        return read_deploy(alloc, rest);
    }
    if word.is("continue-rollback") {
        return read_continue(alloc, rest);
    }
    if word.is("resume") {
        return read_resume(alloc, rest);
    }
    if word.is("load") {
        return Ok(read_load(rest));
    }
    if word.is("describe") {
        return read_describe(alloc, rest);
    }
    if word.is("events") {
        return read_events(alloc, rest);
    }
    if word.is("list") {
        return Ok(read_list(rest));
    }
    if word.is("validate") {
        return read_validate(alloc, rest);
    }
    read_set_words(alloc, word, rest)
}

/// The number of workers that a word names, and None exactly where the word is no decimal number from 1 to
/// 64 without a leading zero. It takes no memory.
pub fn read_workers(word: &Txt) -> Option<u32>
    ensures { result ≡ workers_of word.now }
{
    match word.as_str().as_bytes() {
        [one] if b'1' <= *one && *one <= b'9' => Some(u32::from(*one - b'0')),
        [ten, one] if b'1' <= *ten && *ten <= b'9' && one.is_ascii_digit() => {
            let number = 10 * u32::from(*ten - b'0') + u32::from(*one - b'0');
            if number <= 64 { Some(number) } else { None }
        }
        _ => None,
    }
}

// The words after `deploy`.
fn read_deploy(alloc: Global, words: &[Txt]) -> Result<Option<Command>, NoMemory>
    ensures { IfOk result (λ command. command ≡ deploy_of words.now) }
{
    match read_choice(alloc, words)? {
        Some((stack, Choice { template, given })) => Ok(Some(Command::Deploy {
            stack,
            template,
            given,
        })),
        None => Ok(None),
    }
}

/// The stack, the template and what is given for its parameters, as words name them.
///
/// # Errors
///
/// Only for want of memory.
pub(crate) fn read_choice(alloc: Global, words: &[Txt]) -> Result<Option<(Txt, Choice)>, NoMemory>
    ensures { IfOk result (λ chosen. chosen ≡ chosen_in words.now) }
{
    match words {
        [stack, template, settings @ ..]
            if is_stack_name(stack.as_str()) && is_template_name(template.as_str()) => {
            choose(alloc, stack, template, settings)
        }
        _ => Ok(None),
    }
}

// The choice of a template for a stack, if the other words give parameters.
fn choose(
    alloc: Global,
    stack: &Txt,
    template: &Txt,
    settings: &[Txt],
) -> Result<Option<(Txt, Choice)>, NoMemory>
    ensures { IfOk result (λ chosen. chosen ≡ option_map (λ given. (stack.now, record { template = template.now; given = given })) (given_of settings.now)) }
{
    match read_given(alloc, settings)? {
        Some(given) => {
            let stack = stack.try_clone(alloc)?;
            let template = template.try_clone(alloc)?;
            Ok(Some((stack, Choice { template, given })))
        }
        None => Ok(None),
    }
}

// What the words give for parameters, by name.
fn read_given(alloc: Global, words: &[Txt]) -> Result<Option<Pairs>, NoMemory>
    ensures { IfOk result (λ given. given ≡ given_of words.now) }
{
    let mut given = Pairs::new(alloc);
    for word in words {
        match setting(word.as_str()) {
            Some((name, value)) => {
                if given.get(name).is_some() {
                    return Ok(None);
                }
                given.insert(Txt::from_str(alloc, name)?, Txt::from_str(alloc, value)?)?;
            }
            None => return Ok(None),
        }
    }
    Ok(Some(given))
}

// The name and the value that a word gives for a parameter.
fn setting(word: &str) -> Option<(&str, &str)>
    ensures { option_map (λ s. (s.0.now, s.1.now)) result ≡ setting_in_word word.now }
{
    match cut(word, "=") {
        Some((name, value)) if is_logical_id(name) => Some((name, value)),
        _ => None,
    }
}

fn is_logical_id(name: &str) -> bool
    ensures { result ≡ is_name name.now }
{
    !name.is_empty() && name.len() <= LONGEST_NAME && are_alphanumeric(name.as_bytes())
}

fn are_alphanumeric(bytes: &[u8]) -> bool
    ensures { result ≡ list_all is_ascii_alphanumeric bytes.now }
{
    bytes.iter().all(|b| b.is_ascii_alphanumeric())
}

// The words after `continue-rollback`.
fn read_continue(alloc: Global, words: &[Txt]) -> Result<Option<Command>, NoMemory>
    ensures { IfOk result (λ command. command ≡ continue_of words.now) }
{
    match words.split_first() {
        Some((stack, rest)) if is_stack_name(stack.as_str()) => continuation(alloc, stack, rest),
        _ => Ok(None),
    }
}

// The continued rollback of a stack, if the other words are paths.
fn continuation(alloc: Global, stack: &Txt, rest: &[Txt]) -> Result<Option<Command>, NoMemory>
    ensures { IfOk result (λ command. command ≡ option_map (ContinueRollback stack.now) (paths_of rest.now)) }
{
    match read_paths(alloc, rest)? {
        Some(paths) => Ok(Some(Command::ContinueRollback {
            stack: stack.try_clone(alloc)?,
            paths,
        })),
        None => Ok(None),
    }
}

// The paths that words are, in their order.
fn read_paths(alloc: Global, words: &[Txt]) -> Result<Option<Names>, NoMemory>
    ensures { IfOk result (λ paths. paths ≡ paths_of words.now) }
{
    let mut paths = Names::new(alloc);
    for word in words {
        if paths.contains(word) {
            return Ok(None);
        }
        if !is_path(alloc, word.as_str())? {
            return Ok(None);
        }
        paths.push(word.try_clone(alloc)?)?;
    }
    Ok(Some(paths))
}

// Whether a word is names joined by `/`.
fn is_path(alloc: Global, word: &str) -> Result<bool, NoMemory>
    ensures { IfOk result (λ b. b ≡ is_path word.now) }
{
    match split(alloc, "/", word) {
        Ok(names) => {
            let all = are_names(names.as_slice());
            drop(names);
            Ok(all)
        }
        Err(_) => Err(NoMemory),
    }
}

fn are_names(names: &[String]) -> bool
    ensures { result ≡ list_all is_name (map string_bytes names.now) }
{
    for name in names {
        if !is_logical_id(name.as_str()) {
            return false;
        }
    }
    true
}

// The words after `resume`.
fn read_resume(alloc: Global, words: &[Txt]) -> Result<Option<Command>, NoMemory>
    ensures { IfOk result (λ command. command ≡ resume_of words.now) }
{
    match words {
        [stack] if is_stack_name(stack.as_str()) => {
            let stack = stack.try_clone(alloc)?;
            Ok(Some(Command::Resume { stack }))
        }
        _ => Ok(None),
    }
}

// The words after `load`.
fn read_load(words: &[Txt]) -> Option<Command>
    ensures { result ≡ load_of words.now }
{
    match words {
        [word] => match read_load_count(word) {
            Some(count) => Some(Command::Load { count }),
            None => None,
        },
        _ => None,
    }
}

// The number of records that a word names.
fn read_load_count(word: &Txt) -> Option<u32>
    ensures { result ≡ load_count_of word.now }
{
    match word.as_str().as_bytes() {
        [one] if b'1' <= *one && *one <= b'9' => Some(u32::from(*one - b'0')),
        [ten, one] if b'1' <= *ten && *ten <= b'9' && one.is_ascii_digit() => {
            Some(10 * u32::from(*ten - b'0') + u32::from(*one - b'0'))
        }
        [hundred, ten, one]
            if b'1' <= *hundred
                && *hundred <= b'9'
                && ten.is_ascii_digit()
                && one.is_ascii_digit() => {
            let below = 10 * u32::from(*ten - b'0') + u32::from(*one - b'0');
            let number = 100 * u32::from(*hundred - b'0') + below;
            if number <= 500 { Some(number) } else { None }
        }
        _ => None,
    }
}

/// The name of the stack of the load mode with so many records, and that of its template: `load-N`.
///
/// # Errors
///
/// Only for want of memory.
pub fn load_name(alloc: Global, count: u32) -> Result<Txt, NoMemory>
    ensures { IfOk result (λ name. name ≡ load_name count) }
{
    let digits = count.to_string(alloc)?;
    let mut name = String::new(alloc);
    name.push_str("load-")?;
    name.push_str(digits.as_str())?;
    Ok(Txt::new(name))
}

/// The template of the load mode with so many records, by its name; it has no parameters.
///
/// # Errors
///
/// Only for want of memory.
pub fn load_choice(alloc: Global, count: u32) -> Result<Choice, NoMemory>
    ensures { IfOk result (λ choice. choice ≡ load_choice count) }
{
    let template = load_name(alloc, count)?;
    let given = Pairs::new(alloc);
    Ok(Choice { template, given })
}

// The words after `describe`.
fn read_describe(alloc: Global, words: &[Txt]) -> Result<Option<Command>, NoMemory>
    ensures { IfOk result (λ command. command ≡ describe_of words.now) }
{
    match words {
        [stack] if is_stack_name(stack.as_str()) => {
            let stack = stack.try_clone(alloc)?;
            Ok(Some(Command::Describe { stack }))
        }
        _ => Ok(None),
    }
}

// The words after `events`.
fn read_events(alloc: Global, words: &[Txt]) -> Result<Option<Command>, NoMemory>
    ensures { IfOk result (λ command. command ≡ events_of words.now) }
{
    match words {
        [stack] if is_stack_name(stack.as_str()) => {
            let stack = stack.try_clone(alloc)?;
            Ok(Some(Command::Events { stack }))
        }
        _ => Ok(None),
    }
}

// The words after `list`: there are none.
fn read_list(words: &[Txt]) -> Option<Command>
    ensures { result ≡ list_of words.now }
{
    match words {
        [] => Some(Command::List),
        _ => None,
    }
}

// The words after `validate`.
fn read_validate(alloc: Global, words: &[Txt]) -> Result<Option<Command>, NoMemory>
    ensures { IfOk result (λ command. command ≡ validate_of words.now) }
{
    match words {
        [template] if is_template_name(template.as_str()) => {
            let template = template.try_clone(alloc)?;
            Ok(Some(Command::Validate { template }))
        }
        _ => Ok(None),
    }
}

/// Whether a word is the name of a stack.
pub(crate) fn is_stack_name(name: &str) -> bool
    ensures { result ≡ is_stack_name name.now }
{
    let bytes = name.as_bytes();
    match bytes.split_first() {
        Some((first, rest)) => {
            first.is_ascii_alphabetic() && are_name_bytes(rest) && bytes.len() <= 128
        }
        None => false,
    }
}

fn are_name_bytes(bytes: &[u8]) -> bool
    ensures { result ≡ list_all is_name_byte bytes.now }
{
    bytes
        .iter()
        .all(|b| b.is_ascii_alphanumeric() || *b == b'-')
}

fn is_template_name(name: &str) -> bool
    ensures { result ≡ is_template_name name.now }
{
    1 <= name.len() && name.len() <= 128
}
