//! The template of the load mode: a tree of records, each with the length of the one that it needs.
#![tactic(auto)]

ghost use Rattle.std.specs.Prelude.{◌≡◌, ◌≤◌, ◌-◌, ◌++◌, IfOk, decimal, replicate, string_bytes};
ghost use Rattle.cf_load.specs.Text.{comma_after, id_of, value_text, opening_text, record_text, records_text, load_text};

use cf_tree::NoMemory;
use std::alloc::Global;

/// The template of so many records, as compact JSON. Want of memory is its only error.
pub fn load_text(alloc: Global, count: u32) -> Result<Vec<u8>, NoMemory>
    requires some { 1 ≤ count }
    requires few { count ≤ 500 }
    ensures { IfOk result (λ text. text.items ≡ load_text count) }
{
    let mut text = String::new(alloc);
    text.push_str("{\"Outputs\":{\"Last\":{\"Value\":{\"Fn::GetAtt\":[\"")?;
    push_id(alloc, &mut text, count)?;
    text.push_str("\",\"Length\"]}}},\"Resources\":{")?;
    push_records(alloc, &mut text, count)?;
    text.push_str("}}")?;
    Ok(text.into_bytes())
}

// Adds the records of the numbers from 1 to a count.
fn push_records(alloc: Global, text: &mut String, count: u32) -> Result<(), NoMemory>
    ensures { IfOk result (λ _. string_bytes text.new ≡ string_bytes text.old ++ records_text count) }
{
    for made in 0..count {
        push_comma(text, made)?;
        push_record(alloc, text, made + 1)?;
    }
    Ok(())
}

// Adds a comma after so many records, unless there are none.
fn push_comma(text: &mut String, made: u32) -> Result<(), NoMemory>
    ensures { IfOk result (λ _. string_bytes text.new ≡ string_bytes text.old ++ comma_after made) }
{
    if made != 0 {
        text.push_str(",")?;
    }
    Ok(())
}

// Adds a record under its id.
fn push_record(alloc: Global, text: &mut String, number: u32) -> Result<(), NoMemory>
    ensures { IfOk result (λ _. string_bytes text.new ≡ string_bytes text.old ++ record_text number) }
{
    push_opening(alloc, text, number)?;
    text.push_str("\",\"Value\":")?;
    push_value(alloc, text, number)?;
    text.push_str("},\"Type\":\"Local::Records::Record\"}")?;
    Ok(())
}

// Adds how a record begins: its id and its key.
fn push_opening(alloc: Global, text: &mut String, number: u32) -> Result<(), NoMemory>
    ensures { IfOk result (λ _. string_bytes text.new ≡ string_bytes text.old ++ opening_text number) }
{
    text.push_str("\"")?;
    push_id(alloc, text, number)?;
    text.push_str("\":{\"Properties\":{\"Key\":\"k")?;
    push_number(alloc, text, number)?;
    Ok(())
}

// Adds the value of a record.
fn push_value(alloc: Global, text: &mut String, number: u32) -> Result<(), NoMemory>
    ensures { IfOk result (λ _. string_bytes text.new ≡ string_bytes text.old ++ value_text number) }
{
    if number == 1 {
        text.push_str("\"v1\"")?;
        return Ok(());
    }
    text.push_str("{\"Fn::Sub\":\"v")?;
    push_number(alloc, text, number)?;
    text.push_str(" of ${")?;
    push_id(alloc, text, number / 2)?;
    text.push_str(".Length}\"}")?;
    Ok(())
}

// Adds the logical id of a record.
fn push_id(alloc: Global, text: &mut String, number: u32) -> Result<(), NoMemory>
    ensures { IfOk result (λ _. string_bytes text.new ≡ string_bytes text.old ++ id_of number) }
{
    let digits = number.to_string(alloc)?;
    text.push('R')?;
    text.push_str(zeros_before(digits.len()))?;
    text.push_str(digits.as_str())?;
    Ok(())
}

// The zeros in front of so many digits.
fn zeros_before(digits: usize) -> &'static str
    ensures { result.now ≡ replicate (4 - digits) 48 }
{
    match digits {
        0 => "0000",
        1 => "000",
        2 => "00",
        3 => "0",
        _ => "",
    }
}

// Adds a number in decimal.
fn push_number(alloc: Global, text: &mut String, number: u32) -> Result<(), NoMemory>
    ensures { IfOk result (λ _. string_bytes text.new ≡ string_bytes text.old ++ decimal number) }
{
    let digits = number.to_string(alloc)?;
    text.push_str(digits.as_str())?;
    Ok(())
}
