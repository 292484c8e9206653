//! What the calls over texts, values and codes answer.
use crate::evaluating::object_of;
use crate::formed::parts_form;
use crate::told::Told;
use cf_funcs::{base64_of, comma_list, number, split};
use cf_rows::Memory;
use cf_template::{SubFault, sub_parts};
use cf_tree::{Code, Val, size_of_val};

/// The pieces of a text between the places of a delimiter.
pub fn pieces(told: &mut Told, text: &str, delimiter: &str) {
    if delimiter.is_empty() {
        return told.put("no delimiter");
    }
    match split(told.memory.alloc, delimiter, text) {
        Ok(pieces) => {
            texts(told, pieces.as_slice());
            drop(pieces);
        }
        Err(_) => told.memory.lose(),
    }
}

/// The members of a list that is written with commas.
pub fn members(told: &mut Told, text: &str) {
    match comma_list(told.memory.alloc, text) {
        Ok(members) => {
            texts(told, members.as_slice());
            drop(members);
        }
        Err(_) => told.memory.lose(),
    }
}

/// Adds texts as JSON.
fn texts(told: &mut Told, texts: &[String]) {
    told.put("[");
    let mut first = true;
    for text in texts {
        told.part(first);
        told.json(text.as_str());
        first = false;
    }
    told.put("]");
}

/// The number that a text writes, in 10^-9.
pub fn billionths(told: &mut Told, text: &str) {
    match number(text) {
        Some(number) => told.billionths(number),
        None => told.put("no number"),
    }
}

/// The base64 of a text's bytes.
pub fn encoded(told: &mut Told, text: &str) {
    match base64_of(told.memory.alloc, text) {
        Ok(encoded) => {
            told.json(encoded.as_str());
            drop(encoded);
        }
        Err(_) => told.memory.lose(),
    }
}

/// The parts of a text with holes, or its bad hole.
pub fn parts(told: &mut Told, text: &str) {
    match sub_parts(told.memory.alloc, text) {
        Ok(parts) => {
            parts_form(told, &parts);
            drop(parts);
            if told.text.is_empty() {
                told.put("no parts");
            }
        }
        Err(SubFault::Unclosed { at }) => {
            told.put("Unclosed");
            told.number_word(at);
        }
        Err(SubFault::Empty { at }) => {
            told.put("Empty");
            told.number_word(at);
        }
        Err(SubFault::NoMemory) => told.put("NoMemory"),
    }
}

/// How long the encoding of an object is as properties are counted, and as a value.
pub fn size(told: &mut Told, text: &str) {
    let object = object_of(&mut told.memory, text);
    told.number(object.size());
    let value = Val::Dict(object);
    told.number_word(size_of_val(&value));
    drop(value);
}

/// The name of the code with a number, and its number again.
pub fn code(told: &mut Told, text: &str) {
    match Code::from_number(text.parse::<u8>().unwrap_or(0)) {
        Some(code) => {
            told.put(code.name());
            told.number_word(code.number() as u64);
        }
        None => told.put("no code"),
    }
}

/// The bytes that a text writes, each as two hexadecimal digits.
pub fn bytes_of(memory: &mut Memory, text: &str) -> Vec<u8> {
    let mut bytes = Vec::new(memory.alloc);
    for word in text.split(' ') {
        let byte = u8::from_str_radix(word, 16).unwrap_or(0);
        memory.note(bytes.push(byte).is_err());
    }
    bytes
}
