//! Words of a row.
use cf_rows::Memory;
use cf_tree::Txt;

/// The words of a text, cut at each space; an empty text has none.
pub fn words_of(memory: &mut Memory, text: &str) -> Vec<Txt> {
    let mut words = Vec::new(memory.alloc);
    if !text.is_empty() {
        for word in text.split(' ') {
            let word = memory.text(word);
            memory.note(words.push(word).is_err());
        }
    }
    words
}

/// A word, and what follows it behind a space.
pub fn cut(text: &str) -> (&str, &str) {
    text.split_once(' ').unwrap_or((text, ""))
}
