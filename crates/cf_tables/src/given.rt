//! What is given to parameters, from its text.
use cf_param::{Given, Piece};
use cf_rows::Memory;
use cf_tree::Txt;

/// The pairs of a text `K=V & L=W` in their order; `K?` is not known yet. `None` where a name comes twice.
pub fn given_of(memory: &mut Memory, text: &str) -> Option<Given> {
    let mut pairs = Vec::new(memory.alloc);
    if !text.is_empty() {
        for word in text.split(" & ") {
            let pair = pair_of(memory, word);
            memory.note(pairs.push(pair).is_err());
        }
    }
    Given::try_from_vec(pairs)
}

fn pair_of(memory: &mut Memory, word: &str) -> (Txt, Piece) {
    match word.split_once('=') {
        Some((name, text)) => (memory.text(name), Piece::Text(memory.text(text))),
        None => {
            let name = word.strip_suffix('?').unwrap_or(word);
            (memory.text(name), Piece::Later)
        }
    }
}
