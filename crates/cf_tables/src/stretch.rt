//! Long texts in short rows.
use cf_rows::Memory;

/// The text with `<<PIECE*NUMBER>>`, where it has that, replaced by so many copies of the piece; a `#` in the piece is the
/// number of the copy.
pub fn stretched(memory: &mut Memory, text: &str) -> String {
    let Some((before, rest)) = text.split_once("<<") else {
        return memory.copy(text);
    };
    let (mark, after) = rest.split_once(">>").unwrap_or((rest, ""));
    let (piece, times) = mark.split_once('*').unwrap_or((mark, "1"));
    let mut whole = memory.copy(before);
    for number in 0..times.parse::<u32>().unwrap_or(0) {
        push_copy(memory, &mut whole, piece, number);
    }
    memory.note(whole.push_str(after).is_err());
    whole
}

fn push_copy(memory: &mut Memory, whole: &mut String, piece: &str, number: u32) {
    let pushed = match piece.split_once('#') {
        Some((before, after)) => write!(whole, "{before}{number}{after}"),
        None => whole.push_str(piece),
    };
    memory.note(pushed.is_err());
}
