//! The word that asks for progress.
ghost use Rattle.std.specs.Prelude.{◌≡◌};
ghost use Rattle.cf_progress.specs.Words.{asks_progress, behind_progress};

use cf_tree::Txt;

/// Whether calls are to be told: where the first word is `--progress`.
pub fn asks_progress(words: &[Txt]) -> bool
    ensures { result ≡ asks_progress words.now }
{
    match words.first() {
        Some(word) => word.is("--progress"),
        None => false,
    }
}

/// The words behind `--progress`, where it is the first; else all of them.
pub fn behind_progress(words: &[Txt]) -> &[Txt]
    ensures { result.now ≡ behind_progress words.now }
{
    match words {
        [word, rest @ ..] if word.is("--progress") => rest,
        _ => words,
    }
}
