//! Texts, cut at a byte, and the meanings of words.

ghost use Rattle.std.specs.Prelude.{◌≡◌, map, IfOk, ◌==◌};
ghost use Rattle.std.specs.List.{slice_split};
ghost use Rattle.script_model.specs.Reading.{find_word, words_of};

use std::alloc::{AllocError, Global};

/// The texts between the places of a byte.
pub fn parts_of(alloc: Global, at: u8, text: &[u8]) -> Result<Vec<&[u8]>, AllocError>
    ensures { IfOk result (λ parts. map (λ w. w.now) parts.items ≡ slice_split (λ b. b == at) text.now) }
{
    text.split(|b| *b == at).collect(alloc)
}

/// The texts between the spaces of a line.
pub fn words_of(alloc: Global, text: &[u8]) -> Result<Vec<&[u8]>, AllocError>
    ensures { IfOk result (λ words. map (λ w. w.now) words.items ≡ words_of text.now) }
{
    parts_of(alloc, b' ', text)
}

/// What a word means in a list of words and meanings.
pub fn find_word<V: Copy>(list: &[(&[u8], V)], word: &[u8]) -> Option<V>
    ensures { result ≡ find_word (map (λ e. (e.0.now, e.1)) list.now) word.now }
{
    match list.iter().find(|entry| word == entry.0) {
        Some(entry) => Some(entry.1),
        None => None,
    }
}
