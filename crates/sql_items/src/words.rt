//! Words in one text, with one space between two of them.
ghost use Rattle.sql_schema.specs.Words.{joined, words_in};
ghost use Rattle.std.specs.Prelude.{◌≡◌, IfOk, map, string_bytes};

use ipxe_script::{Word, WordFault};
use std::alloc::{AllocError, Global};

/// The words of a text. `alloc` is for them.
pub(crate) fn words_of(alloc: Global, text: &str) -> Result<Vec<Word>, WordFault>
    ensures { IfOk result (λ words. words.items ≡ words_in text.now) }
{
    let mut words = Vec::new(alloc);
    if text.is_empty() {
        return Ok(words);
    }
    for part in text.split(' ') {
        let word = Word::new(alloc, part)?;
        if let Err(refused) = words.push(word) {
            return Err(AllocError::from(refused).into());
        }
    }
    Ok(words)
}

// The texts of words.
fn texts_of(alloc: Global, words: &[Word]) -> Result<Vec<&str>, AllocError>
    ensures { IfOk result (λ texts. map (λ text. text.now) texts.items ≡ words.now) }
{
    words.iter().map(|word| word.text()).collect(alloc)
}

/// Words as one text. `alloc` is for it.
pub(crate) fn joined_words(alloc: Global, words: &[Word]) -> Result<String, AllocError>
    ensures { IfOk result (λ text. string_bytes text ≡ joined words.now) }
{
    texts_of(alloc, words)?.join(alloc, " ")
}
