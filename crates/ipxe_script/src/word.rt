//! Words of a script, and the URIs among them.
ghost use Rattle.std.specs.{Prelude.{◌≡◌, ◌↔◌, IsTrue, IfOk, OnOk, IsErrOf}, List.list_all};
ghost use Rattle.ipxe_script.specs.Word.{is_first_octet, is_word_octet, is_word, is_uri, is_hall_word, IsWord, IsUri};

use crate::fault::WordFault;
use std::alloc::{AllocError, Global};
use std::marker::Model;

/// The maximum number of characters of a word.
pub const MAX_WORD_LEN: usize = 128;

/// A word of a script: 1 to [`MAX_WORD_LEN`] characters. The first is a letter, a digit or one of `-_./`,
/// each other one a letter, a digit or one of `-_./:=,+@%?;`. Contracts see its text.
#[derive(Drop)]
pub struct Word {
    text: String,
}

impl Model for Word {
    ghost use Rattle.std.specs.Prelude.{List, ℕ, string_bytes};
    ghost use Rattle.ipxe_script.specs.Word.{IsWord};

    ghost Value = { List ℕ };

    ghost view = { λ word. string_bytes word.text };

    ghost invariant = { λ word. IsWord (string_bytes word.text) };
}

#[tactic(auto, unfolding(crate::specs::Word::is_first_octet))]
fn is_first_octet(octet: u8) -> bool
    ensures { result ≡ is_first_octet octet }
{
    octet.is_ascii_alphanumeric() || matches!(octet, b'-' | b'_' | b'.' | b'/')
}

#[tactic(auto, unfolding(crate::specs::Word::is_word_octet))]
fn is_word_octet(octet: u8) -> bool
    ensures { result ≡ is_word_octet octet }
{
    is_first_octet(octet) || matches!(octet, b':' | b'=' | b',' | b'+' | b'@' | b'%' | b'?' | b';')
}

fn are_word_octets(octets: &[u8]) -> bool
    ensures { result ≡ list_all is_word_octet octets.now }
{
    octets.iter().all(|octet| is_word_octet(*octet))
}

#[tactic(auto, unfolding(crate::specs::Word::is_word))]
pub(crate) fn is_word(text: &str) -> bool
    ensures { result ≡ is_word text.now }
{
    let Some((first, others)) = text.as_bytes().split_first() else {
        return false;
    };
    is_first_octet(*first) && are_word_octets(others) && others.len() < MAX_WORD_LEN
}

impl Word {
    /// Makes a word of a text. The text is tested before memory is taken.
    ///
    /// # Errors
    ///
    /// `BadWord` if and only if the text is no word, and `Memory`.
    pub fn new(alloc: Global, text: &str) -> Result<Word, WordFault>
        ensures text { IfOk result (λ word. word ≡ text.now) }
        ensures word { OnOk result (IsWord text.now) }
        ensures bad_word { IsErrOf result WordFault.BadWord ↔ ¬ (IsWord text.now) }
    {
        if !is_word(text) {
            return Err(WordFault::BadWord);
        }
        let text = String::from_str(alloc, text)?;
        Ok(Word { text })
    }

    /// The word as text.
    pub fn text(&self) -> &str
        ensures text { result.now ≡ self.now }
        ensures word { IsWord self.now }
    {
        self.text.as_str()
    }

    /// Whether the word begins `hall.`: such words of a kernel's command line are written by the desk alone.
    #[tactic(auto, unfolding(crate::specs::Word::is_hall_word))]
    pub fn is_hall_word(&self) -> bool
        ensures { result ≡ is_hall_word self.now }
    {
        self.text().as_bytes().starts_with(b"hall.")
    }

    /// Copies the word.
    pub fn copy(&self, alloc: Global) -> Result<Word, AllocError>
        ensures { IfOk result (λ copy. copy ≡ self.now) }
    {
        let text = String::from_str(alloc, self.text())?;
        Ok(Word { text })
    }
}

/// A word that begins with `http://`. Contracts see its text.
#[derive(Drop)]
pub struct Uri {
    word: Word,
}

impl Model for Uri {
    ghost use Rattle.std.specs.Prelude.{List, ℕ};
    ghost use Rattle.ipxe_script.specs.Word.{IsUri};

    ghost Value = { List ℕ };

    ghost view = { λ uri. uri.word };

    ghost invariant = { λ uri. IsUri uri.word };
}

#[tactic(auto, unfolding(crate::specs::Word::is_uri))]
pub(crate) fn is_uri(text: &str) -> bool
    ensures uri { result ≡ is_uri text.now }
    ensures word { IsTrue result → IsWord text.now }
{
    is_word(text) && text.as_bytes().starts_with(b"http://")
}

impl Uri {
    /// Makes a URI of a text. The text is tested before memory is taken.
    ///
    /// # Errors
    ///
    /// `BadWord` if and only if the text is no URI, and `Memory`.
    pub fn new(alloc: Global, text: &str) -> Result<Uri, WordFault>
        ensures text { IfOk result (λ uri. uri ≡ text.now) }
        ensures uri { OnOk result (IsUri text.now) }
        ensures bad_word { IsErrOf result WordFault.BadWord ↔ ¬ (IsUri text.now) }
    {
        if !is_uri(text) {
            return Err(WordFault::BadWord);
        }
        let word = Word::new(alloc, text)?;
        Ok(Uri { word })
    }

    /// The URI as text.
    pub fn text(&self) -> &str
        ensures text { result.now ≡ self.now }
        ensures uri { IsUri self.now }
    {
        self.word.text()
    }

    /// Copies the URI.
    pub fn copy(&self, alloc: Global) -> Result<Uri, AllocError>
        ensures { IfOk result (λ copy. copy ≡ self.now) }
    {
        let word = self.word.copy(alloc)?;
        Ok(Uri { word })
    }
}
