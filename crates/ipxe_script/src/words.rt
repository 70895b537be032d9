//! Lists of words.
ghost use Rattle.std.specs.Prelude.{◌≡◌, All, IfOk};
ghost use Rattle.ipxe_script.specs.Word.{IsWord};

use crate::word::Word;
use std::alloc::{AllocError, Global};
use std::marker::Model;

/// Words of a command after its name, in order. Contracts see their texts.
#[derive(Drop)]
pub struct Words {
    items: Vec<Word>,
}

impl Model for Words {
    ghost use Rattle.std.specs.Prelude.{List, ℕ, All};
    ghost use Rattle.ipxe_script.specs.Word.{IsWord};

    ghost Value = { List (List ℕ) };

    ghost view = { λ words. words.items.items };

    ghost invariant = { λ words. All IsWord words.items.items };
}

impl From<Vec<Word>> for Words {
    ghost from_gives = { λ items words. words ≡ items.items };

    fn from(items: Vec<Word>) -> Words {
        // Reading each word makes it known to the proof that its text is a word.
        for word in &items {
            let _ = word.text();
        }
        Words { items }
    }
}

impl Words {
    /// The words, as a slice.
    pub fn as_slice(&self) -> &[Word]
        ensures words { result.now ≡ self.now }
        ensures each { All IsWord self.now }
    {
        self.items.as_slice()
    }

    /// The words as the `Vec` that they were made of.
    pub fn into_vec(self) -> Vec<Word>
        ensures { result.items ≡ self }
    {
        let Words { items } = self;
        items
    }

    /// Copies the words.
    pub fn copy(&self, alloc: Global) -> Result<Words, AllocError>
        ensures { IfOk result (λ copy. copy ≡ self.now) }
    {
        let mut items = Vec::with_capacity(alloc, self.items.len())?;
        for word in &self.items {
            items.push(word.copy(alloc)?)?;
        }
        Ok(Words { items })
    }
}
