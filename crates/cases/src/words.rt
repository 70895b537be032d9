//! The words of acts.
use crate::fault::CaseFault;
use std::str::FromStr;

/// The first word, and the words after it.
pub fn first(words: &str) -> (&str, &str) {
    words.split_once(' ').unwrap_or((words, ""))
}

/// The two parts of a text that a separator parts.
pub fn halves<'a>(text: &'a str, separator: &str) -> Result<(&'a str, &'a str), CaseFault> {
    text.split_once(separator).ok_or(CaseFault::Form)
}

/// A value of a type that reads its own text, as a name, a status or a moment.
pub fn parsed<T: FromStr + Drop>(word: &str) -> Result<T, CaseFault>
where
    T::Err: Drop,
{
    word.parse::<T>().map_err(|_| CaseFault::Form)
}

/// A number in decimal digits.
pub fn number(word: &str) -> Result<u64, CaseFault> {
    parsed(word)
}
