//! The words of a command line.
use cases::CaseFault;
use command_rows::Wrong;
use hallctl_words::{Line, LineFault, read};
use std::alloc::Global;

/// The words of a command line, after the program's name.
pub(crate) fn words_of(alloc: Global, program: &str, line: &str) -> Result<Vec<String>, CaseFault> {
    let mut words = Vec::new(alloc);
    words.push(String::from_str(alloc, program)?)?;
    for word in line.split_ascii_whitespace() {
        words.push(match word {
            "''" => String::new(alloc),
            _ => word.replace(alloc, "~", " ")?,
        })?;
    }
    Ok(words)
}

/// What the words of hallctl say, where they are a command line.
pub(crate) fn line_of<'a>(alloc: Global, words: &'a [String]) -> Result<Line<'a>, CaseFault> {
    match read(alloc, words) {
        Ok(line) => Ok(line),
        Err(LineFault::Wrong(Wrong::Memory)) => Err(CaseFault::Memory),
        Err(_) => Err(CaseFault::Form),
    }
}
