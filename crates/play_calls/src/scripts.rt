//! Words and scripts of iPXE.
use crate::frames::print_result;
use cases::{Out, Played, halves, number, string_of};
use ipxe_script::{Command, Script, ScriptFault, Uri, Word, Words, read};
use std::alloc::Global;

/// The word of a text.
pub fn word(rest: &str, out: &mut Out) -> Played {
    let text = string_of(out.alloc(), rest)?;
    let word = Word::new(out.alloc(), text.as_str());
    print_result!(out, word, word, out.push(word.text()));
    Ok(())
}

/// The URI of a text.
pub fn uri(rest: &str, out: &mut Out) -> Played {
    let text = string_of(out.alloc(), rest)?;
    let uri = Uri::new(out.alloc(), text.as_str());
    print_result!(out, uri, uri, out.push(uri.text()));
    Ok(())
}

/// The characters up to U+00FF that make a word after this text.
pub fn characters(front: &str, out: &mut Out) -> Played {
    for octet in 0..=u8::MAX {
        let text = format!(in out.alloc(); "{front}{}", char::from(octet))?;
        if Word::new(out.alloc(), text.as_str()).is_ok() {
            out.escaped(&[octet]);
        }
    }
    Ok(())
}

fn reprinted(alloc: Global, text: &str) -> Result<String, ScriptFault> {
    let script = read(alloc, text)?;
    let copies = script.commands().iter().map(|command| command.copy(alloc));
    let copies: Vec<Command> = copies.try_collect(alloc)?;
    Ok(Script::new(copies)?.print(alloc)?)
}

/// The script of a text, its commands copied one by one, put together and printed.
pub fn script(rest: &str, out: &mut Out) -> Played {
    let text = string_of(out.alloc(), rest)?;
    let script = reprinted(out.alloc(), text.as_str());
    print_result!(out, script, text, out.escaped(text.as_bytes()));
    Ok(())
}

fn echo_script(alloc: Global, words: u64, others: u64) -> Result<Script, ScriptFault> {
    let mut texts = Vec::new(alloc);
    for _ in 0..words {
        texts.push(Word::new(alloc, "a")?)?;
    }
    let words = Words::from(texts);
    let mut commands = Vec::new(alloc);
    commands.push(Command::Echo { words })?;
    for _ in 0..others {
        commands.push(Command::Poweroff)?;
    }
    Script::new(commands)
}

/// The number of commands in a script of an `echo` with so many words, and so many other commands, `WORDS OTHERS`.
pub fn echoes(rest: &str, out: &mut Out) -> Played {
    let (words, others) = halves(rest, " ")?;
    let script = echo_script(out.alloc(), number(words)?, number(others)?);
    print_result!(out, script, script, out.show(script.commands().len()));
    Ok(())
}
