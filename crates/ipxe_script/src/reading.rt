//! Reading a script.
ghost use Rattle.std.specs.{Prelude.{◌≡◌, ◌<◌, ◌==◌, ◌⊎◌, List, map, IfOk, MatchResult}, List.{list_any, slice_split}};
ghost use Rattle.ipxe_script.specs.{Text.{lines_in, words_in}, Understood.{Gives, uri_of, args_of, lone_command, kernel_of, initrd_of, are_sanboot_words, sanboot_of, echo_of, command_of, commands_of, is_long_line, are_too_many, ended_pieces, lines_of, body_of, understood}, Script.{spelling, IsScript}, declared.command.Command.Command};

use crate::command::{Command, MAX_COMMANDS, MAX_WORDS};
use crate::fault::ScriptFault;
use crate::script::Script;
use crate::word::{Uri, Word};
use crate::words::Words;
use std::alloc::{AllocError, Global};

fn uri_of(alloc: Global, text: &str) -> Result<Uri, ScriptFault>
    ensures { Gives (λ uri. uri) result (uri_of text.now) }
{
    Ok(Uri::new(alloc, text)?)
}

fn args_of(alloc: Global, texts: &[&str]) -> Result<Words, ScriptFault>
    ensures { Gives (λ args. args) result (args_of (map (λ text. text.now) texts.now)) }
{
    let mut args = Vec::with_capacity(alloc, texts.len())?;
    for text in texts {
        args.push(Word::new(alloc, text)?)?;
    }
    Ok(Words::from(args))
}

#[tactic(auto, unfolding(crate::specs::Understood::lone_command))]
fn lone_command(command: Command, words: &[&str]) -> Result<Command, ScriptFault>
    ensures { result ≡ lone_command command (map (λ word. word.now) words.now) }
{
    match words {
        [] => Ok(command),
        _ => Err(ScriptFault::BadWord),
    }
}

#[tactic(auto, unfolding(crate::specs::Understood::kernel_of))]
fn kernel_of(alloc: Global, words: &[&str]) -> Result<Command, ScriptFault>
    ensures { Gives (λ command. command) result (kernel_of (map (λ word. word.now) words.now)) }
{
    let Some((uri, args)) = words.split_first() else {
        return Err(ScriptFault::BadWord);
    };
    let uri = uri_of(alloc, uri)?;
    let args = args_of(alloc, args)?;
    Ok(Command::Kernel { uri, args })
}

#[tactic(auto, unfolding(crate::specs::Understood::initrd_of))]
fn initrd_of(alloc: Global, words: &[&str]) -> Result<Command, ScriptFault>
    ensures { Gives (λ command. command) result (initrd_of (map (λ word. word.now) words.now)) }
{
    match words {
        [uri] => {
            let uri = uri_of(alloc, uri)?;
            Ok(Command::Initrd { uri })
        }
        _ => Err(ScriptFault::BadWord),
    }
}

fn are_sanboot_words(first: &str, second: &str, third: &str) -> bool
    ensures { result ≡ are_sanboot_words first.now second.now third.now }
{
    first == "--no-describe" && second == "--drive" && third == "0x80"
}

#[tactic(auto, unfolding(crate::specs::Understood::sanboot_of))]
fn sanboot_of(words: &[&str]) -> Result<Command, ScriptFault>
    ensures { result ≡ sanboot_of (map (λ word. word.now) words.now) }
{
    let [first, second, third] = words else {
        return Err(ScriptFault::BadWord);
    };
    if are_sanboot_words(first, second, third) {
        Ok(Command::Sanboot)
    } else {
        Err(ScriptFault::BadWord)
    }
}

#[tactic(auto, unfolding(crate::specs::Understood::echo_of))]
fn echo_of(alloc: Global, words: &[&str]) -> Result<Command, ScriptFault>
    ensures { Gives (λ command. command) result (echo_of (map (λ word. word.now) words.now)) }
{
    if words.is_empty() {
        return Err(ScriptFault::BadWord);
    }
    let words = args_of(alloc, words)?;
    Ok(Command::Echo { words })
}

#[tactic(auto, unfolding(crate::specs::Understood::command_of))]
fn command_of(alloc: Global, words: &[&str]) -> Result<Command, ScriptFault>
    ensures { Gives (λ command. command) result (command_of (map (λ word. word.now) words.now)) }
{
    let Some((name, words)) = words.split_first() else {
        return Err(ScriptFault::UnknownCommand);
    };
    match *name {
        "kernel" => kernel_of(alloc, words),
        "initrd" => initrd_of(alloc, words),
        "boot" => lone_command(Command::Boot, words),
        "exit" => lone_command(Command::Exit, words),
        "sanboot" => sanboot_of(words),
        "echo" => echo_of(alloc, words),
        "poweroff" => lone_command(Command::Poweroff, words),
        _ => Err(ScriptFault::UnknownCommand),
    }
}

// The parts of a text that an ASCII character separates.
fn pieces_of(alloc: Global, text: &str, separator: char) -> Result<Vec<&str>, AllocError>
    requires { separator < 128 }
    ensures { IfOk result (λ pieces. map (λ piece. piece.now) pieces.items
        ≡ slice_split (λ octet. octet == separator) text.now) }
{
    text.split(separator).collect(alloc)
}

fn command_in(alloc: Global, line: &str) -> Result<Command, ScriptFault>
    ensures { Gives (λ command. command) result (command_of (words_in line.now)) }
{
    let words = pieces_of(alloc, line, ' ')?;
    command_of(alloc, words.as_slice())
}

#[tactic(auto, using(crate::proofs::ReadingLemmas::command_steps))]
fn commands_of(alloc: Global, lines: &[&str]) -> Result<Vec<Command>, ScriptFault>
    ensures { Gives (λ commands. commands.items) result
        (commands_of (map (λ line. line.now) lines.now)) }
{
    let mut commands = Vec::with_capacity(alloc, lines.len())?;
    for line in lines {
        commands.push(command_in(alloc, line)?)?;
    }
    Ok(commands)
}

#[tactic(auto, using(crate::proofs::ReadingLemmas::space_steps), unfolding(crate::specs::Understood::is_long_line))]
fn is_long_line(line: &str) -> bool
    ensures { result ≡ is_long_line line.now }
{
    // A line has one word more than spaces.
    let spaces = line
        .as_bytes()
        .iter()
        .filter(|octet| **octet == b' ')
        .count();
    spaces >= MAX_WORDS
}

fn has_long_line(lines: &[&str]) -> bool
    ensures { result ≡ list_any is_long_line (map (λ line. line.now) lines.now) }
{
    for line in lines {
        if is_long_line(line) {
            return true;
        }
    }
    false
}

#[tactic(auto, unfolding(crate::specs::Understood::are_too_many))]
fn are_too_many(lines: &[&str]) -> bool
    ensures { result ≡ are_too_many (map (λ line. line.now) lines.now) }
{
    lines.len() > MAX_COMMANDS || has_long_line(lines)
}

// All pieces but the last, which has to be empty.
#[tactic(auto, using(crate::proofs::ReadingLemmas::piece_steps))]
fn ended_pieces(mut pieces: Vec<&str>) -> Result<Vec<&str>, ScriptFault>
    ensures { Gives (λ ended. map (λ piece. piece.now) ended.items) result
        (ended_pieces (map (λ piece. piece.now) pieces.entry.items)) }
{
    let Some(last) = pieces.pop() else {
        return Err(ScriptFault::NoFinalNewline);
    };
    if !last.is_empty() {
        return Err(ScriptFault::NoFinalNewline);
    }
    Ok(pieces)
}

// The lines of a text, each of which ends with a line feed.
fn lines_of(alloc: Global, text: &str) -> Result<Vec<&str>, ScriptFault>
    ensures { Gives (λ lines. map (λ line. line.now) lines.items) result (lines_of text.now) }
{
    let pieces = pieces_of(alloc, text, '\n')?;
    ended_pieces(pieces)
}

// The text after the first line.
#[tactic(auto, unfolding(crate::specs::Understood::body_of))]
fn body_of(text: &str) -> Result<&str, ScriptFault>
    ensures { Gives (λ body. body.now) result (body_of text.now) }
{
    text.strip_prefix("#!ipxe\n").ok_or(ScriptFault::NoHead)
}

#[tactic(auto, unfolding(crate::specs::Understood::understood))]
fn read_inner(alloc: Global, text: &str) -> Result<Script, ScriptFault>
    ensures { Gives (λ script. script) result (understood text.now) }
{
    let body = body_of(text)?;
    let lines = lines_of(alloc, body)?;
    if are_too_many(lines.as_slice()) {
        return Err(ScriptFault::TooMany);
    }
    let commands = commands_of(alloc, lines.as_slice())?;
    Script::new(commands)
}

/// Reads a script from the text that [`Script::print`] gives for it, and refuses every other text: each
/// line ends with a line feed alone, and one space separates words.
///
/// # Errors
///
/// The first of these: `NoHead`, `NoFinalNewline`, `TooMany`, and then the fault of the first bad line,
/// which is `UnknownCommand` if its first word is no command, and else `BadWord`. `Memory` can come in
/// place of any of them.
pub fn read(alloc: Global, text: &str) -> Result<Script, ScriptFault>
    // The result is a script, and the text is its spelling.
    ensures script { IfOk result (λ script. IsScript script × (text.now ≡ spelling script)) }
    // A script with this spelling is the result, unless memory runs out.
    ensures only { (commands : List Command) → IsScript commands → text.now ≡ spelling commands
        → (result ≡ Ok commands) ⊎ (result ≡ Err ScriptFault.Memory) }
    // A fault is the first one in the order.
    ensures exact { MatchResult result (λ script. understood text.now ≡ Ok script)
        (λ fault. (fault ≡ ScriptFault.Memory) ⊎ (understood text.now ≡ Err fault)) }
{
    read_inner(alloc, text)
}
