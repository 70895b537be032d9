//! Scripts, made of commands and printed.
ghost use Rattle.std.specs.{Prelude.{◌≡◌, ◌<◌, ◌≤◌, ◌↔◌, ◌++◌, ◌∷◌, length, string_bytes, All, Any, MatchBool, IsOk, OnOk, IfOk, IsErrOf}, List.flat_map};
ghost use Rattle.ipxe_script.specs.Script.{words_of, line_of, spelling, IsWhole, IsBareEcho, IsScript, HasTooManyWords, HasTooMany};

use crate::command::{Command, MAX_COMMANDS, MAX_WORDS};
use crate::fault::ScriptFault;
use crate::print::push_line;
use std::alloc::{AllocError, Global};
use std::marker::Model;

// Octets to reserve for a line. A longer line makes the text grow.
const LINE_ROOM: usize = 128;

/// A script for iPXE (<https://ipxe.org/scripting>): at most [`MAX_COMMANDS`] commands, each of at most
/// [`MAX_WORDS`] words, its name among them. Contracts see its commands.
#[derive(Drop)]
pub struct Script {
    commands: Vec<Command>,
}

impl Model for Script {
    ghost use Rattle.std.specs.Prelude.{List};
    ghost use Rattle.ipxe_script.specs.{Script.IsScript, declared.command.Command.Command};

    ghost Value = { List Command };

    ghost view = { λ script. script.commands.items };

    ghost invariant = { λ script. IsScript script.commands.items };
}

fn are_whole(commands: &[Command]) -> bool
    ensures { MatchBool result (All IsWhole commands.now) (Any IsBareEcho commands.now) }
{
    commands.iter().all(|command| command.is_whole())
}

fn has_long_line(commands: &[Command]) -> bool
    ensures { MatchBool result (Any HasTooManyWords commands.now)
        (All (λ c. length (words_of c) ≤ MAX_WORDS) commands.now) }
{
    commands.iter().any(|command| command.has_too_many_words())
}

impl Script {
    /// Makes a script of these commands. It takes no memory, and drops commands that it refuses.
    ///
    /// # Errors
    ///
    /// `BadWord` if an `echo` has no words, and else `TooMany` for more than [`MAX_COMMANDS`] commands or
    /// more than [`MAX_WORDS`] words on a line.
    pub fn new(commands: Vec<Command>) -> Result<Script, ScriptFault>
        ensures commands { IfOk result (λ script. script ≡ commands.items) }
        ensures ok { IsOk result ↔ IsScript commands.items }
        ensures bad_word { IsErrOf result ScriptFault.BadWord ↔ Any IsBareEcho commands.items }
        ensures too_many { IsErrOf result ScriptFault.TooMany
            ↔ (¬ (Any IsBareEcho commands.items) × HasTooMany commands.items) }
    {
        if !are_whole(&commands) {
            return Err(ScriptFault::BadWord);
        }
        if commands.len() > MAX_COMMANDS || has_long_line(&commands) {
            return Err(ScriptFault::TooMany);
        }
        Ok(Script { commands })
    }

    /// The commands, in order.
    pub fn commands(&self) -> &[Command]
        ensures commands { result.now ≡ self.now }
        ensures script { IsScript self.now }
    {
        self.commands.as_slice()
    }

    /// Prints the script in its one spelling: `#!ipxe`, and a line for each command, with a line feed at
    /// the end of each.
    pub fn print(&self, alloc: Global) -> Result<String, AllocError>
        ensures { IfOk result (λ text. string_bytes text ≡ spelling self.now) }
    {
        let mut out = String::with_capacity(alloc, LINE_ROOM * (self.commands().len() + 1))?;
        out.push_str("#!ipxe\n")?;
        for command in self.commands() {
            push_line(&mut out, command)?;
        }
        Ok(out)
    }
}
