//! Printing the lines of a script.
ghost use Rattle.std.specs.{Prelude.{◌≡◌, ◌++◌, ◌∷◌, string_bytes, OnOk}, List.{flat_map, join_with_byte}};
ghost use Rattle.ipxe_script.specs.{Text.space, Script.{words_of, line_of}};

use crate::command::Command;
use crate::word::Word;
use std::alloc::AllocError;

// Each word after a space.
fn push_words(out: &mut String, words: &[Word]) -> Result<(), AllocError>
    ensures { OnOk result (string_bytes out.new
        ≡ string_bytes out.old ++ flat_map (λ word. space ∷ word) words.now) }
{
    for word in words {
        out.push_str(" ")?;
        out.push_str(word.text())?;
    }
    Ok(())
}

#[tactic(auto, using(crate::proofs::PrintLemmas::print_steps))]
fn push_command(out: &mut String, command: &Command) -> Result<(), AllocError>
    ensures { OnOk result (string_bytes out.new
        ≡ string_bytes out.old ++ join_with_byte space (words_of command.now)) }
{
    match command {
        Command::Kernel { uri, args } => {
            out.push_str("kernel ")?;
            out.push_str(uri.text())?;
            push_words(out, args.as_slice())
        }
        Command::Initrd { uri } => {
            out.push_str("initrd ")?;
            out.push_str(uri.text())
        }
        Command::Boot => out.push_str("boot"),
        Command::Exit => out.push_str("exit"),
        Command::Sanboot => out.push_str("sanboot --no-describe --drive 0x80"),
        Command::Echo { words } => {
            out.push_str("echo")?;
            push_words(out, words.as_slice())
        }
        Command::Poweroff => out.push_str("poweroff"),
    }
}

pub(crate) fn push_line(out: &mut String, command: &Command) -> Result<(), AllocError>
    ensures { OnOk result (string_bytes out.new ≡ string_bytes out.old ++ line_of command.now) }
{
    push_command(out, command)?;
    out.push_str("\n")
}
