//! What holds of the texts of commands and answers.
ghost use Rattle.std.specs.Prelude.{◌≡◌, ◌↔◌};
ghost use Rattle.hall_types.specs.Hall.{Schema};
ghost use Rattle.hall_events.specs.{Command.{IsCommand, command_text}, Reply.{Content, IsReadable, reply_of}, declared.command.HallCommand.HallCommand};

/// Law: commands have equal texts if and only if they are equal.
pub fn one_text()
    ensures { (c d : HallCommand) → IsCommand c → IsCommand d → (command_text c ≡ command_text d) ↔ (c ≡ d) }
{}

/// Law: equal answers say the same. It is not stated for lists, which leave out parts of a machine, nor for
/// answers that receipts keep, which equal the answers that they were kept from.
pub fn different_answers()
    ensures { (s t : Schema) (c d : Content) → IsReadable c → IsReadable d → reply_of s c ≡ reply_of t d → c ≡ d }
{}
