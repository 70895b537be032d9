//! What holds of halls, whatever operators command.
ghost use Rattle.std.specs.Prelude.{◌≡◌, ℕ, List, Ok, Option};
ghost use Rattle.desk_command.specs.{Prelude.{Hall, applied, second, RowWrite, Content, HallCommand, IsSound}, Command.command_decision};

/// A sound hall of the second schema stays sound when the rows of a command are written.
pub fn commands_keep_halls_sound()
    ensures { (h : Hall) (bearer : Option (List ℕ)) (key : List ℕ) (command : HallCommand) (moment : ℕ) (rows : List RowWrite) (content : Content)
        → IsSound h → h.schema ≡ second
        → command_decision h bearer key command moment ≡ Ok (rows, content) → IsSound (applied rows h) }
{}
