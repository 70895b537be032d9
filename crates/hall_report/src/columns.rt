//! Texts in columns.
ghost use Rattle.std.specs.{Prelude.{◌≡◌, ◌++◌, IfOk, OnOk, string_bytes, replicate}, Fmt.decimal};
ghost use Rattle.hall_report.specs.Columns.{in_left, in_right};

use std::alloc::{AllocError, Global};

/// The decimal digits of a number.
pub(crate) fn digits(alloc: Global, number: u64) -> Result<String, AllocError>
    ensures { IfOk result (λ text. string_bytes text ≡ decimal number) }
{
    number.to_string(alloc)
}

fn push_spaces(text: &mut String, count: usize) -> Result<(), AllocError>
    ensures { OnOk result (string_bytes text.new ≡ string_bytes text.old ++ replicate count 32) }
{
    for _ in 0..count {
        text.push(' ')?;
    }
    Ok(())
}

/// Writes a text at the left end of a column.
#[tactic(auto, unfolding(crate::specs::Columns::in_left))]
pub(crate) fn push_left(text: &mut String, width: usize, word: &str) -> Result<(), AllocError>
    ensures { OnOk result (string_bytes text.new ≡ string_bytes text.old ++ in_left width word.now) }
{
    text.push_str(word)?;
    push_spaces(text, width.saturating_sub(word.len()))
}

/// Writes a text at the right end of a column.
#[tactic(auto, unfolding(crate::specs::Columns::in_right))]
pub(crate) fn push_right(text: &mut String, width: usize, word: &str) -> Result<(), AllocError>
    ensures { OnOk result (string_bytes text.new ≡ string_bytes text.old ++ in_right width word.now) }
{
    push_spaces(text, width.saturating_sub(word.len()))?;
    text.push_str(word)
}
