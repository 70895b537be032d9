//! Writing a text.
ghost use Rattle.std.specs.{Prelude.{◌≡◌, IfErr, OnOk}, Io.KnownBytes.Appends};

use hall_report::Fault;
use std::io::Write;

/// Writes a text. A write that fails is `Io`.
pub fn write_text<W: Write>(writer: &mut W, text: &str) -> Result<(), Fault>
    ensures written { OnOk result (Appends (W.contents writer.old) (W.contents writer.new) text.now) }
    ensures fault { IfErr result (λ fault. fault ≡ Fault.Io) }
{
    match writer.write_all(text.as_bytes()) {
        Ok(()) => Ok(()),
        Err(_) => Err(Fault::Io),
    }
}
