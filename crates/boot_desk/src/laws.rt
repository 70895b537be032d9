//! What holds of halls, whatever the desk decides.
ghost use Rattle.std.specs.Prelude.{◌≡◌, ℕ, List, Ok, Some};
ghost use Rattle.pxe_vendor.specs.declared.clients.Client.{Client};
ghost use Rattle.hall_types.specs.{Hall.{Hall, Schema, applied, new_hall}, Rows.at, declared.{change.RowWrite.RowWrite, kinds.{Outcome.Outcome, Progress.Progress}, machine.Machine.Machine, port.Port.Port}};
ghost use Rattle.ipxe_script.specs.declared.command.Command.{Command};
ghost use Rattle.boot_desk.specs.{Expiry.swept, Fetch.fetched, FrameEvent.{enlisted, frame_decision, frame_view}, OrderAnswer.answered, Report.reported, Sound.IsSound, Views.{order_view, report_view, view_of}, declared.{fault.Verdict.Verdict, frames.Decision.TheVariants.Enlist}};

/// A new hall is sound, in each schema.
pub fn new_halls_are_sound()
    ensures { (schema : Schema) (admin digest : List ℕ) → IsSound (new_hall schema admin digest) }
{}

/// A sound hall stays sound when the rows of a decision are written: those of a script, of a report, of the
/// answer to an order, of an expiry, and of a new machine.
pub fn decisions_keep_halls_sound()
    ensures script { (h : Hall) (m : Machine) (host fresh : List ℕ) (moment : ℕ) (rows : List RowWrite) (script : List Command)
        → IsSound h → at h.machines m.id ≡ Some m
        → fetched host (view_of h m) moment fresh ≡ Ok (rows, script) → IsSound (applied rows h) }
    ensures report { (h : Hall) (number : ℕ) (token : List ℕ) (progress : Progress) (moment : ℕ) (rows : List RowWrite) (verdict : Verdict)
        → IsSound h → reported (report_view h number) token progress moment ≡ Ok (rows, verdict) → IsSound (applied rows h) }
    ensures answer { (h : Hall) (number : ℕ) (outcome : Outcome) (moment : ℕ) (rows : List RowWrite) (verdict : Verdict)
        → IsSound h → answered (order_view h number) outcome moment ≡ Ok (rows, verdict) → IsSound (applied rows h) }
    ensures expiry { (h : Hall) (m : Machine) (moment : ℕ)
        → IsSound h → at h.machines m.id ≡ Some m → IsSound (applied (swept (Some (view_of h m)) moment) h) }
    ensures enlisting { (h : Hall) (client : Client) (port : Port)
        → IsSound h → frame_decision (frame_view h client) port client ≡ Enlist → IsSound (applied (enlisted client h.last) h) }
{}
