//! Which script a machine is given.
ghost use Rattle.std.specs.Prelude.{◌≡◌};
ghost use Rattle.boot_desk.specs.Class.{class_of};

use hall_types::{Machine, Purpose, Status};

/// The kind of a machine's script.
#[derive(Clone, Copy)]
pub enum ScriptClass {
    /// It boots its own disk.
    Local,
    /// It boots an image for a purpose.
    Work(Purpose),
    /// It is turned off.
    Hold,
}

/// The kind of script for a machine in its status: `Local` for Deployed, and while a rescue that began there
/// ends. It takes no memory.
#[tactic(auto, unfolding(crate::specs::Class::class_in))]
pub fn script_for(machine: &Machine) -> ScriptClass
    ensures { result ≡ class_of machine.now }
{
    match (machine.status, machine.back) {
        (Status::Deployed, _) | (Status::ExitingRescue, Some(Status::Deployed)) =>
            ScriptClass::Local,
        (Status::Commissioning, _) => ScriptClass::Work(Purpose::Commission),
        (Status::Testing, _) => ScriptClass::Work(Purpose::Test),
        (Status::Deploying, _) => ScriptClass::Work(Purpose::Deploy),
        (Status::DiskErasing, _) => ScriptClass::Work(Purpose::Erase),
        (Status::EnteringRescue | Status::Rescue, _) => ScriptClass::Work(Purpose::Rescue),
        _ => ScriptClass::Hold,
    }
}
