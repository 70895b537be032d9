//! The actions of the life cycle that commands are.
ghost use Rattle.std.specs.Prelude.{◌≡◌};
ghost use Rattle.desk_command.specs.Causes.{action_of, release_action};

use hall_events::MachineCommand;
use hall_types::Erase;
use life_cycle::Action;

pub(crate) fn release_action(erase: Option<Erase>) -> Action
    ensures { result ≡ release_action erase }
{
    match erase {
        None => Action::Release,
        Some(_) => Action::ReleaseErasing,
    }
}

/// The action that a command is, if it is one.
pub(crate) fn action_of(command: &MachineCommand) -> Option<Action>
    ensures { result ≡ action_of command.now }
{
    match *command {
        MachineCommand::Commission { .. } => Some(Action::Commission),
        MachineCommand::Deploy { .. } => Some(Action::Deploy),
        MachineCommand::Release { erase } => Some(release_action(erase)),
        MachineCommand::Act(act) => Some(Action::Act(act)),
        _ => None,
    }
}
