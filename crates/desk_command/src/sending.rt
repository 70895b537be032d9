//! Who may send a command.
ghost use Rattle.std.specs.Prelude.{◌≡◌};
ghost use Rattle.desk_command.specs.Command.{may_send, needs_admin};

use crate::action::action_of;
use hall_events::HallCommand;
use hall_types::Role;
use life_cycle::Who;

fn needs_admin(command: &HallCommand) -> bool
    ensures { result ≡ needs_admin command.now }
{
    let HallCommand::OnMachine { command, .. } = command else {
        return true;
    };
    match action_of(command) {
        Some(action) => matches!(action.who(), Who::Admin),
        None => true,
    }
}

/// Whether an operator of a role may send a command: users may act on machines, admins may send every command, and the
/// power program none.
pub fn may_send(role: Role, command: &HallCommand) -> bool
    ensures { result ≡ may_send role (needs_admin command.now) }
{
    match role {
        Role::Admin => true,
        Role::User => !needs_admin(command),
        Role::Power => false,
    }
}
