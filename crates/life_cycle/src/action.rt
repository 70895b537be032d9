//! Actions of operators on machines, and who may take them.
ghost use Rattle.std.specs.Prelude.{◌≡◌, None, Some, if◌then◌else◌};
ghost use Rattle.life_cycle.specs.Permission.{is_admin, is_owner, permission_for, refused_if, who_acts};

use hall_types::{Act, Machine, Operator, Refusal, Role};

/// What an operator can do with a machine. Locking and unlocking have no rows in the table of the life cycle, since they
/// leave the status as it is.
#[derive(Clone, Copy)]
pub enum Action {
    Commission,
    Deploy,
    /// Release with the disks left as they are.
    Release,
    /// Release with the disks erased, quickly or fully.
    ReleaseErasing,
    Act(Act),
}

/// Who may give a signal.
#[derive(Clone, Copy, PartialEq, Eq)]
pub enum Who {
    Admin,
    /// A member of the machine's pool, or an admin.
    MemberOrAdmin,
    Owner,
    OwnerOrAdmin,
    /// No operator.
    Nobody,
}

impl Action {
    /// Who may take it, where the machine's status allows it.
    #[tactic(auto, unfolding(crate::specs::Table::who_gives))]
    pub fn who(self) -> Who
        ensures { result ≡ who_acts self }
    {
        match self {
            Action::Commission | Action::Act(Act::Test | Act::Override | Act::Fix) => Who::Admin,
            Action::Act(Act::Allocate) => Who::MemberOrAdmin,
            Action::Deploy | Action::ReleaseErasing => Who::Owner,
            Action::Release
            | Action::Act(
                Act::Rescue | Act::Abort | Act::Lock | Act::Unlock | Act::ExitRescue | Act::Break,
            ) => Who::OwnerOrAdmin,
        }
    }
}

fn is_admin(operator: &Operator) -> bool
    ensures { result ≡ is_admin operator.now }
{
    matches!(operator.role, Role::Admin)
}

fn is_owner(operator: &Operator, machine: &Machine) -> bool
    ensures { result ≡ is_owner operator.now machine.now }
{
    match machine.owner {
        Some(owner) => owner == operator.name,
        None => false,
    }
}

fn allowed_if(is_allowed: bool, refusal: Refusal) -> Result<(), Refusal>
    ensures { result ≡ refused_if (if is_allowed then None else Some refusal) }
{
    if is_allowed {
        return Ok(());
    }
    Err(refusal)
}

/// Not the whole permission: an action that the table gives to admins is never refused here, since the
/// caller asks for the role first. For the other actions it answers whether this operator may act on this
/// machine; `member` says whether the operator is a member of the machine's pool.
///
/// # Errors
///
/// `NotMember` if the action needs a member of the pool or an admin, `NotOwner` if it needs the owner, or
/// the owner or an admin, and the operator is none of these.
pub fn may(
    operator: &Operator,
    machine: &Machine,
    action: Action,
    member: bool,
) -> Result<(), Refusal>
    ensures { result ≡ refused_if (permission_for (who_acts action) operator.now machine.now member) }
{
    let owner = is_owner(operator, machine);
    let admin = is_admin(operator);
    match action.who() {
        Who::Admin | Who::Nobody => Ok(()),
        Who::MemberOrAdmin => allowed_if(admin || member, Refusal::NotMember),
        Who::Owner => allowed_if(owner, Refusal::NotOwner),
        Who::OwnerOrAdmin => allowed_if(admin || owner, Refusal::NotOwner),
    }
}
