//! Machines and their network interfaces.
ghost use Rattle.std.specs.Prelude.{◌≡◌, Some};

use crate::address::MacAddress;
use crate::boot::BootCount;
use crate::kinds::Erase;
use crate::machine_uuid::MachineUuid;
use crate::moment::Moment;
use crate::name::Name;
use crate::number::Number;
use crate::status::Status;
use crate::version::Version;
use pxe_vendor::Arch;

/// The maximum of machines in a hall.
pub const MAX_MACHINES: u64 = 10_000;

/// The maximum of interfaces of one machine.
pub const MAX_INTERFACES: usize = 8;

/// A machine of the hall.
#[derive(Clone, Copy, PartialEq, Eq)]
pub struct Machine {
    pub id: Number,
    pub arch: Arch,
    pub uuid: Option<MachineUuid>,
    pub pool: Name,
    pub status: Status,
    pub owner: Option<Name>,
    /// The image that it was last deployed with, none once it is Ready or Broken.
    pub image: Option<Name>,
    /// Whether its last commissioning asked for tests.
    pub tests: bool,
    /// The status that a rescue began from, Deployed or Broken, kept in the five statuses of rescue.
    pub back: Option<Status>,
    /// How its disks are erased, kept in Disk erasing and Failed disk erasing.
    pub erase: Option<Erase>,
    /// Whether it is locked: every command on it but unlock is then refused.
    pub locked: bool,
    pub version: Version,
    /// When its status expires, in seconds since 1970-01-01 00:00:00 UTC. It may be after the last moment.
    pub deadline: Option<u64>,
    /// The number of its current boot.
    pub boot: Option<Number>,
    /// How many boots it was issued since it entered its status, always 0 in Rescue mode.
    pub boots: BootCount,
    /// The number of its waiting order.
    pub waiting: Option<Number>,
}

impl Machine {
    ghost use Rattle.hall_types.specs.{Lookup.{if_due, is_due}, Machine.blank_machine};

    /// A New machine of a pool, of which nothing is known but its architecture and its UUID.
    pub fn new(id: Number, arch: Arch, pool: Name, uuid: Option<MachineUuid>) -> Machine
        ensures { result ≡ blank_machine id arch pool uuid }
    {
        Machine {
            id,
            arch,
            uuid,
            pool,
            status: Status::New,
            owner: None,
            image: None,
            tests: false,
            back: None,
            erase: None,
            locked: false,
            version: Version::FIRST,
            deadline: None,
            boot: None,
            boots: BootCount::NONE,
            waiting: None,
        }
    }

    /// Whether its deadline has come.
    pub fn is_due(&self, moment: Moment) -> bool
        ensures { result ≡ is_due moment self.now }
    {
        match self.deadline {
            Some(deadline) => deadline <= moment.get(),
            None => false,
        }
    }

    /// The machine, if its deadline has come.
    pub fn if_due(self, moment: Moment) -> Option<Machine>
        ensures { result ≡ if_due moment (Some self) }
    {
        if self.is_due(moment) {
            Some(self)
        } else {
            None
        }
    }
}

/// A network interface of a machine.
#[derive(Clone, Copy, PartialEq, Eq)]
pub struct Interface {
    pub mac: MacAddress,
    pub machine: Number,
}
