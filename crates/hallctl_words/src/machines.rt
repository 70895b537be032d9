//! Commands on machines that are there.
use crate::hall::ADD_MACHINE;
use crate::options::{COMMAND, MAC, MACHINE, NAME, POOL, TIME};
use crate::spans::machines_of;
use crate::values::{erase_of, mac_of};
use command_rows::{CommandRow, OptionRow, Options, Shape, Wrong};
use hall_events::{HallCommand, MachineCommand};
use hall_types::{Act, Number, Version};

// The row of a command without members.
macro_rules! act {
    ($name:literal, $about:literal) => {
        CommandRow {
            name: $name,
            about: $about,
            example: concat!("Example: hallctl ", $name, " 1"),
            options: &[MACHINES, VERSION],
            ..COMMAND
        }
    };
}

/// Commands on machines, in the order of the help.
pub(crate) static ROWS: [CommandRow; 18] = [
    CommandRow {
        name: "commission",
        about: "Commissions machines",
        example: "Example: hallctl commission 1 2 5-9 --tests",
        options: &[MACHINES, TESTS, VERSION, WAIT_FOR],
        ..COMMAND
    },
    CommandRow {
        name: "test",
        about: "Tests machines",
        example: "Example: hallctl test 1 --wait 1h",
        options: &[MACHINES, VERSION, WAIT_FOR],
        ..COMMAND
    },
    act!("override", "Takes machines whose tests failed as ready"),
    act!("allocate", "Makes you the owner of machines"),
    CommandRow {
        name: "deploy",
        about: "Deploys an image on machines that you own",
        example: "Example: hallctl deploy 1 --image jammy",
        options: &[MACHINES, IMAGE, VERSION, WAIT_FOR],
        ..COMMAND
    },
    CommandRow {
        name: "release",
        about: "Gives machines back, with all of their disks erased first or not",
        example: "Example: hallctl release 1 --erase none\n\nThe machine is switched off. With none its disks keep their data, for the next owner too.",
        options: &[MACHINES, ERASE, VERSION, YES, WAIT_FOR],
        ..COMMAND
    },
    CommandRow {
        name: "rescue",
        about: "Boots the rescue system on machines",
        example: "Example: hallctl rescue 1\n\nThe machine is restarted.",
        options: &[MACHINES, VERSION, YES, WAIT_FOR],
        ..COMMAND
    },
    CommandRow {
        name: "exit-rescue",
        about: "Ends the rescue of machines",
        example: "Example: hallctl exit-rescue 1\n\nThe machine is restarted.",
        options: &[MACHINES, VERSION, YES],
        ..COMMAND
    },
    act!("abort", "Stops what machines are doing"),
    act!("break", "Marks machines as broken"),
    act!("fix", "Takes broken machines as ready"),
    act!(
        "lock",
        "Guards deployed machines against every command but unlock"
    ),
    act!("unlock", "Ends that guard"),
    CommandRow {
        name: "delete",
        about: "Deletes machines",
        example: "Example: hallctl delete 1",
        options: &[MACHINES, VERSION, YES],
        ..COMMAND
    },
    CommandRow {
        name: "set-pool",
        about: "Puts machines into another pool",
        example: "Example: hallctl set-pool 1 --pool lab",
        options: &[MACHINES, POOL, VERSION],
        ..COMMAND
    },
    ADD_MACHINE,
    CommandRow {
        name: "add-interface",
        about: "Adds a hardware address to a machine",
        example: "Example: hallctl add-interface 1 --mac 52:54:00:12:34:57",
        options: &[MACHINE, MAC, VERSION],
        ..COMMAND
    },
    CommandRow {
        name: "remove-interface",
        about: "Removes a hardware address from a machine",
        example: "Example: hallctl remove-interface 1 --mac 52:54:00:12:34:57",
        options: &[MACHINE, MAC, VERSION],
        ..COMMAND
    },
];

const MACHINES: &OptionRow = &OptionRow {
    name: "machines",
    value: "MACHINE",
    help: "Numbers of machines, and ranges of numbers as 5-9",
    must: "a machine's number, or a range of numbers as in 5-9; at most 10000 machines",
    shape: Shape::Places,
    ..OptionRow::PLACE
};

const VERSION: &OptionRow = &OptionRow {
    name: "version",
    value: "VERSION",
    help: "The version that the machine must have",
    must: "the version of one machine, without leading zeros",
    ..OptionRow::MAYBE
};

pub(crate) const WAIT_FOR: &OptionRow = &OptionRow {
    name: "wait",
    value: "TIME",
    help: "Waits afterwards, for at most this time, until the machines have got where this leads",
    must: TIME,
    ..OptionRow::MAYBE
};

pub(crate) const YES: &OptionRow = &OptionRow {
    name: "yes",
    help: "Asks nothing",
    ..OptionRow::FLAG
};

const TESTS: &OptionRow = &OptionRow {
    name: "tests",
    help: "Tests the machine too",
    ..OptionRow::FLAG
};

const ERASE: &OptionRow = &OptionRow {
    name: "erase",
    value: "KIND",
    help: "How all disks are erased first: none, quick or full",
    must: "none, quick or full",
    ..OptionRow::ALWAYS
};

const IMAGE: &OptionRow = &OptionRow {
    name: "image",
    value: "IMAGE",
    help: "The image that is deployed",
    must: NAME,
    ..OptionRow::ALWAYS
};

// What a word alone says, which is the command's name with hyphens.
fn act(name: &str, options: &Options<'_>) -> Result<MachineCommand, Wrong> {
    let word = name.replace(options.alloc(), "-", "_")?;
    match word.as_str().parse::<Act>() {
        Ok(act) => Ok(MachineCommand::Act(act)),
        // The command line has the commands of its rows alone.
        Err(_) => Err(options.wrong(MACHINES)),
    }
}

// What is done to a machine.
fn machine_command(name: &str, options: &Options<'_>) -> Result<MachineCommand, Wrong> {
    match name {
        "commission" => Ok(MachineCommand::Commission {
            tests: options.is_given(TESTS),
        }),
        "deploy" => Ok(MachineCommand::Deploy {
            image: options.parse(IMAGE)?,
        }),
        "release" => Ok(MachineCommand::Release {
            erase: options.value(ERASE, |text| erase_of(text))?,
        }),
        "set-pool" => Ok(MachineCommand::SetPool {
            pool: options.parse(POOL)?,
        }),
        "add-interface" => Ok(MachineCommand::AddInterface {
            mac: options.value(MAC, |text| mac_of(text))?,
        }),
        "remove-interface" => Ok(MachineCommand::RemoveInterface {
            mac: options.value(MAC, |text| mac_of(text))?,
        }),
        "delete" => Ok(MachineCommand::Delete),
        _ => act(name, options),
    }
}

// The machines of a command that is for one or for several.
fn machines(options: &Options<'_>) -> Result<Vec<Number>, Wrong> {
    let alloc = options.alloc();
    if options.is_given(MACHINES) {
        return machines_of(alloc, MACHINES, options.texts(MACHINES)?.as_slice());
    }
    Ok(Vec::from_array(alloc, [options.parse(MACHINE)?])?)
}

// The version that one machine must have.
fn version(options: &Options<'_>, machines: usize) -> Result<Option<Version>, Wrong> {
    match options.value_if(VERSION, |text| text.parse().ok())? {
        Some(_) if machines != 1 => Err(options.wrong(VERSION)),
        version => Ok(version),
    }
}

/// The command of this name for each machine that is named.
pub(crate) fn commands_on(name: &str, options: &Options<'_>) -> Result<Vec<HallCommand>, Wrong> {
    let command = machine_command(name, options)?;
    let machines = machines(options)?;
    let version = version(options, machines.len())?;
    let commands = machines.iter().map(|machine| HallCommand::OnMachine {
        machine: *machine,
        version,
        command,
    });
    Ok(commands.collect(options.alloc())?)
}
