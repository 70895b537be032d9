//! Commands on the hall: machines, operators, pools and images that are added, and what else is said of them.
use crate::asked::{NewOperator, Wish};
use crate::options::{ARCH, COMMAND, MAC, NAME, OPERATOR_NAME, POOL};
use crate::values::{mac_of, uuid_of};
use command_rows::{CommandRow, OptionRow, Options, Shape, Wrong};
use hall_events::HallCommand;
use hall_types::Image;
use ipxe_script::{Uri, Word, WordFault};
use std::alloc::Global;

pub(crate) const ADD_MACHINE: CommandRow = CommandRow {
    name: "add-machine",
    about: "Adds a machine",
    example: "Example: hallctl add-machine --mac 52:54:00:12:34:56 --arch uefi64 --pool lab",
    options: &[MAC, ARCH, POOL, UUID],
    ..COMMAND
};

/// The other commands on the hall, in the order of the help.
pub(crate) static ROWS: [CommandRow; 7] = [
    CommandRow {
        name: "add-operator",
        about: "Adds an operator",
        example: "Example: hallctl add-operator olga --role user --new-token olga.token",
        options: &[OPERATOR_NAME, ROLE, DIGEST, NEW_TOKEN],
        ..COMMAND
    },
    CommandRow {
        name: "disable-operator",
        about: "Refuses an operator's token from now on",
        example: "Example: hallctl disable-operator olga",
        options: &[OPERATOR_NAME],
        ..COMMAND
    },
    CommandRow {
        name: "add-pool",
        about: "Adds a pool",
        example: "Example: hallctl add-pool lab",
        options: &[POOL_NAME],
        ..COMMAND
    },
    CommandRow {
        name: "grant",
        about: "Makes an operator a member of a pool",
        example: "Example: hallctl grant lab olga",
        options: &[POOL_NAME, OPERATOR_NAME],
        ..COMMAND
    },
    CommandRow {
        name: "add-image",
        about: "Adds an image",
        example: "Example: hallctl add-image jammy --arch uefi64 --kernel http://files.example/k --initrd http://files.example/i --arg initrd=i",
        options: &[IMAGE_NAME, ARCH, KERNEL, INITRD, ARG],
        ..COMMAND
    },
    CommandRow {
        name: "delete-image",
        about: "Deletes an image",
        example: "Example: hallctl delete-image jammy",
        options: &[IMAGE_NAME],
        ..COMMAND
    },
    CommandRow {
        name: "set-live",
        about: "Makes an image the live image of its architecture",
        example: "Example: hallctl set-live live64",
        options: &[IMAGE_NAME],
        ..COMMAND
    },
];

const UUID: &OptionRow = &OptionRow {
    name: "uuid",
    value: "UUID",
    help: "The UUID of the machine's system, in wire order",
    must: "a UUID that is neither all zeros nor all ones",
    ..OptionRow::MAYBE
};

const ROLE: &OptionRow = &OptionRow {
    name: "role",
    value: "ROLE",
    help: "What the operator may do: admin, user or power",
    must: "admin, user or power",
    ..OptionRow::ALWAYS
};

const DIGEST: &OptionRow = &OptionRow {
    name: "digest",
    value: "HEX",
    help: "The SHA-256 of its token, 64 digits",
    must: "a digest has 64 hexadecimal digits; one of --digest and --new-token is given",
    ..OptionRow::MAYBE
};

const NEW_TOKEN: &OptionRow = &OptionRow {
    name: "new-token",
    value: "FILE",
    help: "Makes a token, and writes it to this new file once the operator is added",
    must: "one of --digest and --new-token is given",
    ..OptionRow::MAYBE
};

const POOL_NAME: &OptionRow = &OptionRow {
    name: "pool",
    value: "POOL",
    help: "The pool's name",
    must: NAME,
    ..OptionRow::PLACE
};

const IMAGE_NAME: &OptionRow = &OptionRow {
    name: "image",
    value: "IMAGE",
    help: "The image's name",
    must: NAME,
    ..OptionRow::PLACE
};

const BOOT_URI: &str =
    "a URI of 8 to 128 characters that begins http://, of letters, digits and -_./:=,+@%?;";

const KERNEL: &OptionRow = &OptionRow {
    name: "kernel",
    value: "URI",
    help: "The kernel's URI, http:// alone",
    must: BOOT_URI,
    ..OptionRow::ALWAYS
};

const INITRD: &OptionRow = &OptionRow {
    name: "initrd",
    value: "URI",
    help: "The initrd's URI, http:// alone",
    must: BOOT_URI,
    ..OptionRow::ALWAYS
};

const ARG: &OptionRow = &OptionRow {
    name: "arg",
    value: "WORD",
    help: "An argument of the kernel; it may be given 24 times",
    must: "an argument has 1 to 128 letters, digits and -_./:=,+@%?;, begins with none of :=,+@%?; nor with hall., and there are at most 24",
    shape: Shape::Often,
    ..OptionRow::MAYBE
};

fn uri(options: &Options<'_>, row: &OptionRow) -> Result<Uri, Wrong> {
    match Uri::new(options.alloc(), options.required(row)?) {
        Ok(uri) => Ok(uri),
        Err(WordFault::BadWord) => Err(options.wrong(row)),
        Err(WordFault::Memory) => Err(Wrong::Memory),
    }
}

// An argument of an image, which doesn't begin `hall.`.
fn argument(alloc: Global, text: &str) -> Result<Word, Wrong> {
    match Word::new(alloc, text) {
        Ok(word) if !word.is_hall_word() => Ok(word),
        Ok(_) | Err(WordFault::BadWord) => Err(Wrong::of(alloc, ARG, Some(text))),
        Err(WordFault::Memory) => Err(Wrong::Memory),
    }
}

fn image(options: &Options<'_>) -> Result<Image, Wrong> {
    let alloc = options.alloc();
    let name = options.parse(IMAGE_NAME)?;
    let arch = options.parse(ARCH)?;
    let kernel = uri(options, KERNEL)?;
    let initrd = uri(options, INITRD)?;
    let texts = options.texts(ARG)?;
    let args = texts.iter().map(|text| argument(alloc, text));
    let args: Vec<Word> = args.try_collect(alloc)?;
    Image::new(name, arch, kernel, initrd, args).map_err(|_| Wrong::of(alloc, ARG, None))
}

// An operator whose token is made and written to this file.
fn with_token<'a>(options: &Options<'a>, file: &'a str) -> Result<Wish<'a>, Wrong> {
    if options.is_given(DIGEST) {
        return Err(options.wrong(NEW_TOKEN));
    }
    Ok(Wish::NewOperator(NewOperator {
        operator: options.parse(OPERATOR_NAME)?,
        role: options.parse(ROLE)?,
        file,
    }))
}

// An operator whose token's digest is given.
fn with_digest<'a>(options: &Options<'a>) -> Result<Wish<'a>, Wrong> {
    let operator = options.parse(OPERATOR_NAME)?;
    let role = options.parse(ROLE)?;
    let Some(digest) = options.value_if(DIGEST, |text| text.parse().ok())? else {
        return Err(options.wrong(NEW_TOKEN));
    };
    let command = HallCommand::AddOperator {
        operator,
        role,
        digest,
    };
    Ok(Wish::Change(Vec::from_array(options.alloc(), [command])?))
}

/// The operator that is to be added.
pub(crate) fn add_operator<'a>(options: &Options<'a>) -> Result<Wish<'a>, Wrong> {
    match options.text(NEW_TOKEN) {
        Some(file) => with_token(options, file),
        None => with_digest(options),
    }
}

/// The command of this name, if it is one on the hall.
pub(crate) fn hall_command(
    name: &str,
    options: &Options<'_>,
) -> Result<Option<HallCommand>, Wrong> {
    Ok(Some(match name {
        "add-machine" => HallCommand::AddMachine {
            mac: options.value(MAC, |text| mac_of(text))?,
            arch: options.parse(ARCH)?,
            pool: options.parse(POOL)?,
            uuid: options.value_if(UUID, |text| uuid_of(text))?,
        },
        "disable-operator" => HallCommand::DisableOperator {
            operator: options.parse(OPERATOR_NAME)?,
        },
        "add-pool" => HallCommand::AddPool {
            pool: options.parse(POOL_NAME)?,
        },
        "grant" => HallCommand::Grant {
            pool: options.parse(POOL_NAME)?,
            operator: options.parse(OPERATOR_NAME)?,
        },
        "add-image" => HallCommand::AddImage {
            image: image(options)?,
        },
        "delete-image" => HallCommand::DeleteImage {
            image: options.parse(IMAGE_NAME)?,
        },
        "set-live" => HallCommand::SetLive {
            image: options.parse(IMAGE_NAME)?,
        },
        _ => return Ok(None),
    }))
}
