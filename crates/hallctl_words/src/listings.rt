//! Commands that list what the desk has: `machines`, `machine`, `orders`; `order` and `hello`.
use crate::asked::{Form, Listing, MachineList, Which, Wish};
use crate::names::{column_in, status_in};
use crate::options::{COMMAND, JSON, NAME};
use crate::values::mac_of;
use command_rows::{CommandRow, OptionRow, Options, Wrong};
use hall_types::{Outcome, Status};
use hallctl_texts::{Choice, Column, Filter};

/// The commands, in the order of the help.
pub(crate) static ROWS: [CommandRow; 5] = [
    CommandRow {
        name: "machines",
        about: "Lists the machines",
        example: "Example: hallctl machines --status Ready --columns id,addresses,deadline",
        options: &[
            WITH_STATUS,
            IN_POOL,
            OWNER,
            SEARCH,
            SORT,
            COLUMNS,
            IDS,
            WATCH,
        ],
        ..COMMAND
    },
    CommandRow {
        name: "machine",
        about: "Shows one machine",
        example: "Example: hallctl machine 52:54:00:12:34:56",
        options: &[WHICH],
        ..COMMAND
    },
    CommandRow {
        name: "orders",
        about: "Lists the power orders that wait",
        example: "Example: hallctl orders",
        ..COMMAND
    },
    CommandRow {
        name: "order",
        about: "Says what a power order has come to, with a token of role power",
        example: "Example: hallctl order 5 --done",
        options: &[ORDER, ORDER_DONE, ORDER_FAILED],
        ..COMMAND
    },
    CommandRow {
        name: "hello",
        about: "Says whether the desk is there, and which role your token has",
        example: "Example: hallctl hello",
        ..COMMAND
    },
];

const WITH_STATUS: &OptionRow = &OptionRow {
    name: "status",
    value: "STATUS",
    help: "Machines with this status alone, as Ready; a wrong one lists all",
    ..OptionRow::MAYBE
};

const IN_POOL: &OptionRow = &OptionRow {
    name: "pool",
    value: "POOL",
    help: "Machines of this pool alone",
    must: NAME,
    ..OptionRow::MAYBE
};

const OWNER: &OptionRow = &OptionRow {
    name: "owner",
    value: "OPERATOR",
    help: "Machines of this owner alone",
    must: NAME,
    ..OptionRow::MAYBE
};

const SEARCH: &OptionRow = &OptionRow {
    name: "search",
    value: "TEXT",
    help: "Machines alone of which a column has this text",
    ..OptionRow::MAYBE
};

const SORT: &OptionRow = &OptionRow {
    name: "sort",
    value: "COLUMN",
    help: "In the order of this column",
    ..OptionRow::MAYBE
};

const COLUMNS: &OptionRow = &OptionRow {
    name: "columns",
    value: "COLUMNS",
    help: "The columns of the table, as id,status,deadline; a wrong one lists all",
    ..OptionRow::MAYBE
};

const WATCH: &OptionRow = &OptionRow {
    name: "watch",
    help: "Prints the list again every two seconds",
    ..OptionRow::FLAG
};

const IDS: &OptionRow = &OptionRow {
    name: "ids",
    help: "Prints the machines' numbers, one a line",
    must: "not beside --json",
    ..OptionRow::FLAG
};

const WHICH: &OptionRow = &OptionRow {
    name: "machine",
    value: "MACHINE",
    help: "The machine's number, or a hardware address of it",
    must: "a machine's number, or a hardware address as in 52:54:00:12:34:56",
    ..OptionRow::PLACE
};

const ORDER: &OptionRow = &OptionRow {
    name: "order",
    value: "ORDER",
    help: "The order's number",
    must: "an order's number, without leading zeros",
    ..OptionRow::PLACE
};

const ORDER_DONE: &OptionRow = &OptionRow {
    name: "done",
    help: "It was carried out, and the machine is as the order says",
    must: "one of --done and --failed is given",
    ..OptionRow::FLAG
};

const ORDER_FAILED: &OptionRow = &OptionRow {
    name: "failed",
    help: "It couldn't be carried out",
    ..OptionRow::FLAG
};

/// What an order has come to.
pub(crate) fn order<'a>(options: &Options<'a>) -> Result<Wish<'a>, Wrong> {
    let outcome = match (options.is_given(ORDER_DONE), options.is_given(ORDER_FAILED)) {
        (true, false) => Outcome::Done,
        (false, true) => Outcome::Failed,
        _ => return Err(options.wrong(ORDER_DONE)),
    };
    let order = options.parse(ORDER)?;
    Ok(Wish::Answer { order, outcome })
}

fn form(options: &Options<'_>) -> Result<Form, Wrong> {
    match (options.is_given(IDS), options.is_given(JSON)) {
        (true, true) => Err(options.wrong(IDS)),
        (true, false) => Ok(Form::Ids),
        (false, true) => Ok(Form::Json),
        (false, false) => Ok(Form::Table),
    }
}

// The columns of a table, those that a list usually has where none are named.
fn columns(options: &Options<'_>, form: Form) -> Result<Vec<Column>, Wrong> {
    let Some(names) = options.text(COLUMNS) else {
        return Ok(Vec::from_slice(options.alloc(), Column::USUAL.as_slice())?);
    };
    if form != Form::Table {
        return Err(options.wrong_because(COLUMNS, "not beside --ids or --json"));
    }
    let mut columns = Vec::new(options.alloc());
    for name in names.split(',') {
        columns.push(column_in(options.alloc(), COLUMNS, names, name)?)?;
    }
    Ok(columns)
}

// The status of the machines of a list, if one is given.
fn status(options: &Options<'_>) -> Result<Option<Status>, Wrong> {
    match options.text(WITH_STATUS) {
        Some(text) => Ok(Some(status_in(options.alloc(), WITH_STATUS, text)?)),
        None => Ok(None),
    }
}

// The column by which the machines of a list are sorted, if one is given.
fn sort(options: &Options<'_>) -> Result<Option<Column>, Wrong> {
    match options.text(SORT) {
        Some(name) => Ok(Some(column_in(options.alloc(), SORT, name, name)?)),
        None => Ok(None),
    }
}

/// What `machines` lists, and how.
pub(crate) fn machines<'a>(options: &Options<'a>) -> Result<Listing<'a>, Wrong> {
    let form = form(options)?;
    let choice = Choice {
        filter: Filter {
            status: status(options)?,
            pool: options.value_if(IN_POOL, |text| text.parse().ok())?,
            owner: options.value_if(OWNER, |text| text.parse().ok())?,
        },
        search: options.text(SEARCH),
        sort: sort(options)?,
    };
    Ok(Listing::Machines(MachineList {
        choice,
        form,
        columns: columns(options, form)?,
        is_watched: options.is_given(WATCH),
    }))
}

// The machine with this number, or with this hardware address.
fn which_of(text: &str) -> Option<Which> {
    match mac_of(text) {
        Some(address) => Some(Which::Address(address)),
        None => Some(Which::Number(text.parse().ok()?)),
    }
}

/// The machine that `machine` shows.
pub(crate) fn machine<'a>(options: &Options<'a>) -> Result<Listing<'a>, Wrong> {
    let which = options.value(WHICH, |text| which_of(text))?;
    Ok(Listing::Machine(which))
}
