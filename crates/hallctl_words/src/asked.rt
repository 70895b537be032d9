//! What a command line of hallctl asks for.
use hall_events::HallCommand;
use hall_types::{MacAddress, Name, Number, Outcome, RequestKey, Role, Status};
use hallctl_texts::{Choice, Column};

/// What a command line says. Its texts are words of the command line.
#[derive(Drop)]
pub struct Line<'a> {
    /// The desk's address, as in `http://desk.hall.example`.
    pub desk: Option<&'a str>,
    /// The file whose first line is the operator's bearer token.
    pub token_file: Option<&'a str>,
    /// The hall of the file of halls whose desk it is. It isn't given beside a desk.
    pub hall: Option<Name>,
    /// The file of halls.
    pub halls: Option<&'a str>,
    /// How long a desk is tried without an answer, in seconds; of a wait, how long it waits.
    pub timeout: u64,
    /// The request key of the one command, which is sent again.
    pub key: Option<RequestKey>,
    /// The file to which the key of each command is added.
    pub keys: Option<&'a str>,
    /// For how many seconds it is waited, after commands on machines, until these have got where the commands lead.
    pub wait: Option<u64>,
    /// Whether a dangerous command is sent without a question.
    pub yes: bool,
    /// Whether it is only said what would be sent.
    pub dry_run: bool,
    /// Whether the desk's JSON is printed.
    pub json: bool,
    pub wish: Wish<'a>,
}

/// What is asked for.
#[derive(Drop)]
pub enum Wish<'a> {
    /// What the desk lists is printed.
    List(Listing<'a>),
    /// What an order has come to is said to the desk.
    Answer { order: Number, outcome: Outcome },
    /// Whether the desk is there, and which role the token has.
    Hello,
    /// What the desk of each hall of the file of halls says of its machines.
    Halls,
    /// The commands, which are sent one after another: one, or one for each machine.
    Change(Vec<HallCommand>),
    /// An operator with a token that is made.
    NewOperator(NewOperator<'a>),
    /// That machines get a status, for at most the seconds of the line's time.
    Wait(Waited),
    /// The machines of this file of comma-separated values.
    Import(&'a str),
    /// The completion for bash.
    Completion,
}

/// What is waited for.
#[derive(Drop)]
pub struct Waited {
    pub machines: Vec<Which>,
    /// Of these statuses each machine is to have one.
    pub statuses: Vec<Status>,
    /// Whether a machine that has failed or is broken is waited for all the same.
    pub despite_failures: bool,
}

/// What is listed, and how.
#[derive(Drop)]
pub enum Listing<'a> {
    /// Machines.
    Machines(MachineList<'a>),
    /// One machine, a line for each of its members.
    Machine(Which),
    /// The power orders that wait.
    Orders,
}

/// Which machines are listed, and how.
#[derive(Drop)]
pub struct MachineList<'a> {
    pub choice: Choice<'a>,
    pub form: Form,
    /// The columns of a table.
    pub columns: Vec<Column>,
    /// Whether the list is printed again and again.
    pub is_watched: bool,
}

/// An operator that is to be added, and the file for its token.
#[derive(Clone, Copy)]
pub struct NewOperator<'a> {
    pub operator: Name,
    pub role: Role,
    pub file: &'a str,
}

/// How a list of machines is printed.
#[derive(Clone, Copy, PartialEq, Eq)]
pub enum Form {
    /// A table with a heading.
    Table,
    /// An object of JSON, as the desk's.
    Json,
    /// The machines' numbers, one a line.
    Ids,
}

/// A machine, by its number or by a hardware address of it.
#[derive(Clone, Copy)]
pub enum Which {
    Number(Number),
    Address(MacAddress),
}
