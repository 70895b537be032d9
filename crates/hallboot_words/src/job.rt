//! What a command line asks for.
use crate::adopt::{Adopt, Running};
use crate::backup::{FROM, HallCopy, TO};
use crate::common::{DB, owned};
use crate::failure::Failure;
use crate::frame::Frame;
use crate::import::Import;
use crate::init::Init;
use crate::named_files::check_files;
use crate::report::WHAT;
use crate::request::Request;
use crate::serve::Serving;
use command_rows::{Options, Wrong};
use hall_report::What;
use hall_types::{Digest, Moment};
use pxe_vendor::Place;

/// What a command line asks for. Each text is a path.
#[derive(Drop)]
pub enum Job {
    /// The frame on standard input is answered.
    Frame(Frame),
    /// The file of a new hall is made.
    Init(Init),
    /// The file of a hall is carried over from the first schema to the second.
    Migrate(String),
    /// The hall in a file is copied to another file.
    Backup(HallCopy),
    /// The hall in a file is replaced by a copy.
    Restore(HallCopy),
    /// The hall in a file is served.
    Serve(Serving),
    /// The machines of a file are imported into the hall in another one.
    Import(String, Import),
    /// Running servers are adopted in the hall in a file.
    Adopt(String, Adopt),
    /// A task over the hall in a file.
    Over(String, Task),
}

/// What is done once over an open store, with what it needs besides.
#[derive(Drop)]
pub enum Task {
    /// The request on standard input is answered.
    Request(Request),
    /// A report is printed.
    Report(What),
    /// The export is printed.
    Export,
    /// The machines of a file's octets are imported.
    Import(ImportTask),
    /// Running servers are adopted.
    Adopt(AdoptTask),
}

/// The octets of a file of machines, who imports them, and when and where.
#[derive(Drop)]
pub struct ImportTask {
    pub place: Place,
    pub octets: Vec<u8>,
    pub bearer: Digest,
    pub moment: Moment,
}

/// Machines whose servers run, the digests of the tokens by which they are adopted, and when and where.
#[derive(Drop)]
pub struct AdoptTask {
    pub place: Place,
    pub running: Vec<Running>,
    pub owner: Digest,
    pub power: Digest,
    pub admin: Option<Digest>,
    pub moment: Moment,
}

// A task over the hall of `--db`.
fn over(options: &Options<'_>, task: Task) -> Result<Job, Wrong> {
    Ok(Job::Over(owned(options, DB)?, task))
}

fn job_of(options: &Options<'_>) -> Result<Job, Wrong> {
    Ok(match options.command() {
        Some("init") => Job::Init(Init::read(options)?),
        Some("migrate") => Job::Migrate(owned(options, DB)?),
        Some("request") => over(options, Task::Request(Request::read(options)?))?,
        Some("serve") => Job::Serve(Serving::read(options)?),
        Some("report") => over(options, Task::Report(options.parse(WHAT)?))?,
        Some("import") => Job::Import(owned(options, DB)?, Import::read(options)?),
        Some("adopt") => Job::Adopt(owned(options, DB)?, Adopt::read(options)?),
        Some("export") => over(options, Task::Export)?,
        Some("backup") => Job::Backup(HallCopy::read(options, TO)?),
        Some("restore") => Job::Restore(HallCopy::read(options, FROM)?),
        _ => Job::Frame(Frame::read(options)?),
    })
}

impl Job {
    /// What the options of a command line ask for; `frame` with its defaults where there is no command. No file is read.
    ///
    /// # Errors
    ///
    /// `BadInput` where an option isn't of its form, or two options name one file, or one that comes to stand beside another one's; and
    /// `Memory`.
    pub fn read(rt: &HostRuntime, options: &Options<'_>) -> Result<Job, Failure> {
        let job = job_of(options)?;
        check_files(rt, options)?;
        Ok(job)
    }
}
