//! `import`: the machines of a file are added.
use crate::common::{AT, DB, WITH_PLACE, owned, place};
use crate::failure::{Failure, first_line, octets_of};
use crate::job::{ImportTask, Task};
use command_rows::{CommandRow, OptionRow, Options, Shape, Wrong};
use hall_http::is_bearer_token;
use hall_types::{Digest, Moment};
use pxe_vendor::Place;
use sha2::{Digest as _, Sha256};

const TOKEN: &OptionRow = &OptionRow {
    name: "token",
    value: "TOKEN",
    help: "The bearer token of an administrator",
    must: TOKEN_FORM,
    shape: Shape::Unless("token-file"),
    is_secret: true,
};

pub(crate) const TOKEN_FILE: &OptionRow = &OptionRow {
    name: "token-file",
    value: "FILE",
    help: "A file whose first line is that token, in place of --token",
    must: TOKEN_FORM,
    ..OptionRow::MAYBE
};

const TOKEN_FORM: &str = "a token has 1 to 128 visible characters of ASCII";

pub(crate) const FILE: &OptionRow = &OptionRow {
    name: "file",
    value: "FILE",
    help: "The file of machines",
    ..OptionRow::PLACE
};

pub(crate) const IMPORT_ROW: CommandRow = CommandRow {
    name: "import",
    about: "Adds the machines of a file of comma-separated values",
    example: "Example: hallboot import --db hall.db --token-file token --at 1790000000 machines.csv\n\nThe file begins with key,mac,arch,uuid,pool. Exit status 1 without a message: a row was refused.",
    options: &[DB, TOKEN, TOKEN_FILE, AT, FILE],
    common: &WITH_PLACE,
};

/// Who imports: the digest of the bearer token, or the file that has the token.
#[derive(Drop)]
pub enum Bearer {
    Digest(Digest),
    File(String),
}

/// An import, before the files that it names are read.
#[derive(Drop)]
pub struct Import {
    file: String,
    bearer: Bearer,
    moment: Moment,
    place: Place,
}

pub(crate) fn digest_of(token: &str) -> Option<Digest> {
    if is_bearer_token(token.as_bytes()) {
        Some(Digest::from(Sha256::digest(token.as_bytes())))
    } else {
        None
    }
}

impl Bearer {
    fn read(options: &Options<'_>) -> Result<Bearer, Wrong> {
        if !options.is_given(TOKEN_FILE) {
            return Ok(Bearer::Digest(options.value(TOKEN, |text| digest_of(text))?));
        }
        if options.is_given(TOKEN) {
            let must = "one of --token and --token-file is given, not both";
            return Err(options.wrong_because(TOKEN, must));
        }
        Ok(Bearer::File(owned(options, TOKEN_FILE)?))
    }

    fn digest(&self, rt: &HostRuntime) -> Result<Digest, Failure> {
        match self {
            Bearer::Digest(digest) => Ok(*digest),
            Bearer::File(path) => {
                let digest = digest_of(first_line(rt, path.as_str())?.as_str());
                digest.ok_or_else(|| Failure::from(Wrong::of(rt.alloc(), TOKEN_FILE, None)))
            }
        }
    }
}

impl Import {
    pub(crate) fn read(options: &Options<'_>) -> Result<Import, Wrong> {
        Ok(Import {
            moment: options.parse(AT)?,
            place: place(options)?,
            bearer: Bearer::read(options)?,
            file: owned(options, FILE)?,
        })
    }

    /// The import of what the files have now.
    pub fn task(self, rt: &HostRuntime) -> Result<Task, Failure> {
        let bearer = self.bearer.digest(rt)?;
        let octets = octets_of(rt, self.file.as_str())?;
        Ok(Task::Import(ImportTask {
            place: self.place,
            octets,
            bearer,
            moment: self.moment,
        }))
    }
}
