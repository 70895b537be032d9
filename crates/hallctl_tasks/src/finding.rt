//! Where the desk is, and the operator's token.
ghost use Rattle.std.specs.Prelude.{◌≡◌, IsTrue, Ok, Err, false};

use crate::desk::Desk;
use crate::desk_fault::DeskFault;
use crate::end::{EarlyEnd, Step, TaskEnd, TaskFault};
use crate::output::report;
use crate::surroundings::Surroundings;
use hall_types::Name;
use hallctl_requests::{BearerToken, DeskAddress, token_of};
use hallctl_words::Line;
use halls_file::{HallEntry, beside};
use std::alloc::{AllocError, Global};
use std::fmt::Display;

// The milliseconds of a second.
const SECOND: u64 = 1_000;

/// What names the desk that is asked.
#[derive(Clone, Copy, PartialEq, Eq)]
enum Source {
    /// Its address.
    Address,
    /// A hall of the file of halls.
    Hall,
}

/// Whether an address is given, and whether a hall is.
#[derive(Clone, Copy)]
struct Given {
    address: bool,
    hall: bool,
}

// What the line says counts before the environment, of which both is too much.
fn source_of(line: Given, environment: Given) -> Result<Source, DeskFault>
    ensures address { IsTrue line.address → result ≡ Ok Source.Address }
    ensures hall { line.address ≡ false → IsTrue line.hall → result ≡ Ok Source.Hall }
    ensures twice { line.address ≡ false → line.hall ≡ false → IsTrue environment.address → IsTrue environment.hall → result ≡ Err DeskFault.TwoDesks }
{
    if line.address {
        return Ok(Source::Address);
    }
    if line.hall {
        return Ok(Source::Hall);
    }
    match (environment.address, environment.hall) {
        (true, true) => Err(DeskFault::TwoDesks),
        (false, true) => Ok(Source::Hall),
        (_, false) => Ok(Source::Address),
    }
}

/// A command line whose desk isn't known yet, and what is about it.
#[derive(Drop)]
pub(crate) struct Finding<'a, S> {
    pub(crate) alloc: Global,
    pub(crate) surroundings: &'a mut S,
    pub(crate) line: &'a Line<'a>,
}

impl<S: Surroundings> Finding<'_, S> {
    // Reports why nothing is asked.
    fn end<T>(&mut self, cause: impl Display + Drop) -> Step<T> {
        report(self.alloc, self.surroundings, cause)?;
        Err(EarlyEnd::Reported(TaskEnd::Misused))
    }

    pub(crate) fn end_by<T>(&mut self, fault: DeskFault) -> Step<T> {
        match fault {
            DeskFault::Memory => Err(EarlyEnd::Fault(TaskFault::Memory)),
            _ => self.end(fault),
        }
    }

    /// A file isn't what it must be, for this reason.
    pub(crate) fn end_by_file<T>(&mut self, path: &str, cause: impl Display + Drop) -> Step<T> {
        self.end(format_args!("{path}: {cause}"))
    }

    /// A variable of the environment, unless it is empty.
    pub(crate) fn variable(&mut self, name: &str) -> Result<Option<String>, AllocError> {
        match self.surroundings.variable(self.alloc, name)? {
            Some(value) if !value.is_empty() => Ok(Some(value)),
            _ => Ok(None),
        }
    }

    // What an option says, or else the environment.
    fn said(
        &mut self,
        option: Option<&str>,
        variable: &str,
        missing: DeskFault,
    ) -> Result<String, DeskFault> {
        let said = match option {
            Some(text) => Some(String::from_str(self.alloc, text)?),
            None => self.surroundings.variable(self.alloc, variable)?,
        };
        said.ok_or(missing)
    }

    fn token_at(&mut self, path: &str) -> Result<BearerToken, DeskFault> {
        if self.surroundings.is_open_to_others(path) {
            let text = format_args!(
                "others can read the token in {path}: chmod o= {path}, and g= unless it is root's"
            );
            report(self.alloc, self.surroundings, text)?;
        }
        // A file's name that is standard input's elsewhere.
        let path = if path == "-" { "./-" } else { path };
        match self.surroundings.octets_of(self.alloc, path) {
            Ok(octets) => Ok(token_of(self.alloc, octets.as_slice())?),
            Err(_) => Err(DeskFault::UnreadToken),
        }
    }

    fn desk_at(&mut self, address: DeskAddress, token_file: &str) -> Result<Desk, DeskFault> {
        let token = self.token_at(token_file)?;
        Ok(Desk {
            address,
            token,
            milliseconds: self.line.timeout.saturating_mul(SECOND),
        })
    }

    fn desk_by_address(&mut self) -> Result<Desk, DeskFault> {
        let line = self.line;
        let address = self.said(line.desk, "HALL_DESK", DeskFault::NoDesk)?;
        let address = DeskAddress::new(self.alloc, address.as_str())?;
        let missing = DeskFault::NoTokenFile;
        let path = self.said(line.token_file, "HALL_TOKEN_FILE", missing)?;
        self.desk_at(address, path.as_str())
    }

    /// The desk of a hall that a file names. A token's file that the line names counts before the hall's.
    pub(crate) fn desk_of_entry(
        &mut self,
        file: &str,
        entry: &HallEntry,
    ) -> Result<Desk, DeskFault> {
        let address = DeskAddress::new(self.alloc, entry.desk.as_str())?;
        if let Some(path) = self.line.token_file {
            return self.desk_at(address, path);
        }
        let path = beside(self.alloc, file, entry.token_file.as_str())?;
        self.desk_at(address, path.as_str())
    }

    // The hall whose desk is asked, if one is named.
    fn hall(&mut self) -> Step<Option<Name>> {
        let own = self.variable("HALL")?;
        let environment = Given {
            address: self.variable("HALL_DESK")?.is_some(),
            hall: own.is_some(),
        };
        let line = Given {
            address: self.line.desk.is_some(),
            hall: self.line.hall.is_some(),
        };
        match (source_of(line, environment), self.line.hall, own) {
            (Err(fault), _, _) => self.end_by(fault),
            (Ok(Source::Address), _, _) | (Ok(Source::Hall), None, None) => Ok(None),
            (Ok(Source::Hall), Some(hall), _) => Ok(Some(hall)),
            (Ok(Source::Hall), None, Some(text)) => match Name::new(text.as_str()) {
                Ok(hall) => Ok(Some(hall)),
                Err(_) => self.end_by(DeskFault::BadHall),
            },
        }
    }

    /// The desk that the line or the environment names, with the operator's token.
    pub(crate) fn desk(&mut self) -> Step<Desk> {
        if let Some(hall) = self.hall()? {
            return self.desk_of_hall(hall);
        }
        match self.desk_by_address() {
            Ok(desk) => Ok(desk),
            Err(fault) => self.end_by(fault),
        }
    }
}
