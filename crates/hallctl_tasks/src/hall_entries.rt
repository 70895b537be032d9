//! The file of halls.
use crate::desk::Desk;
use crate::desk_fault::DeskFault;
use crate::end::{EarlyEnd, Step, TaskFault};
use crate::finding::Finding;
use crate::surroundings::Surroundings;
use hall_types::Name;
use halls_file::{FileFault, HallEntry, HallsFault, parse};
use std::alloc::{AllocError, Global};

// The halls that a file's octets name.
fn entries_in(alloc: Global, octets: &[u8]) -> Result<Vec<HallEntry>, HallsFault> {
    match std::str::from_utf8(octets) {
        Ok(text) => parse(alloc, text),
        Err(_) => Err(HallsFault::Toml),
    }
}

fn names_of(alloc: Global, entries: &[HallEntry]) -> Result<String, AllocError> {
    let mut names = String::new(alloc);
    for entry in entries {
        if !names.is_empty() {
            names.push_str(", ")?;
        }
        names.push_str(entry.name.text())?;
    }
    Ok(names)
}

impl<S: Surroundings> Finding<'_, S> {
    /// The path of the file of halls.
    pub(crate) fn halls_path(&mut self) -> Step<String> {
        if let Some(path) = self.line.halls {
            return Ok(String::from_str(self.alloc, path)?);
        }
        if let Some(path) = self.variable("HALLS")? {
            return Ok(path);
        }
        match self.variable("HOME")? {
            Some(home) => Ok(format!(in self.alloc; "{home}/.config/hall/halls.toml")?),
            None => self.end_by(DeskFault::NoHome),
        }
    }

    /// The halls that a file names, in the order of their names.
    pub(crate) fn entries(&mut self, path: &str) -> Step<Vec<HallEntry>> {
        let octets = match self.surroundings.octets_of(self.alloc, path) {
            Ok(octets) => octets,
            Err(FileFault::Memory) => return Err(EarlyEnd::Fault(TaskFault::Memory)),
            Err(fault) => return self.end_by_file(path, fault),
        };
        match entries_in(self.alloc, octets.as_slice()) {
            Ok(entries) => Ok(entries),
            Err(HallsFault::Memory) => Err(EarlyEnd::Fault(TaskFault::Memory)),
            Err(fault) => self.end_by_file(path, fault),
        }
    }

    // The desk of the hall with a name among those of a file.
    fn desk_among(&mut self, path: &str, entries: &[HallEntry], hall: Name) -> Step<Desk> {
        let Some(entry) = entries.iter().find(|entry| entry.name == hall) else {
            let names = names_of(self.alloc, entries)?;
            return self.end_by_file(path, format_args!("it names no hall {hall}, but {names}"));
        };
        match self.desk_of_entry(path, entry) {
            Ok(desk) => Ok(desk),
            Err(DeskFault::Memory) => Err(EarlyEnd::Fault(TaskFault::Memory)),
            Err(fault) => self.end_by_file(path, format_args!("hall {hall}: {fault}")),
        }
    }

    /// The desk of a hall, with the operator's token.
    pub(crate) fn desk_of_hall(&mut self, hall: Name) -> Step<Desk> {
        let path = self.halls_path()?;
        let entries = self.entries(path.as_str())?;
        self.desk_among(path.as_str(), entries.as_slice(), hall)
    }
}
