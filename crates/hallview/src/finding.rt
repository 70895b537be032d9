//! Which halls are shown, where their desks are, and the tokens in whose name these are asked.
use crate::asked::{Halls, Line};
use crate::clocks::seconds_since_1970;
use crate::end::End;
use crate::fault::ServeFault;
use crate::server::Viewing;
use crate::tokens::token_at;
use crate::watch::Watch;
use hall_types::Name;
use hallctl_requests::{AddressFault, DeskAddress};
use halls_file::{HallEntry, HallsFault, beside, file_octets, parse};
use hallview_state::{Hall, State};
use std::alloc::{AllocError, Global};
use thiserror::Error;

/// Why halls can't be shown.
#[derive(Clone, Copy, Debug, Error)]
pub(crate) enum FindFault {
    #[error("it can't be read")]
    UnreadFile,
    #[error("{0}")]
    BadFile(HallsFault),
    #[error("{0}")]
    BadDesk(AddressFault),
    #[error("the token's file can't be read")]
    UnreadToken,
    #[error("the first line of the token's file isn't a token: 1 to 128 visible characters of ASCII")]
    BadToken,
    #[error("memory ran out")]
    Memory,
}

impl From<AllocError> for FindFault {
    fn from(_refused: AllocError) -> FindFault {
        FindFault::Memory
    }
}

// Says of what a fault is.
fn said(alloc: Global, about: &str, fault: FindFault) -> End {
    match format!(in alloc; "{about}: {fault}") {
        Ok(words) => End::Halls(words),
        Err(refused) => End::from(refused),
    }
}

// Says of what a fault of a hall is. One of its token names the token's file.
fn said_of_hall(alloc: Global, about: &str, token_file: &str, fault: FindFault) -> End {
    match fault {
        FindFault::UnreadToken | FindFault::BadToken => {
            match format!(in alloc; "{about}: {token_file}") {
                Ok(about) => said(alloc, about.as_str(), fault),
                Err(refused) => End::from(refused),
            }
        }
        _ => said(alloc, about, fault),
    }
}

fn push<T: Drop>(list: &mut Vec<T>, item: T) -> Result<(), AllocError> {
    list.push(item)?;
    Ok(())
}

// What it needs to watch the hall of a desk, by its URL and the file of a token.
fn watch(rt: &HostRuntime, url: &str, token_file: &str) -> Result<Watch, FindFault> {
    let address = DeskAddress::new(rt.alloc(), url).map_err(FindFault::BadDesk)?;
    let token = token_at(rt, token_file)?;
    Ok(Watch::new(rt.alloc(), address, &token)?)
}

// Adds a hall, and what watches it.
fn add_hall(
    rt: &HostRuntime,
    viewing: &mut Viewing,
    name: Name,
    url: &str,
    token_file: &str,
) -> Result<(), FindFault> {
    let watch = watch(rt, url, token_file)?;
    let hall = Hall::new(rt.alloc(), name, url, viewing.every)?;
    push(&mut viewing.watches, watch)?;
    push(&mut viewing.state.halls, hall)?;
    Ok(())
}

// The name of a hall that is the only one.
#[tactic(auto, unfolding(hall_types::specs::Name::is_name))]
fn only_name() -> Name {
    match Name::new("hall") {
        Ok(name) => name,
        Err(_) => unreachable!(),
    }
}

// Adds the only hall.
fn add_only(
    rt: &HostRuntime,
    viewing: &mut Viewing,
    url: &str,
    token_file: &str,
) -> Result<(), End> {
    match add_hall(rt, viewing, only_name(), url, token_file) {
        Ok(()) => Ok(()),
        Err(fault) => Err(said_of_hall(rt.alloc(), url, token_file, fault)),
    }
}

// The halls that a file names.
fn entries(rt: &HostRuntime, path: &str) -> Result<Vec<HallEntry>, FindFault> {
    let Ok(octets) = file_octets(rt, path) else {
        return Err(FindFault::UnreadFile);
    };
    let Ok(text) = std::str::from_utf8(octets.as_slice()) else {
        return Err(FindFault::BadFile(HallsFault::Toml));
    };
    match parse(rt.alloc(), text) {
        Ok(entries) => Ok(entries),
        Err(fault) => Err(FindFault::BadFile(fault)),
    }
}

// Adds a hall that a file names.
fn add_entry(
    rt: &HostRuntime,
    viewing: &mut Viewing,
    path: &str,
    entry: &HallEntry,
) -> Result<(), End> {
    let alloc = rt.alloc();
    let token_file = beside(alloc, path, entry.token_file.as_str())?;
    let url = entry.desk.as_str();
    match add_hall(rt, viewing, entry.name, url, token_file.as_str()) {
        Ok(()) => Ok(()),
        Err(fault) => {
            let name = entry.name.text();
            let about = format!(in alloc; "{path}: hall {name}")?;
            Err(said_of_hall(alloc, about.as_str(), token_file.as_str(), fault))
        }
    }
}

// Adds the halls of a file.
fn add_all(rt: &HostRuntime, viewing: &mut Viewing, path: &str) -> Result<(), End> {
    match entries(rt, path) {
        Ok(entries) => {
            for entry in &entries {
                add_entry(rt, viewing, path, entry)?;
            }
            Ok(())
        }
        Err(fault) => Err(said(rt.alloc(), path, fault)),
    }
}

// The hosts that a request may name.
fn names(alloc: Global, line: &Line<'_>) -> Result<Vec<String>, AllocError> {
    let mut names = Vec::new(alloc);
    for name in &line.names {
        push(&mut names, String::from_str(alloc, name)?)?;
    }
    Ok(names)
}

/// What a line asks to show.
pub(crate) fn viewing(rt: &HostRuntime, line: &Line<'_>) -> Result<Viewing, End> {
    let alloc = rt.alloc();
    let Some(began) = seconds_since_1970(rt) else {
        return Err(End::Serve(ServeFault::Clock));
    };
    let is_named = matches!(line.halls, Halls::File(_));
    let mut viewing = Viewing {
        state: State::new(alloc, began, is_named),
        watches: Vec::new(alloc),
        names: names(alloc, line)?,
        every: line.every,
    };
    match line.halls {
        Halls::One { desk, token_file } => add_only(rt, &mut viewing, desk, token_file)?,
        Halls::File(path) => add_all(rt, &mut viewing, path)?,
    }
    Ok(viewing)
}
