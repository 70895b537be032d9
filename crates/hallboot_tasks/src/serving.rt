//! The service over an open store.
ghost use Rattle.std.specs.Prelude.{◌≡◌};
ghost use Rattle.hall_desk.specs.{Desk.{enlists_of, site_of, store_of}, Prelude.{Site}};
ghost use Rattle.serve_sockets.specs.{Service.{desk_of}, Turn.{KeepsDesk}};
ghost use Rattle.hallboot_tasks.specs.Served.{GoesOn};

use crate::backups::Backups;
use crate::lines::Lines;
use crate::notices::tell;
use crate::stamps::{Stamps, now};
use crate::sums::sum_of;
use crate::suspended::{Bound, Suspended};
use desk_lines::Backup;
use hall_desk::Desk;
use hall_report::Fault;
use hall_store::{GroupStore, HallStore};
use hallboot_files::{Joining, ServedFile};
use hallboot_words::{Serving, fault_of};
use pxe_vendor::{Place, PlaceFault};
use rand::rngs::SysRng;
use serve_sockets::{Service, Source};
use std::time::Instant;
use store_group::Group;

/// After how many turns it is asked whether it is time for a copy, or to look whether the hall's file is still there.
const LOOK: u64 = 8;

/// How long, in milliseconds, it is from one look at the hall's file to the next.
const LOOK_PAUSE: u128 = 100;

/// How a service ended.
#[derive(Clone, Copy, PartialEq, Eq)]
enum Ended {
    /// All turns were served.
    Served,
    /// A fault has shut the store.
    Shut,
    /// The file that is served isn't at its path any more.
    Gone,
}

/// A service, its file, and how many turns are to be served over its hall.
#[derive(Drop)]
struct Part<'a> {
    serving: &'a Serving,
    file: ServedFile,
    // When it was last looked whether the file is still there.
    looked_at: Instant,
    turns: u64,
}

impl<'a> Part<'a> {
    // Whether the file isn't there any more, which is looked at ten times a second at most.
    fn is_gone(&mut self, rt: &HostRuntime) -> bool {
        if let Ok(now) = Instant::now(rt) {
            if now.duration_since(self.looked_at).as_millis() < LOOK_PAUSE {
                return false;
            }
            self.looked_at = now;
        }
        self.file.is_gone(rt, self.serving.path.as_str())
    }
}

// Says what became of a copy: in the log, or at standard error where there is none and it failed.
fn tell_of_backup(rt: &HostRuntime, lines: &mut Lines, serving: &Serving, backup: &Backup) {
    if lines.is_kept() {
        if let Some(moment) = now(rt) {
            lines.backed_up(moment, backup);
        }
        return;
    }
    let path = serving.path.as_str();
    let words = match backup {
        Backup::Made { .. } => return,
        Backup::Failed => format!(in rt.alloc(); "the backup of {path} failed"),
        Backup::Refused => format!(in rt.alloc();
            "no backup of {path} is made: the copy there has later numbers, move it away"
        ),
    };
    tell(rt, serving.has_json_errors(), words);
}

// Serves a part's turns, and says how that ended and how many turns are left. The desk's hall goes on by what came meanwhile.
fn serve_part<S: GroupStore, C: Source, J: Joining>(
    rt: &HostRuntime,
    service: &mut Service<S>,
    stamps: &mut C,
    lines: &mut Lines,
    part: &mut Part<'_>,
    backups: &mut Backups<'_, J>,
) -> (Ended, u64)
    ensures kept { KeepsDesk S.HallStore (desk_of service.old) (desk_of service.new) }
    ensures goes { S.HallStore.is_clean (store_of (desk_of service.new))
        → GoesOn S.HallStore (store_of (desk_of service.old)) (store_of (desk_of service.new)) (site_of (desk_of service.old)) }
{
    let serving = part.serving;
    let path = serving.path.as_str();
    let mut left = part.turns;
    for _ in 0..part.turns.div_ceil(LOOK) {
        let turns = left.min(LOOK);
        left -= turns;
        if let Some(unserved) = service.serve_turns(stamps, lines, turns) {
            return (Ended::Shut, left + unserved);
        }
        if part.is_gone(rt) {
            return (Ended::Gone, left);
        }
        if let Some(backup) = backups.made(rt, path) {
            tell_of_backup(rt, lines, serving, &backup);
        }
    }
    (Ended::Served, left)
}

// The desk of a store's hall, which enlists unknown clients or none.
fn desk_over<S: HallStore>(store: S, place: Place, enlists: bool) -> Desk<S>
    ensures store { store_of result ≡ store }
    ensures site { site_of result ≡ place }
    ensures enlists { enlists_of result ≡ enlists }
{
    let desk = Desk::new(store, place);
    if enlists {
        desk
    } else {
        desk.without_enlisting()
    }
}

// Serves a part over a store, and says how that ended and how many turns are left. No group of changes is open when it begins, nor at its
// end: the store's hall goes on by what came meanwhile.
fn serve_over<S: HallStore, J: Joining>(
    rt: &HostRuntime,
    store: S,
    place: Place,
    bound: Bound,
    part: &mut Part<'_>,
    joining: &J,
) -> ((Ended, u64), S, Bound)
    ensures clean { S.HallStore.is_clean result.1 → S.HallStore.is_clean store }
    ensures goes { S.HallStore.is_clean result.1 → GoesOn S.HallStore store result.1 place }
{
    let (start, last) = (bound.start, bound.backed_up);
    let mut copies = Backups {
        plan: part.serving.backup.as_ref(),
        joining,
        last,
    };
    let store = Group::new(rt.alloc(), store);
    let desk = desk_over(store, place, part.serving.enlists);
    let mut service = Service::new(rt.alloc(), desk, bound.sockets);
    let mut stamps = Stamps::since(rt, start, SysRng::new(rt));
    let mut lines = Lines::new(rt.alloc(), bound.log, part.serving.logs_connections);
    let ended = serve_part(rt, &mut service, &mut stamps, &mut lines, part, &mut copies);
    let (desk, sockets) = service.into_parts();
    let bound = Bound {
        sockets,
        log: lines.into_outlet(),
        start,
        backed_up: copies.last,
    };
    (ended, desk.into_store().into_inner(), bound)
}

// The host by which scripts name a desk: where it listens, if it is served on loopback.
fn host_of(rt: &HostRuntime, serving: &Serving, bound: &Bound) -> Result<String, Fault> {
    if !serving.is_loopback {
        return Ok(String::from_str(rt.alloc(), serving.place.host())?);
    }
    let http = bound
        .sockets
        .http_address()
        .map_err(|error| fault_of(&error))?;
    Ok(format!(in rt.alloc(); "{http}")?)
}

// A place of its own for a desk.
fn place_of(rt: &HostRuntime, serving: &Serving, bound: &Bound) -> Result<Place, Fault> {
    let (alloc, place) = (rt.alloc(), &serving.place);
    let host = host_of(rt, serving, bound)?;
    let copy = Place::new(alloc, place.server(), place.next(), host.as_str());
    copy.map_err(|fault| match fault {
        PlaceFault::BadHost => Fault::BadInput,
        PlaceFault::Memory => Fault::Memory,
    })
}

// Says how many lines of the log are missing at its end.
fn tell_of_lost(rt: &HostRuntime, is_json: bool, bound: &Bound) {
    let lost = bound.log.as_ref().map_or(0, |log| log.lost());
    if lost > 0 {
        let words = format!(in rt.alloc(); "{lost} lines of the log were lost");
        tell(rt, is_json, words);
    }
}

/// Says that a hall's file or its log isn't at its path any more, or was cut.
pub(crate) fn tell_of_gone(rt: &HostRuntime, serving: &Serving) {
    let path = serving.path.as_str();
    let words = format!(in rt.alloc(); "{path} isn't the hall's file any more");
    tell(rt, serving.has_json_errors(), words);
}

// How a service ended, of which one is told that has to end before its time.
fn told(rt: &HostRuntime, serving: &Serving, ended: Ended, bound: &Bound) -> Result<(), Fault> {
    let is_json = serving.has_json_errors();
    match ended {
        Ended::Served => tell_of_lost(rt, is_json, bound),
        Ended::Shut => {
            let path = serving.path.as_str();
            let words = format!(in rt.alloc(); "a fault has shut {path}, which is opened again");
            tell(rt, is_json, words);
        }
        Ended::Gone => {
            tell_of_lost(rt, is_json, bound);
            tell_of_gone(rt, serving);
            return Err(Fault::Unavailable);
        }
    }
    Ok(())
}

// What is served, over which desk, and what the service holds.
fn prepared(
    rt: &HostRuntime,
    serving: &Serving,
    suspended: &mut Suspended,
) -> Result<(ServedFile, Place, Bound), Fault> {
    let file = ServedFile::at(rt, serving.path.as_str()).map_err(|_| Fault::Unavailable)?;
    if suspended.served_another(&file) {
        tell_of_gone(rt, serving);
        return Err(Fault::Unavailable);
    }
    let bound = suspended.take(rt, serving)?;
    let place = place_of(rt, serving, &bound)?;
    Ok((file, place, bound))
}

/// Serves the turns that are left over a store, or until a fault shuts it, or its file goes. The store's hall goes on by what came meanwhile.
pub(crate) fn serve<S: HallStore, J: Joining>(
    rt: &HostRuntime,
    mut store: S,
    serving: &Serving,
    suspended: &mut Suspended,
    joining: &J,
) -> (Result<(), Fault>, S)
    ensures { S.HallStore.is_clean result.1 → S.HallStore.is_clean store × ((site : Site) × GoesOn S.HallStore store result.1 site) }
{
    let (file, place, mut bound) = match prepared(rt, serving, suspended) {
        Ok(prepared) => prepared,
        Err(fault) => return (Err(fault), store),
    };
    if let Ok(sum) = sum_of(&mut store)
        && suspended.is_behind(&sum)
    {
        bound.backed_up.is_behind = true;
    }
    let mut part = Part {
        serving,
        file,
        looked_at: bound.start,
        turns: suspended.left(),
    };
    let ((ended, left), store, bound) = serve_over(rt, store, place, bound, &mut part, joining);
    let outcome = told(rt, serving, ended, &bound);
    suspended.keep(bound, part.file, left, ended == Ended::Shut);
    (outcome, store)
}
