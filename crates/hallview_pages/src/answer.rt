//! What a request is answered.
ghost use Rattle.std.specs.Prelude.{ℕ, IfOk};
ghost use Rattle.hallview_pages.specs.Answers.{IsRight};
ghost use Rattle.hallview_state.specs.declared.state.State.{State};

use crate::halls_page::halls_page;
use crate::machine::{find, machine_page};
use hall_types::Number;
use hallview_state::{Hall, State, metrics, state_json};
use std::alloc::{AllocError, Global};

/// A request, as far as it decides its answer.
#[derive(Clone, Copy)]
pub struct Asked<'r> {
    pub method: &'r str,
    /// The path and the query, as they were sent.
    pub target: &'r str,
    /// The field Host (RFC 9110 section 7.2).
    pub host: Option<&'r str>,
    /// The field Accept (RFC 9110 section 12.5.1).
    pub accept: Option<&'r str>,
}

/// What an answer's body is.
#[derive(Clone, Copy, PartialEq, Eq)]
pub enum Kind {
    /// A page.
    Html,
    /// Metrics in Prometheus' text format 0.0.4.
    Prometheus,
    /// Metrics in OpenMetrics 1.0.
    OpenMetrics,
    Json,
    /// A line for people.
    Text,
}

/// What a request is answered: the status, and a body of this kind.
#[derive(Drop)]
pub struct Answer {
    pub status: u16,
    pub kind: Kind,
    pub body: Vec<u8>,
}

// A line for people.
fn line(alloc: Global, status: u16, text: &str) -> Result<Answer, AllocError>
    ensures { IfOk result (λ answer. (state : State) (now : ℕ) → IsRight state now answer) }
{
    Ok(Answer {
        status,
        kind: Kind::Text,
        body: Vec::from_slice(alloc, text.as_bytes())?,
    })
}

// The hall and the number of a machine's path, as `/machines/hall/7`.
fn machine_of<'s>(state: &'s State, path: &str) -> Option<(&'s Hall, Number)> {
    let (name, id) = path.strip_prefix("/machines/")?.split_once("/")?;
    let id = id.parse::<Number>().ok()?;
    for hall in state.halls.as_slice() {
        if hall.name.text() == name {
            return Some((hall, id));
        }
    }
    None
}

// The page of a machine.
fn one_machine(
    alloc: Global,
    state: &State,
    now: u64,
    hall: &Hall,
    id: Number,
) -> Result<Answer, AllocError>
    ensures { IfOk result (IsRight state.now now) }
{
    let body = machine_page(alloc, state, hall, id, now)?;
    Ok(Answer {
        status: if find(hall, id).is_some() { 200 } else { 404 },
        kind: Kind::Html,
        body,
    })
}

// The page of halls.
fn all_halls(alloc: Global, state: &State, now: u64, query: &str) -> Result<Answer, AllocError>
    ensures { IfOk result (IsRight state.now now) }
{
    Ok(Answer {
        status: 200,
        kind: Kind::Html,
        body: halls_page(alloc, state, now, query)?,
    })
}

// The state, for programs.
fn all_state(alloc: Global, state: &State, now: u64) -> Result<Answer, AllocError>
    ensures { IfOk result (IsRight state.now now) }
{
    Ok(Answer {
        status: 200,
        kind: Kind::Json,
        body: state_json(alloc, state, now)?.into_bytes(),
    })
}

// The metrics, in the format that is asked for.
fn all_metrics(
    alloc: Global,
    state: &State,
    now: u64,
    accept: Option<&str>,
) -> Result<Answer, AllocError>
    ensures { IfOk result (IsRight state.now now) }
{
    let is_open = match accept {
        Some(accept) => accept.contains("application/openmetrics-text"),
        None => false,
    };
    Ok(Answer {
        status: 200,
        kind: if is_open {
            Kind::OpenMetrics
        } else {
            Kind::Prometheus
        },
        body: metrics(alloc, state, now, is_open)?,
    })
}

// What a path is answered.
fn routed(alloc: Global, state: &State, now: u64, asked: &Asked<'_>) -> Result<Answer, AllocError>
    ensures { IfOk result (IsRight state.now now) }
{
    let (path, query) = match asked.target.split_once("?") {
        Some((path, query)) => (path, query),
        None => (asked.target, ""),
    };
    match path {
        "/" => all_halls(alloc, state, now, query),
        "/metrics" => all_metrics(alloc, state, now, asked.accept),
        "/state.json" => all_state(alloc, state, now),
        "/healthz" => line(alloc, 200, "ok\n"),
        _ => match machine_of(state, path) {
            Some((hall, id)) => one_machine(alloc, state, now, hall, id),
            None => line(alloc, 404, "There is no such page.\n"),
        },
    }
}

// The host of a field Host, without its port.
fn without_port(host: &str) -> &str {
    if let Some((address, _)) = host.split_once("]") {
        return address.strip_prefix("[").unwrap_or("");
    }
    match host.split_once(":") {
        Some((name, _)) => name,
        None => host,
    }
}

// Whether a host is one by which the program is reached. Any other one is of a page elsewhere that has the reader's browser ask.
fn is_known(host: Option<&str>, names: &[String]) -> bool {
    let Some(host) = host else {
        return false;
    };
    let host = without_port(host);
    for name in names {
        if host.eq_ignore_ascii_case(name.as_str()) {
            return true;
        }
    }
    host.eq_ignore_ascii_case("localhost") || host == "127.0.0.1" || host == "::1"
}

/// What a request is answered, from what is known of the halls now, in seconds since 1970. `names` are the hosts by which the program is
/// reached beside those of loopback. Each page is markup of the program's own and texts, and metrics are read back: see `IsRight`, and the
/// laws of `MarkupLaws` and of hallview_state's `ExpositionLaws`.
pub fn answer_to(
    alloc: Global,
    state: &State,
    names: &[String],
    now: u64,
    asked: &Asked<'_>,
) -> Result<Answer, AllocError>
    ensures { IfOk result (IsRight state.now now) }
{
    if !is_known(asked.host, names) {
        return line(
            alloc,
            403,
            "This isn't a host by which hallview is reached: name it with --name.\n",
        );
    }
    match asked.method {
        "GET" | "HEAD" => routed(alloc, state, now, asked),
        _ => line(alloc, 405, "hallview reads only: ask by GET.\n"),
    }
}
