//! The same octets are sent until there is an answer.
ghost use Rattle.std.specs.Prelude.{◌≡◌, ◌≤◌, ◌*◌, ◌↔◌, IfOk, IfSome, IsNone, IsSome, IsTrue, drop, is_some, length, min};
ghost use Rattle.hallctl_requests.specs.Response.{IsReading};
ghost use Rattle.hallctl_tasks.specs.{Exchange.{AreHeard, AreUnsent, HasNoConnection, IsExchange, IsTry, IsUnsent, MakesKnown, SaysUnsent, Unheard, heard, known_of, says, says_nothing, seen}, Try.came_of};

use crate::answer::{Answer, Exchanged, Strange};
use crate::dial::{Attempt, Dial, Why};
use hallctl_requests::{ResponseFault, read_response};
use std::alloc::Global;

// The first pause, in milliseconds, and the longest.
const FIRST_PAUSE: u64 = 100;

const MAX_PAUSE: u64 = 5_000;

/// The milliseconds that one try may take at most until something comes.
pub(crate) const MAX_TRY: u64 = 10_000;

// The status of a whole answer, and where its body begins.
fn seen(octets: &[u8]) -> Result<(u16, usize), ResponseFault>
    ensures exact { IsReading octets.now (seen octets.now result) }
    ensures within { IfOk result (λ found. found.1 ≤ length octets.now) }
{
    let response = read_response(octets)?;
    let start = octets.len().saturating_sub(response.body.len());
    Ok((response.status, start))
}

// Why an answer with this status says nothing of what was asked for.
fn why_nothing(status: u16) -> Option<Why>
    ensures { is_some result ≡ says_nothing status }
{
    match status {
        502 => Some(Why::BadGateway),
        503 => Some(Why::Unavailable),
        504 => Some(Why::GatewayTimeout),
        _ => None,
    }
}

// What a whole answer makes known, of which the body begins at the start.
fn whole(status: u16, octets: Vec<u8>, start: usize) -> Exchanged
    requires { start ≤ length octets.items }
    ensures heard { says result ≡ heard status (drop start octets.items) }
    ensures sent { ¬ (SaysUnsent result) }
{
    match why_nothing(status) {
        Some(why) => Exchanged::Unknown(why),
        None => Exchanged::Answered(Answer::new(status, octets, start)),
    }
}

// What octets make known that are no whole answer.
fn unread(fault: ResponseFault) -> Exchanged
    ensures known { says result ≡ known_of (Err fault) }
    ensures sent { ¬ (SaysUnsent result) }
{
    match fault {
        ResponseFault::Cut => Exchanged::Unknown(Why::Cut),
        ResponseFault::TooLong => Exchanged::NotTheDesk(Strange::TooLong),
        ResponseFault::NotHttp => Exchanged::NotTheDesk(Strange::NotHttp),
    }
}

// What octets that came make known.
fn judged(octets: Vec<u8>) -> Exchanged
    ensures heard { AreHeard octets.items (says result) }
    ensures sent { ¬ (SaysUnsent result) }
{
    match seen(octets.as_slice()) {
        Ok((status, start)) => whole(status, octets, start),
        Err(fault) => unread(fault),
    }
}

// What a try makes known.
fn known(attempt: Attempt) -> Exchanged
    ensures known { MakesKnown (came_of attempt) (says result) }
    ensures unsent { SaysUnsent result → HasNoConnection (came_of attempt) }
{
    match attempt {
        Attempt::Answer(octets) => judged(octets),
        Attempt::TooLong => Exchanged::NotTheDesk(Strange::TooLong),
        Attempt::Nothing(why) => Exchanged::Unknown(why),
        Attempt::Unsent(why) => Exchanged::Unsent(why),
    }
}

fn tried<D: Dial>(alloc: Global, dial: &mut D, octets: &[u8], milliseconds: u64) -> Exchanged
    ensures one { IsTry (D.tries dial.old) octets.now (says result) (D.tries dial.new) }
    ensures unsent { SaysUnsent result → IsUnsent (D.tries dial.old) (D.tries dial.new) }
{
    known(dial.attempt(alloc, octets, milliseconds))
}

// Why a try was in vain, and whether nothing was sent; `None` where it wasn't in vain.
fn vain(outcome: &Exchanged) -> Option<(Why, bool)>
    ensures vain { IsSome result ↔ (says outcome.now ≡ Unheard) }
    ensures unsent { IfSome result (λ vain. IsTrue vain.1 → SaysUnsent outcome.now) }
    ensures heard { IsNone result → ¬ (SaysUnsent outcome.now) }
{
    match outcome {
        Exchanged::Unknown(why) => Some((*why, false)),
        Exchanged::Unsent(why) => Some((*why, true)),
        Exchanged::Answered(_) | Exchanged::NotTheDesk(_) => None,
    }
}

// What tries say of which the last one was in vain for this reason.
fn in_vain(why: Why, is_unsent: bool) -> Exchanged
    ensures vain { says result ≡ Unheard }
    ensures unsent { SaysUnsent result → IsTrue is_unsent }
{
    if is_unsent {
        Exchanged::Unsent(why)
    } else {
        Exchanged::Unknown(why)
    }
}

// The pause after this one.
fn longer(pause: u64) -> u64
    ensures { result ≡ min (2 * pause) MAX_PAUSE }
{
    pause.saturating_mul(2).min(MAX_PAUSE)
}

// How many milliseconds are left for more tries, after a pause. Of the first try in vain note is taken.
fn left_after<D: Dial>(
    alloc: Global,
    dial: &mut D,
    why: Why,
    start: u64,
    pause: u64,
    milliseconds: u64,
) -> u64
    ensures { D.tries dial.new ≡ D.tries dial.old }
{
    if pause == FIRST_PAUSE && milliseconds > 0 {
        dial.goes_on(alloc, why, milliseconds);
    }
    let passed = dial.passed().saturating_sub(start);
    dial.pause(pause.min(milliseconds.saturating_sub(passed)));
    milliseconds.saturating_sub(dial.passed().saturating_sub(start))
}

fn are_both(one: bool, other: bool) -> bool
    ensures { IsTrue result → IsTrue one × IsTrue other }
{
    one && other
}

/// How long there are tries.
#[derive(Clone, Copy)]
pub struct Patience {
    /// The milliseconds until the last try is over.
    pub all: u64,
    /// The milliseconds that the first try may take until something comes.
    pub first: u64,
}

/// Sends the octets of one request, the same in each try, until there is a whole answer that isn't 502, 503 or 504, or the time is over.
/// There is one try at least. Between two tries are ever longer pauses, of a tenth of a second to five seconds. A try takes at most ten
/// seconds, and no longer than the time that is left, until something comes. A refusal is an answer, and isn't tried again.
pub fn exchange<D: Dial>(
    alloc: Global,
    dial: &mut D,
    octets: &[u8],
    patience: Patience,
) -> Exchanged
    ensures exchange { IsExchange (D.tries dial.old) octets.now (says result) (D.tries dial.new) }
    ensures unsent { SaysUnsent result → AreUnsent (D.tries dial.old) (D.tries dial.new) }
{
    let start = dial.passed();
    let mut pause = FIRST_PAUSE;
    let mut limit = patience.first;
    let mut is_unsent = true;
    'tries: for _ in 0..u64::MAX {
        let outcome = tried(alloc, dial, octets, limit);
        let Some((why, unsent)) = vain(&outcome) else {
            return outcome;
        };
        is_unsent = are_both(is_unsent, unsent);
        let left = left_after(alloc, dial, why, start, pause, patience.all);
        if left == 0 {
            return in_vain(why, is_unsent);
        }
        limit = left.min(MAX_TRY);
        pause = longer(pause);
    }
    match tried(alloc, dial, octets, limit) {
        Exchanged::Unsent(why) => Exchanged::Unknown(why),
        outcome => outcome,
    }
}
