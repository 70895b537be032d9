//! Acts over a hall in memory, while memory ends ever later: an act that is refused as unavailable leaves the hall as it was. An act
//! whose answer can't be kept for want of memory leaves it so too, or was carried out. Of acts that stand together one is refused.
use crate::acts::acts_of;
use crate::stops::Seen;
use cases::{CaseFault, Out, Player, hold_within};
use std::alloc::Global;

const MAX_TURNS: usize = 2_000;

/// What an act came to where memory ended.
#[derive(Clone, Copy, PartialEq, Eq)]
enum CameTo {
    Answered,
    Refused,
    /// There was no memory for the act or its answer.
    Lost,
}

fn came_to(act: &str, answer: &str) -> CameTo {
    let is_fault = answer == "unavailable" || answer.ends_with(" Unavailable");
    let is_silent = answer == "silence" && act.starts_with("frame ");
    let is_waiting = answer.starts_with("waits");
    if is_fault || is_silent || is_waiting || answer == "refused" || answer.starts_with("503 ") {
        return CameTo::Refused;
    }
    CameTo::Answered
}

// Plays an act where memory ends after so many octets.
fn play_within<P: Player>(
    alloc: Global,
    player: &mut P,
    act: &str,
    octets: usize,
) -> Result<CameTo, CaseFault> {
    let mut out = Out::new(alloc);
    let held = hold_within(alloc, octets)?;
    let played = player.play(act, &mut out);
    drop(held);
    match (played, out.into_text()) {
        (Ok(()), Ok(answer)) => Ok(came_to(act, answer.as_str())),
        _ => Ok(CameTo::Lost),
    }
}

// What the act prints by which halls are compared.
fn hall<P: Player>(alloc: Global, player: &mut P, look: &str) -> Result<String, CaseFault> {
    let mut out = Out::new(alloc);
    player.play(look, &mut out)?;
    out.into_text()
}

// What was seen of an act once it was played: nothing, if it is to be played again with more octets.
fn seen(came_to: CameTo, is_same: bool, octets: usize) -> Option<Seen> {
    match (came_to, is_same) {
        (CameTo::Refused, false) => Some(Seen::Wrong(octets as u64)),
        (CameTo::Refused, true) | (CameTo::Lost, true) => None,
        _ if octets == 0 => Some(Seen::Wrong(0)),
        _ => Some(Seen::Right),
    }
}

// Plays an act with ever more octets, until it was carried out, and whether it was refused before.
fn play_with_more<P: Player>(
    alloc: Global,
    player: &mut P,
    look: &str,
    act: &str,
    step: usize,
) -> Result<(Seen, bool), CaseFault> {
    let before = hall(alloc, player, look)?;
    let mut was_refused = false;
    for turn in 0..MAX_TURNS {
        let octets = step.saturating_mul(turn);
        let played = play_within(alloc, player, act, octets)?;
        let after = hall(alloc, player, look)?;
        if let Some(seen) = seen(played, after.as_str() == before.as_str(), octets) {
            return Ok((seen, was_refused));
        }
        was_refused = was_refused || played == CameTo::Refused;
    }
    Ok((Seen::Wrong(u64::MAX), was_refused))
}

/// Plays acts, ` && ` between two of them, each with no octets, with so many, with twice as many and so on, until it was carried out.
/// Where none was refused before, that is wrong.
pub fn play_in_budgets<P: Player>(
    alloc: Global,
    player: &mut P,
    look: &str,
    acts: &str,
    step: usize,
) -> Result<Seen, CaseFault> {
    let mut was_refused = false;
    for act in acts_of(alloc, acts)? {
        let (seen, is_refused) = play_with_more(alloc, player, look, act, step)?;
        if seen != Seen::Right {
            return Ok(seen);
        }
        was_refused = was_refused || is_refused;
    }
    if was_refused {
        Ok(Seen::Right)
    } else {
        Ok(Seen::Wrong(0))
    }
}
