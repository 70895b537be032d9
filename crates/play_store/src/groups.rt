//! Arrivals that are answered by one commit of the store, as a service answers what waits.
use crate::asked::count;
use crate::hall::{Hall, MAX_CALLS, Way};
use crate::readings::read_all_again;
use cases::{CaseFault, Out, Played};
use hall_desk::{Answer, Arrival, Desk};
use hall_store::{Cached, GroupStore, HallStore};
use play_log::{arrival, place, push_answer};
use pxe_vendor::Place;
use std::alloc::Global;
use store_group::Group;

// The answers to the first of some arrivals, none where the store couldn't answer, and the store.
type Answered<S> = (Option<Vec<Answer>>, S);

// The answers to the first of some arrivals, each read anew.
fn answers_to<S: GroupStore>(
    alloc: Global,
    desk: &mut Desk<S>,
    arrivals: &[Arrival],
) -> Option<Vec<Answer>> {
    let again = read_all_again(alloc, arrivals).ok()?;
    match desk.answer_group(alloc, again.as_slice()) {
        Ok(answered) => Some(answered.answers),
        Err(_) => None,
    }
}

fn answered<S: HallStore>(
    alloc: Global,
    store: S,
    place: Place,
    arrivals: &[Arrival],
) -> Answered<S> {
    let mut desk = Desk::new(Group::new(alloc, store), place);
    let answers = answers_to(alloc, &mut desk, arrivals);
    (answers, desk.into_store().into_inner())
}

// Over the cache that a service has over its store.
fn answered_by_cache<S: HallStore>(
    alloc: Global,
    store: S,
    place: Place,
    arrivals: &[Arrival],
) -> Answered<S> {
    match Cached::new(alloc, store) {
        Ok(cached) => {
            let (answers, cached) = answered(alloc, cached, place, arrivals);
            (answers, cached.into_inner())
        }
        Err(store) => (None, store),
    }
}

// Arrivals, ` && ` between two of them.
fn arrivals_of(alloc: Global, words: &str) -> Result<Vec<Arrival>, CaseFault> {
    let arrivals = words.split(" && ").map(|act| arrival(alloc, act));
    Ok(arrivals.try_collect(alloc)?)
}

// Prints the answers to the first of some arrivals, each on a line of its own.
fn push_answers(arrivals: &[Arrival], answers: &[Answer], out: &mut Out) -> Played {
    for (arrival, answer) in arrivals.iter().zip(answers) {
        push_answer(out, &arrival.input, answer)?;
        out.push("\n");
    }
    Ok(())
}

impl<S: HallStore + Drop> Hall<S> {
    // Answers the first of some arrivals by one commit, by a cache where they aren't answered alone: as many answers as could be given.
    fn answer_together(
        &mut self,
        alloc: Global,
        arrivals: &[Arrival],
    ) -> Result<Vec<Answer>, CaseFault> {
        let place = place(alloc)?;
        let store = self.take()?;
        let (answers, store) = match self.way() {
            Way::Alone => answered(alloc, store, place, arrivals),
            _ => answered_by_cache(alloc, store, place, arrivals),
        };
        self.put_back(store);
        Ok(answers.unwrap_or(Vec::new(alloc)))
    }

    // The same over the store that fails at its first call, at its second and so on, until one is answered or it has fewer calls.
    fn answer_failing(
        &mut self,
        alloc: Global,
        arrivals: &[Arrival],
    ) -> Result<Vec<Answer>, CaseFault> {
        for call in 1..MAX_CALLS {
            self.fail_at(Some(call));
            let answers = self.answer_together(alloc, arrivals);
            self.fail_at(None);
            let answers = answers?;
            if !answers.is_empty() || self.calls() < call {
                return Ok(answers);
            }
            count(&mut self.asked.failed);
        }
        Err(CaseFault::Form)
    }

    /// Answers arrivals by one commit, prints how they were answered, and for each that waits for another commit `waits`.
    pub(crate) fn together(&mut self, words: &str, out: &mut Out) -> Played {
        let arrivals = arrivals_of(out.alloc(), words)?;
        let answers = self.answer_together(out.alloc(), arrivals.as_slice())?;
        push_answers(arrivals.as_slice(), answers.as_slice(), out)?;
        for _ in answers.len()..arrivals.len() {
            out.push("waits\n");
        }
        Ok(())
    }

    /// Answers arrivals together, those that wait by another commit and so on, and prints how they were answered. Where arrivals are played over
    /// failing stores, each commit's store fails at its first call, at its second and so on.
    pub(crate) fn group(&mut self, words: &str, out: &mut Out) -> Played {
        let arrivals = arrivals_of(out.alloc(), words)?;
        let mut rest = arrivals.as_slice();
        for _ in 0..arrivals.len() {
            if rest.is_empty() {
                break;
            }
            let answers = if self.way() == Way::Failing {
                self.answer_failing(out.alloc(), rest)?
            } else {
                self.answer_together(out.alloc(), rest)?
            };
            if answers.is_empty() {
                return Err(CaseFault::Unavailable);
            }
            push_answers(rest, answers.as_slice(), out)?;
            rest = rest.get(answers.len()..).unwrap_or(&[]);
        }
        Ok(())
    }
}
