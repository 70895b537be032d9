//! Arrivals that are answered by one commit of the store.
ghost use Rattle.std.specs.Prelude.{◌≡◌, ◌≤◌, ◌++◌, true, false, List, Option, None, length, IfOk, OnErr};
ghost use Rattle.hall_store.specs.Store.{Base};
ghost use Rattle.hall_desk.specs.{Prelude.{Hall, IsSound}, Attempt.IsRan, Desk.{enlists_of, site_of, store_of}, Grouping.{AreAvailable, AreReadAs, HasGroupRun, HasNoRun, IsUnavailable, OrTogether, first_of}, Headline.HasHistory, History.{Item, Origin, exchanges}, Stops.{IsLeft, IsSettled}, declared.arrival.Arrival.Arrival};

use crate::account::Account;
use crate::arrival::{Answer, Arrival};
use crate::desk::Desk;
use crate::laws::histories_keep_the_laws;
use hall_store::{GroupStore, HallStore, Unavailable};
use std::alloc::{AllocError, Global};

/// The answers to a group of arrivals, in their order, with an account of each.
#[derive(Drop)]
pub struct Answered {
    pub answers: Vec<Answer>,
    pub accounts: Vec<Account>,
}

fn is_unavailable(answer: &Answer) -> bool
    ensures is { true ≡ result → IsUnavailable answer.now }
    ensures other { false ≡ result → ¬ IsUnavailable answer.now }
{
    match answer {
        Answer::Unavailable => true,
        _ => false,
    }
}

impl<S: HallStore> Desk<S> {
    // Answers the first of the arrivals, until one counts as not having come.
    fn answer_first(&mut self, alloc: Global, arrivals: &[Arrival]) -> Result<Answered, AllocError>
        ensures clean { S.HallStore.is_clean (store_of self.new) → S.HallStore.is_clean (store_of self.old) }
        ensures site { site_of self.new ≡ site_of self.old }
        ensures enlists { enlists_of self.new ≡ enlists_of self.old }
        ensures base { S.HallStore.is_clean (store_of self.new) → (base : Option Base) → S.HallStore.over (store_of self.old) base → S.HallStore.over (store_of self.new) base }
        ensures few { IfOk result (λ answered. length answered.answers.items ≤ length arrivals.now) }
        ensures read { IfOk result (λ answered. AreReadAs (first_of arrivals.now answered.answers.items) answered.accounts.items) }
        ensures answered { IfOk result (λ answered. AreAvailable answered.answers.items) }
        ensures ran { S.HallStore.is_clean (store_of self.new) → IfOk result (λ answered. (h : Hall) → S.HallStore.holds (store_of self.old) h → IsSound h
            → IsRan S.HallStore (store_of self.new) (site_of self.old) h (first_of arrivals.now answered.answers.items) answered.answers.items) }
    {
        let mut answers = Vec::with_capacity(alloc, arrivals.len())?;
        let mut accounts = Vec::with_capacity(alloc, arrivals.len())?;
        'arrivals: for arrival in arrivals {
            let (answer, account) = self.answer_with_account(alloc, arrival);
            if is_unavailable(&answer) {
                return Ok(Answered { answers, accounts });
            }
            if answers.push(answer).is_err() || accounts.push(account).is_err() {
                unreachable!();
            }
        }
        Ok(Answered { answers, accounts })
    }
}

impl<S: GroupStore> Desk<S> {
    /// Answers the first of the arrivals in turn by one commit of the store, until one counts as not having come: that one and those
    /// after it aren't answered, and changed nothing. No answer is given before the commit: then a stop leaves the hall after all that
    /// was answered, and no other. After an error nothing came: the hall is as it was before, and no arrival is answered. A stop at any
    /// moment leaves the hall before the group, or the hall after all that is answered.
    pub fn answer_group(
        &mut self,
        alloc: Global,
        arrivals: &[Arrival],
    ) -> Result<Answered, Unavailable>
        ensures clean { S.HallStore.is_clean (store_of self.new) → S.HallStore.is_clean (store_of self.old) }
        ensures site { site_of self.new ≡ site_of self.old }
        ensures enlists { enlists_of self.new ≡ enlists_of self.old }
        ensures closed { S.HallStore.is_clean (store_of self.new) → S.HallStore.over (store_of self.old) None → S.HallStore.over (store_of self.new) None }
        ensures few { IfOk result (λ answered. length answered.answers.items ≤ length arrivals.now) }
        ensures read { IfOk result (λ answered. AreReadAs (first_of arrivals.now answered.answers.items) answered.accounts.items) }
        ensures answered { IfOk result (λ answered. AreAvailable answered.answers.items) }
        ensures run { S.HallStore.is_clean (store_of self.new) → IfOk result (λ answered. (h : Hall) → S.HallStore.holds (store_of self.old) h → IsSound h
            → HasGroupRun S.HallStore (store_of self.old) (store_of self.new) (site_of self.old) h (first_of arrivals.now answered.answers.items) answered.answers.items) }
        ensures history { S.HallStore.is_clean (store_of self.new) → IfOk result (λ answered. (origin : Origin) (past : List Item)
            → HasHistory S.HallStore (store_of self.old) origin past
            → HasHistory S.HallStore (store_of self.new) origin (past ++ exchanges (site_of self.old) (first_of arrivals.now answered.answers.items) answered.answers.items)) }
        ensures settled { S.HallStore.is_clean (store_of self.new) → IfOk result (λ answered. (origin : Origin) (past : List Item)
            → HasHistory S.HallStore (store_of self.old) origin past
            → IsSettled S.HallStore (store_of self.new) origin (past ++ exchanges (site_of self.old) (first_of arrivals.now answered.answers.items) answered.answers.items)) }
        ensures missed { S.HallStore.is_clean (store_of self.new) → OnErr result ((h : Hall) → S.HallStore.holds (store_of self.old) h → IsSound h
            → HasNoRun S.HallStore (store_of self.old) (store_of self.new) (site_of self.old) h arrivals.now) }
        ensures stop { S.HallStore.is_clean (store_of self.new) → (origin : Origin) (past : List Item)
            → IsSettled S.HallStore (store_of self.old) origin past
            → IsLeft S.HallStore (store_of self.new) origin (OrTogether past (site_of self.old) arrivals.now) }
    {
        histories_keep_the_laws();
        self.store.begin()?;
        let Ok(answered) = self.answer_first(alloc, arrivals) else {
            self.store.roll_back();
            return Err(Unavailable);
        };
        self.store.commit()?;
        Ok(answered)
    }
}
