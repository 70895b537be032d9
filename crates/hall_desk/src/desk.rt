//! The desk: a store, and the place that it serves.
ghost use Rattle.std.specs.Prelude.{◌≡◌, true, false, ℕ, List, [], ◌∷◌, ◌++◌, length, IfOk, OnErr};
ghost use Rattle.hall_laws.specs.Laws.{IsFrame};
ghost use Rattle.hall_desk.specs.{Prelude.{reply_of, sender, Looks, decision_of, Hall, second, IsSound}, Account.{IsFound, IsReadAs}, Answering.{Answers, Gives}, Attempt.{ChangeNothing, IsOnlyRead}, Desk.{enlists_of, site_of, store_of}, Headline.HasHistory, History.{BeginsWith, Item, Origin, carried_out, exchanges}, Plan.{CarriesOut, Plans}, Sender.if_enabled, Stops.{AndCutRun, AreGiven, HasRun, IsLeft, IsSettled, LeavesMore, OrUnreplied}};

use crate::account::{Account, Found};
use crate::arrival::{Answer, Arrival, Input, Stamp};
use crate::laws::histories_keep_the_laws;
use crate::plans::Planned;
use crate::requests::enabled_sender;
use crate::typed::event_is_typed;
use crate::writing::write;
use hall_events::{Event, Reply};
use hall_laws::decisions_keep_the_rules;
use hall_store::{HallStore, Unavailable};
use hall_types::{Digest, Moment, Operator, Token};
use pxe_vendor::Place;
use std::alloc::{AllocError, Global};

/// A desk: the store of its hall, and the place that it serves. Contracts see both.
#[derive(Drop)]
pub struct Desk<S> {
    pub(crate) store: S,
    pub(crate) place: Place,
    // Whether unknown clients are enlisted.
    pub(crate) enlists: bool,
}

impl<S: HallStore> Desk<S> {
    /// The desk of a store's hall. To a new hall, or one that was just carried over from the first schema, nothing came yet.
    pub fn new(store: S, place: Place) -> Desk<S>
        ensures store { store_of result ≡ store }
        ensures site { site_of result ≡ place }
        ensures enlists { enlists_of result ≡ true }
        ensures history { (origin : Origin) (h : Hall) → BeginsWith origin h → S.HallStore.holds store h → HasHistory S.HallStore (store_of result) origin [] }
    {
        histories_keep_the_laws();
        Desk {
            store,
            place,
            enlists: true,
        }
    }

    /// The desk as one that enlists no unknown client: its frame counts as not having come, and gets silence; as an event it is refused as
    /// `Unavailable`. No datagram and no frame changes the hall then, nor what a stop leaves.
    pub fn without_enlisting(self) -> Desk<S>
        ensures store { store_of result ≡ store_of self }
        ensures site { site_of result ≡ site_of self }
        ensures enlists { enlists_of result ≡ false }
    {
        Desk {
            enlists: false,
            ..self
        }
    }

    /// The store, with the hall that the desk left.
    pub fn into_store(self) -> S
        ensures { result ≡ store_of self }
    {
        self.store
    }

    /// The rows that an event writes, and its answer. Nothing is written. The frame of a client that is to be enlisted, by a desk that doesn't,
    /// is refused.
    pub fn plan(&mut self, alloc: Global, event: &Event, moment: Moment, fresh: Token) -> Planned
        ensures site { site_of self.new ≡ site_of self.old }
        ensures enlists { enlists_of self.new ≡ enlists_of self.old }
        ensures plan { Looks S.HallStore (store_of self.old) (store_of self.new) result
            (λ h planned. Plans (decision_of (site_of self.old) h event.now moment fresh) planned) }
        ensures unlisted { enlists_of self.old ≡ false → IsFrame event.now → IfOk result (λ planned. planned.0 ≡ []) }
    {
        let mut found = Found::NOTHING;
        let stamp = Stamp { moment, fresh };
        self.planned(alloc, event, stamp, &mut found)
    }

    /// The enabled operator whose token has this digest. Nothing is written.
    pub fn sender(&mut self, bearer: Option<Digest>) -> Result<Option<Operator>, Unavailable>
        ensures site { site_of self.new ≡ site_of self.old }
        ensures enlists { enlists_of self.new ≡ enlists_of self.old }
        ensures sender { Looks S.HallStore (store_of self.old) (store_of self.new) result
            (λ h answer. answer ≡ if_enabled (sender h bearer)) }
    {
        enabled_sender(&mut self.store, bearer)
    }

    /// Carries an event out: its rows are written, and its answer is given. After `Unavailable` the hall is as it was
    /// before. All memory is taken before a row is written. With all that came to the hall since it was new, it is a history that
    /// keeps all laws. A stop at any moment leaves the hall before it or the hall after it, of a store that was settled; once it was
    /// answered, the hall after it alone. Of any store a stop leaves what it left before, or the hall after it (`crash`).
    pub fn step(
        &mut self,
        alloc: Global,
        event: &Event,
        moment: Moment,
        fresh: Token,
    ) -> Result<Reply, Unavailable>
        ensures site { site_of self.new ≡ site_of self.old }
        ensures enlists { enlists_of self.new ≡ enlists_of self.old }
        ensures step { CarriesOut S.HallStore (store_of self.old) (store_of self.new) result
            (λ h. (decision_of (site_of self.old) h event.now moment fresh).rows)
            (λ h reply. reply ≡ reply_of second (decision_of (site_of self.old) h event.now moment fresh).content) }
        ensures history { S.HallStore.is_clean (store_of self.new) → IfOk result (λ reply. (origin : Origin) (past : List Item)
            → HasHistory S.HallStore (store_of self.old) origin past
            → HasHistory S.HallStore (store_of self.new) origin (past ++ carried_out (site_of self.old) event.now moment fresh reply ∷ [])) }
        ensures settled { S.HallStore.is_clean (store_of self.new) → IfOk result (λ reply. (origin : Origin) (past : List Item)
            → IsSettled S.HallStore (store_of self.old) origin past
            → IsSettled S.HallStore (store_of self.new) origin (past ++ carried_out (site_of self.old) event.now moment fresh reply ∷ [])) }
        ensures stop { S.HallStore.is_clean (store_of self.new) → (origin : Origin) (past : List Item)
            → IsSettled S.HallStore (store_of self.old) origin past
            → IsLeft S.HallStore (store_of self.new) origin (OrUnreplied past (site_of self.old) event.now moment fresh) }
        ensures crash { S.HallStore.is_clean (store_of self.new) → (origin : Origin) (past : List Item)
            → HasHistory S.HallStore (store_of self.old) origin past
            → LeavesMore S.HallStore (store_of self.old) (store_of self.new) origin (OrUnreplied past (site_of self.old) event.now moment fresh) }
        ensures unlisted { enlists_of self.old ≡ false → IsFrame event.now → S.HallStore.is_clean (store_of self.new) → IsOnlyRead S.HallStore (store_of self.old) (store_of self.new) }
    {
        histories_keep_the_laws();
        decisions_keep_the_rules();
        event_is_typed(&self.place, event, fresh);
        self.carry_out(alloc, event, moment, fresh)
    }

    // Carries an event out.
    fn carry_out(
        &mut self,
        alloc: Global,
        event: &Event,
        moment: Moment,
        fresh: Token,
    ) -> Result<Reply, Unavailable>
        ensures site { site_of self.new ≡ site_of self.old }
        ensures enlists { enlists_of self.new ≡ enlists_of self.old }
        ensures step { CarriesOut S.HallStore (store_of self.old) (store_of self.new) result
            (λ h. (decision_of (site_of self.old) h event.now moment fresh).rows)
            (λ h reply. reply ≡ reply_of second (decision_of (site_of self.old) h event.now moment fresh).content) }
        ensures unlisted { enlists_of self.old ≡ false → IsFrame event.now → S.HallStore.is_clean (store_of self.new) → IsOnlyRead S.HallStore (store_of self.old) (store_of self.new) }
    {
        let (change, reply) = self.plan(alloc, event, moment, fresh)?;
        write(&mut self.store, &change)?;
        Ok(reply)
    }

    /// Answers what came, and gives an account of it for a log. After `Unavailable`, and after a datagram's silence, the hall may be as it
    /// was before. With all that came to the hall since it was new, at this place or others, it is a history that keeps all laws. A stop
    /// at any moment leaves the hall before it or the hall after it, of a store that was settled; once it was answered, the hall after it
    /// alone.
    pub fn answer_with_account(&mut self, alloc: Global, arrival: &Arrival) -> (Answer, Account)
        ensures { Gives S.HallStore self.old self.new arrival.now result }
    {
        let stamp = Stamp {
            moment: arrival.moment,
            fresh: arrival.fresh,
        };
        match &arrival.input {
            Input::Datagram { port, octets } => {
                self.answer_datagram(alloc, *port, octets.as_slice(), stamp)
            }
            Input::Request(request) => self.answer_request(alloc, request, stamp),
            Input::Quiet => self.answer_quiet(alloc, stamp),
        }
    }

    /// Answers what came. After `Unavailable`, and after a datagram's silence, the hall may be as it was before. With all that came to
    /// the hall since it was new, at this place or others, it is a history that keeps all laws. A stop at any moment leaves the hall
    /// before it or the hall after it, of a store that was settled; once it was answered, the hall after it alone.
    pub fn answer(&mut self, alloc: Global, arrival: &Arrival) -> Answer
        ensures { Answers S.HallStore self.old self.new arrival.now result }
    {
        let (answer, account) = self.answer_with_account(alloc, arrival);
        drop(account);
        answer
    }

    /// Answers what comes in turn, one answer each. A hall stays, sound or not, that none of it changes. With all that came to the hall
    /// since it was new, at this place or others, it is a history that keeps all laws: `specs/Headline.antt` has them in one place. A stop
    /// leaves, of a store that was settled, the hall after some of the arrivals, or after some more whose answers weren't given.
    /// The error is want of memory for the answers, before the first arrival, and the hall is then as it was.
    pub fn run(&mut self, alloc: Global, arrivals: &[Arrival]) -> Result<Vec<Answer>, AllocError>
        ensures clean { S.HallStore.is_clean (store_of self.new) → S.HallStore.is_clean (store_of self.old) }
        ensures site { site_of self.new ≡ site_of self.old }
        ensures enlists { enlists_of self.new ≡ enlists_of self.old }
        ensures run { S.HallStore.is_clean (store_of self.new) → IfOk result (λ answers. (h : Hall) → S.HallStore.holds (store_of self.old) h → IsSound h
            → HasRun S.HallStore (store_of self.old) (store_of self.new) (site_of self.old) h arrivals.now answers.items) }
        ensures one_each { IfOk result (λ answers. length answers.items ≡ length arrivals.now) }
        ensures history { S.HallStore.is_clean (store_of self.new) → IfOk result (λ answers. (origin : Origin) (past : List Item)
            → HasHistory S.HallStore (store_of self.old) origin past
            → HasHistory S.HallStore (store_of self.new) origin (past ++ exchanges (site_of self.old) arrivals.now answers.items)) }
        ensures settled { S.HallStore.is_clean (store_of self.new) → IfOk result (λ answers. (origin : Origin) (past : List Item)
            → (was : IsSettled S.HallStore (store_of self.old) origin past) → AreGiven (site_of self.old) was.history.end arrivals.now answers.items
            → IsSettled S.HallStore (store_of self.new) origin (past ++ exchanges (site_of self.old) arrivals.now answers.items)) }
        ensures stop { S.HallStore.is_clean (store_of self.new) → IfOk result (λ answers. (origin : Origin) (past : List Item)
            → IsSettled S.HallStore (store_of self.old) origin past
            → IsLeft S.HallStore (store_of self.new) origin (AndCutRun past (site_of self.old) arrivals.now answers.items)) }
        ensures idle { S.HallStore.is_clean (store_of self.new) → (h : Hall) → S.HallStore.holds (store_of self.old) h
            → ChangeNothing (site_of self.old) h arrivals.now → S.HallStore.holds (store_of self.new) h }
        ensures err { OnErr result (self.new ≡ self.old) }
    {
        histories_keep_the_laws();
        let mut answers = Vec::with_capacity(alloc, arrivals.len())?;
        for arrival in arrivals {
            let answer = self.answer(alloc, arrival);
            if answers.push(answer).is_err() {
                unreachable!();
            }
        }
        Ok(answers)
    }
}
