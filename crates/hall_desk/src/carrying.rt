//! Carrying out what came.
ghost use Rattle.std.specs.Prelude.{◌≡◌, ℕ, List, [], None, false, IfOk, OnErr, OnOk};
ghost use Rattle.hall_events.specs.declared.event.Event.TheVariants as event;
ghost use Rattle.hall_desk.specs.{Prelude.{Hall, Looks, decision_of}, Account.{IsDecided, found_for, is_unlisted, nothing_found, with_found, with_move}, Attempt.IsOnlyRead, Desk.{Stays, enlists_of, site_of, store_of}, Moved.moved_by, Octets.{frame_answer, no_answer, response_answer}, Plan.{CarriesOut, IsFramePlan, decided_at}};

use crate::account::{Found, Notes};
use crate::arrival::{Answer, Stamp};
use crate::desk::Desk;
use crate::octets::{client_answer, response};
use crate::plans::plan_client;
use crate::writing::write;
use boot_desk::Decision;
use dhcp_frame::Frame;
use hall_events::Event;
use hall_store::{HallStore, Unavailable};
use hall_types::{Change, Port};
use pxe_vendor::Client;
use std::alloc::Global;

// Whether the client is to be enlisted, by a desk that doesn't.
fn is_unlisted(enlists: bool, decision: Decision) -> bool
    ensures { result ≡ is_unlisted enlists decision }
{
    match decision {
        Decision::Enlist => !enlists,
        Decision::Loader | Decision::ScriptUrl | Decision::Silent(_) => false,
    }
}

impl<S: HallStore> Desk<S> {
    /// What is planned for a client's frame, whether it comes in a datagram or as an event: the rows to write, and how it is answered, which is
    /// noted. The frame of a client that is to be enlisted, by a desk that doesn't, is refused.
    pub(crate) fn plan_frame(
        &mut self,
        alloc: Global,
        port: Port,
        client: &Client,
        notes: &mut Notes,
    ) -> Result<(Change, Decision), Unavailable>
        ensures stays { Stays self.old self.new }
        ensures planned { Looks S.HallStore (store_of self.old) (store_of self.new) result (λ h planned. IsFramePlan h port client.now planned) }
        ensures decided { notes.old.decision ≡ None → notes.old.unlisted ≡ false → S.HallStore.is_clean (store_of self.new)
            → (h : Hall) → S.HallStore.holds (store_of self.old) h → IsDecided (enlists_of self.old) h port client.now notes.new }
        ensures unlisted { enlists_of self.old ≡ false → IfOk result (λ planned. planned.0 ≡ []) }
        ensures moved { notes.new.moved ≡ notes.old.moved }
        ensures machine { notes.new.machine ≡ notes.old.machine }
    {
        let (change, decision) = plan_client(alloc, &mut self.store, port, client)?;
        notes.decision = Some(decision);
        if is_unlisted(self.enlists, decision) {
            notes.unlisted = true;
            return Err(Unavailable);
        }
        Ok((change, decision))
    }

    /// Carries out a client's frame, and gives its answer. All memory is taken before a row is written. Of a desk that doesn't enlist, the
    /// frame of a client that is to be enlisted counts as not having come.
    #[tactic(auto, unfolding(hall_laws::specs::Decision::decision_of))]
    pub(crate) fn carry_frame(
        &mut self,
        alloc: Global,
        port: Port,
        frame: &Frame<'_>,
        client: &Client,
        notes: &mut Notes,
    ) -> Result<Answer, Unavailable>
        ensures stays { Stays self.old self.new }
        ensures carried { (moment : ℕ) (fresh : List ℕ) → CarriesOut S.HallStore (store_of self.old) (store_of self.new) result
            (λ h. (decision_of (site_of self.old) h (event.Frame port client.now) moment fresh).rows)
            (λ h answer. answer ≡ frame_answer (site_of self.old) frame.now client.now (decision_of (site_of self.old) h (event.Frame port client.now) moment fresh).content) }
        ensures decided { notes.old.decision ≡ None → notes.old.unlisted ≡ false → S.HallStore.is_clean (store_of self.new)
            → (h : Hall) → S.HallStore.holds (store_of self.old) h → IsDecided (enlists_of self.old) h port client.now notes.new }
        ensures moved { (moment : ℕ) (fresh : List ℕ) → S.HallStore.is_clean (store_of self.new) → OnOk result ((h : Hall) → S.HallStore.holds (store_of self.old) h
            → notes.new.moved ≡ moved_by notes.old.machine (decision_of (site_of self.old) h (event.Frame port client.now) moment fresh).rows) }
        ensures unmoved { OnErr result (notes.new.moved ≡ notes.old.moved) }
        ensures unlisted { enlists_of self.old ≡ false → S.HallStore.is_clean (store_of self.new) → IsOnlyRead S.HallStore (store_of self.old) (store_of self.new) }
    {
        let (change, decision) = self.plan_frame(alloc, port, client, notes)?;
        let answer = client_answer(alloc, decision, frame, client, &self.place)?;
        write(&mut self.store, &change)?;
        notes.note_change(&change);
        Ok(answer)
    }

    /// Carries out the event of a request, and gives its response. All memory is taken before a row is written.
    pub(crate) fn carry_request(
        &mut self,
        alloc: Global,
        event: &Event,
        stamp: Stamp,
        notes: &mut Notes,
    ) -> Result<Answer, Unavailable>
        ensures stays { Stays self.old self.new }
        ensures carried { CarriesOut S.HallStore (store_of self.old) (store_of self.new) result
            (λ h. (decided_at (site_of self.old) stamp event.now h).rows)
            (λ h answer. answer ≡ response_answer (decided_at (site_of self.old) stamp event.now h).content) }
        ensures noted { S.HallStore.is_clean (store_of self.new) → OnOk result ((h : Hall) → S.HallStore.holds (store_of self.old) h
            → notes.new ≡ with_move (decided_at (site_of self.old) stamp event.now h).rows (with_found (found_for h stamp.moment event.now nothing_found) notes.old)) }
        ensures unmoved { OnErr result (notes.new.moved ≡ notes.old.moved) }
    {
        let mut found = Found::NOTHING;
        let plan = self.planned(alloc, event, stamp, &mut found);
        notes.note_found(found);
        let (change, reply) = plan?;
        let answer = response(alloc, reply)?;
        write(&mut self.store, &change)?;
        notes.note_change(&change);
        Ok(answer)
    }

    /// Carries out a quiet moment.
    pub(crate) fn carry_quiet(
        &mut self,
        alloc: Global,
        stamp: Stamp,
        notes: &mut Notes,
    ) -> Result<Answer, Unavailable>
        ensures stays { Stays self.old self.new }
        ensures carried { CarriesOut S.HallStore (store_of self.old) (store_of self.new) result
            (λ h. (decided_at (site_of self.old) stamp event.Quiet h).rows)
            (λ h answer. answer ≡ no_answer (decided_at (site_of self.old) stamp event.Quiet h).content) }
        ensures noted { S.HallStore.is_clean (store_of self.new) → OnOk result ((h : Hall) → S.HallStore.holds (store_of self.old) h
            → notes.new ≡ with_move (decided_at (site_of self.old) stamp event.Quiet h).rows (with_found (found_for h stamp.moment event.Quiet nothing_found) notes.old)) }
        ensures unmoved { OnErr result (notes.new.moved ≡ notes.old.moved) }
    {
        let mut found = Found::NOTHING;
        let plan = self.planned(alloc, &Event::Quiet, stamp, &mut found);
        notes.note_found(found);
        let (change, reply) = plan?;
        drop(reply);
        write(&mut self.store, &change)?;
        notes.note_change(&change);
        Ok(Answer::Silence)
    }
}
