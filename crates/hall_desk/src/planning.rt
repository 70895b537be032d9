//! What is planned for every event.
ghost use Rattle.std.specs.Prelude.{◌≡◌, false, [], IfOk};
ghost use Rattle.hall_laws.specs.Laws.{IsFrame};
ghost use Rattle.hall_desk.specs.{Prelude.Looks, Account.found_for, Desk.{Stays, enlists_of, site_of, store_of}, Plan.{Plans, decided_at}};

use crate::account::{Found, Notes};
use crate::arrival::Stamp;
use crate::desk::Desk;
use crate::plans::{
    OrderAnswer, Planned, client_reply, noted_boot_view, noted_expired_view, noted_report_view,
    plan_quiet, plan_report, plan_script,
};
use crate::requests::{
    Sent, plan_command, plan_machines, plan_one_machine, plan_order_answer, plan_orders,
};
use hall_events::Event;
use hall_store::HallStore;
use std::alloc::Global;

impl<S: HallStore> Desk<S> {
    /// What is planned for an event: the rows to write, and the answer. The hall isn't changed. The frame of a client that is to be enlisted, by
    /// a desk that doesn't, is refused.
    #[tactic(auto, unfolding(hall_laws::specs::Decision::decision_of))]
    pub(crate) fn planned(
        &mut self,
        alloc: Global,
        event: &Event,
        stamp: Stamp,
        found: &mut Found,
    ) -> Planned
        ensures stays { Stays self.old self.new }
        ensures planned { Looks S.HallStore (store_of self.old) (store_of self.new) result
            (λ h its. Plans (decided_at (site_of self.old) stamp event.now h) its × (found.new ≡ found_for h stamp.moment event.now found.old)) }
        ensures unlisted { enlists_of self.old ≡ false → IsFrame event.now → IfOk result (λ planned. planned.0 ≡ []) }
    {
        match event {
            Event::Frame { port, client } => {
                let mut notes = Notes::NONE;
                let (change, decision) = self.plan_frame(alloc, *port, client, &mut notes)?;
                Ok((change, client_reply(alloc, decision, client, &self.place)?))
            }
            Event::Script { mac } => {
                let view = noted_boot_view(alloc, &mut self.store, *mac, found)?;
                plan_script(alloc, view, &self.place, stamp)
            }
            Event::Report {
                boot,
                token,
                progress,
            } => {
                let view = noted_report_view(alloc, &mut self.store, *boot, found)?;
                plan_report(alloc, view, *token, *progress, stamp.moment)
            }
            Event::Orders { bearer } => plan_orders(alloc, &mut self.store, *bearer, found),
            Event::OrderAnswer {
                bearer,
                order,
                outcome,
            } => {
                let answer = OrderAnswer {
                    order: *order,
                    outcome: *outcome,
                    moment: stamp.moment,
                };
                plan_order_answer(alloc, &mut self.store, *bearer, answer, found)
            }
            Event::Machines { bearer } => plan_machines(alloc, &mut self.store, *bearer, found),
            Event::OneMachine { bearer, machine } => {
                plan_one_machine(alloc, &mut self.store, *bearer, *machine, found)
            }
            Event::Command {
                bearer,
                key,
                command,
            } => {
                let sent = Sent {
                    key: *key,
                    wish: command,
                    moment: stamp.moment,
                };
                plan_command(alloc, &mut self.store, *bearer, sent, found)
            }
            Event::Quiet => {
                let view = noted_expired_view(alloc, &mut self.store, stamp.moment, found)?;
                plan_quiet(alloc, view, stamp.moment)
            }
        }
    }
}
