//! What `GET /metrics` answers.
ghost use Rattle.std.specs.Prelude.{◌≡◌, ◌++◌, true, List, IfOk, OnOk, string_bytes, map, flat_map};
ghost use Rattle.hallview_state.specs.{Exposition.{Sample, is_one_line}, Told.{AreMetrics, age_text, of_age, of_took, of_up, seconds_text, up_text, zeros}};

use crate::families::{Family, Label};
use crate::hall::Hall;
use crate::life_cycle_ways::LifeCycle;
use crate::listed::Listed;
use crate::pools::{count_at, pools_of};
use crate::samples::Metrics;
use crate::state::State;
use crate::text::number;
use crate::waiting::waiting_orders;
use hall_types::Status;
use std::alloc::{AllocError, Global};

// A hall with more pools than these has no zeros for statuses that no machine of a pool has.
const MAX_ZEROS: usize = 100;

fn push_machines(alloc: Global, metrics: &mut Metrics, hall: &Hall) -> Result<(), AllocError> {
    let pools = pools_of(alloc, hall.machines())?;
    for pool in pools.as_slice() {
        for status in Status::ALL.as_slice() {
            let count = count_at(&pool.counts, *status);
            if count > 0 || pools.len() <= MAX_ZEROS {
                metrics.add_twice_labelled(
                    Family::Machines,
                    hall.name.text(),
                    (Label::Pool, pool.pool.text()),
                    (Label::Status, status.text()),
                    number(alloc, count)?.as_str(),
                )?;
            }
        }
    }
    Ok(())
}

fn push_orders(alloc: Global, metrics: &mut Metrics, hall: &Hall) -> Result<(), AllocError> {
    if hall.list.is_none() {
        return Ok(());
    }
    let orders = waiting_orders(alloc, hall)?;
    for kind in ["cycle", "off"] {
        let mut count: u64 = 0;
        for order in orders.as_slice() {
            if order.kind() == kind {
                count = count.saturating_add(1);
            }
        }
        let own = number(alloc, count)?;
        metrics.add_labelled(
            Family::Orders,
            hall.name.text(),
            (Label::Kind, kind),
            own.as_str(),
        )?;
    }
    Ok(())
}

// The earlier of two moments.
fn earlier(one: Option<u64>, other: Option<u64>) -> Option<u64> {
    match (one, other) {
        (Some(one), Some(other)) => Some(one.min(other)),
        (None, other) => other,
        (one, None) => one,
    }
}

// The next deadline of the machines in a status.
fn next_deadline(machines: &[Listed], status: Status) -> Option<u64> {
    let mut next: Option<u64> = None;
    for one in machines {
        if one.machine.status == status {
            next = earlier(next, one.machine.deadline);
        }
    }
    next
}

// How far away a moment is, in seconds, negative once it has passed.
#[tactic(auto, using(crate::proofs::ValueLemmas::negative_is_one_line))]
fn distance(alloc: Global, moment: u64, now: u64) -> Result<String, AllocError>
    ensures { IfOk result (λ text. is_one_line (string_bytes text) ≡ true) }
{
    if moment >= now {
        return number(alloc, moment - now);
    }
    let passed = now - moment;
    format!(in alloc; "-{passed}")
}

fn push_deadlines(
    alloc: Global,
    metrics: &mut Metrics,
    hall: &Hall,
    now: u64,
) -> Result<(), AllocError> {
    for status in Status::ALL.as_slice() {
        if let Some(deadline) = next_deadline(hall.machines(), *status) {
            metrics.add_labelled(
                Family::Deadlines,
                hall.name.text(),
                (Label::Status, status.text()),
                distance(alloc, deadline, now)?.as_str(),
            )?;
        }
    }
    Ok(())
}

// Each way of the life cycle has a count from the start, so that the first move on it is an increase.
fn push_moves(
    alloc: Global,
    metrics: &mut Metrics,
    hall: &Hall,
    life_cycle: &LifeCycle,
) -> Result<(), AllocError> {
    for from in Status::ALL.as_slice() {
        for to in Status::ALL.as_slice() {
            let count = hall.ways.count(*from, *to);
            if count > 0 || life_cycle.leads(*from, *to) {
                metrics.add_twice_labelled(
                    Family::Moves,
                    hall.name.text(),
                    (Label::From, from.text()),
                    (Label::To, to.text()),
                    number(alloc, count)?.as_str(),
                )?;
            }
        }
    }
    Ok(())
}

// How long it is from one list of a hall to the next, of which three make a list old.
fn push_pauses(alloc: Global, metrics: &mut Metrics, halls: &[Hall]) -> Result<(), AllocError> {
    metrics.begin(Family::Pause)?;
    for hall in halls {
        let pause = number(alloc, hall.every)?;
        metrics.add(Family::Pause, hall.name.text(), pause.as_str())?;
    }
    Ok(())
}

// What is counted in the halls.
fn push_counts(
    alloc: Global,
    metrics: &mut Metrics,
    halls: &[Hall],
    now: u64,
) -> Result<(), AllocError> {
    metrics.begin(Family::Machines)?;
    for hall in halls {
        push_machines(alloc, metrics, hall)?;
    }
    metrics.begin(Family::Orders)?;
    for hall in halls {
        push_orders(alloc, metrics, hall)?;
    }
    metrics.begin(Family::Deadlines)?;
    for hall in halls {
        push_deadlines(alloc, metrics, hall, now)?;
    }
    let life_cycle = LifeCycle::new();
    metrics.begin(Family::Moves)?;
    for hall in halls {
        push_moves(alloc, metrics, hall, &life_cycle)?;
    }
    push_pauses(alloc, metrics, halls)
}

fn up_text(hall: &Hall) -> &'static str
    ensures text { result.now ≡ up_text hall.now }
    ensures line { is_one_line result.now ≡ true }
{
    if hall.is_up() { "1" } else { "0" }
}

fn push_ups(metrics: &mut Metrics, halls: &[Hall]) -> Result<(), AllocError>
    ensures { OnOk result (metrics.new ≡ metrics.old ++ map of_up halls.now) }
{
    metrics.begin(Family::Up)?;
    for hall in halls {
        metrics.add(Family::Up, hall.name.text(), up_text(hall))?;
    }
    Ok(())
}

// The zeros before what is left of a second, in milliseconds.
fn zeros(rest: u64) -> &'static str
    ensures { result.now ≡ zeros rest }
{
    if rest < 10 {
        "00"
    } else if rest < 100 {
        "0"
    } else {
        ""
    }
}

// Milliseconds as seconds with three places.
#[tactic(auto, using(crate::proofs::ValueLemmas::seconds_are_one_line))]
fn seconds_text(alloc: Global, milliseconds: u64) -> Result<String, AllocError>
    ensures text { IfOk result (λ text. string_bytes text ≡ seconds_text milliseconds) }
    ensures line { IfOk result (λ text. is_one_line (string_bytes text) ≡ true) }
{
    let rest = milliseconds % 1000;
    let rest_text = number(alloc, rest)?;
    let mut text = number(alloc, milliseconds / 1000)?;
    text.push_str(".")?;
    text.push_str(zeros(rest))?;
    text.push_str(rest_text.as_str())?;
    Ok(text)
}

fn push_took(alloc: Global, metrics: &mut Metrics, hall: &Hall) -> Result<(), AllocError>
    ensures { OnOk result (metrics.new ≡ metrics.old ++ of_took hall.now) }
{
    match &hall.list {
        Some(list) => {
            let took = seconds_text(alloc, list.took)?;
            metrics.add(Family::Took, hall.name.text(), took.as_str())
        }
        None => Ok(()),
    }
}

fn push_tooks(alloc: Global, metrics: &mut Metrics, halls: &[Hall]) -> Result<(), AllocError>
    ensures { OnOk result (metrics.new ≡ metrics.old ++ flat_map of_took halls.now) }
{
    metrics.begin(Family::Took)?;
    for hall in halls {
        push_took(alloc, metrics, hall)?;
    }
    Ok(())
}

// A desk that never answered has the age of hallview, so that an alarm needs no case of its own.
fn age_text(alloc: Global, hall: &Hall, began: u64, now: u64) -> Result<String, AllocError>
    ensures text { IfOk result (λ text. string_bytes text ≡ age_text began now hall.now) }
    ensures line { IfOk result (λ text. is_one_line (string_bytes text) ≡ true) }
{
    let at = hall.listed_at().unwrap_or(began);
    number(alloc, now.saturating_sub(at))
}

fn push_ages(
    alloc: Global,
    metrics: &mut Metrics,
    state: &State,
    now: u64,
) -> Result<(), AllocError>
    ensures { OnOk result (metrics.new ≡ metrics.old ++ map (of_age state.now.began now) state.now.halls.items) }
{
    metrics.begin(Family::Age)?;
    for hall in state.halls.as_slice() {
        let age = age_text(alloc, hall, state.began, now)?;
        metrics.add(Family::Age, hall.name.text(), age.as_str())?;
    }
    Ok(())
}

/// The metrics of all halls, in Prometheus' text format 0.0.4, or as OpenMetrics 1.0: a plain reader finds in them each sample that
/// was written, and those of each hall's desk and list are what is known of it now, in seconds since 1970.
pub fn metrics(alloc: Global, state: &State, now: u64, is_open: bool) -> Result<Vec<u8>, AllocError>
    ensures { IfOk result (λ octets. AreMetrics state.now now octets.items) }
{
    let mut metrics = Metrics::new(alloc, is_open);
    let halls = state.halls.as_slice();
    push_counts(alloc, &mut metrics, halls, now)?;
    push_ups(&mut metrics, halls)?;
    push_tooks(alloc, &mut metrics, halls)?;
    push_ages(alloc, &mut metrics, state, now)?;
    metrics.finish()
}
