//! Machines with the rows that decisions about them need, read from a store.
ghost use Rattle.std.specs.Prelude.{◌≡◌};
ghost use Rattle.boot_desk.specs.Views as view;
ghost use Rattle.boot_desk.specs.Views.{machine_view};
ghost use Rattle.desk_command.specs.{Prelude.{next_expired, at, row_at, view_of}, Look.Looks};

use crate::images::{image_at, live_image};
use crate::view::Read;
use boot_desk::{BootView, OrderView, ReportView};
use hall_store::HallStore;
use hall_types::{Boot, MacAddress, Machine, Moment, Number, Order};
use std::alloc::Global;

// The boot with a number, if there is a number.
fn boot_at<S: HallStore>(store: &mut S, number: Option<Number>) -> Read<Option<Boot>>
    ensures { Looks S.HallStore store.old store.new result (λ h answer. answer ≡ row_at h.boots number) }
{
    match number {
        Some(number) => store.boot(number),
        None => Ok(None),
    }
}

// The order with a number, if there is a number.
pub(crate) fn order_at<S: HallStore>(store: &mut S, number: Option<Number>) -> Read<Option<Order>>
    ensures { Looks S.HallStore store.old store.new result (λ h answer. answer ≡ row_at h.orders number) }
{
    match number {
        Some(number) => store.order(number),
        None => Ok(None),
    }
}

/// A machine with the rows that a decision about it may need. The store isn't changed.
pub fn boot_view<S: HallStore>(alloc: Global, store: &mut S, machine: Machine) -> Read<BootView>
    ensures { Looks S.HallStore store.old store.new result (λ h answer. answer ≡ view_of h machine) }
{
    let boot = boot_at(store, machine.boot)?;
    let order = order_at(store, machine.waiting)?;
    let numbers = store.numbers()?;
    let live = live_image(alloc, store, machine.arch)?;
    let image = image_at(alloc, store, machine.image)?;
    Ok(BootView {
        machine,
        boot,
        order,
        live,
        image,
        numbers,
    })
}

// The machine with a number, and its rows.
fn numbered_view<S: HallStore>(alloc: Global, store: &mut S, id: Number) -> Read<Option<BootView>>
    ensures { Looks S.HallStore store.old store.new result (λ h answer. answer ≡ machine_view h (at h.machines id)) }
{
    match store.machine(id)? {
        Some(machine) => Ok(Some(boot_view(alloc, store, machine)?)),
        None => Ok(None),
    }
}

/// The machine that an address is recorded with, and its rows. It takes at most eight reads.
pub fn view_at<S: HallStore>(
    alloc: Global,
    store: &mut S,
    mac: MacAddress,
) -> Read<Option<BootView>>
    ensures { Looks S.HallStore store.old store.new result (λ h answer. answer ≡ view.view_at h mac) }
{
    match store.by_mac(mac)? {
        Some(id) => numbered_view(alloc, store, id),
        None => Ok(None),
    }
}

/// The boot with a number, its machine, and its rows.
pub fn report_view<S: HallStore>(
    alloc: Global,
    store: &mut S,
    number: Number,
) -> Read<Option<ReportView>>
    ensures { Looks S.HallStore store.old store.new result (λ h answer. answer ≡ view.report_view h number) }
{
    let Some(asked) = store.boot(number)? else {
        return Ok(None);
    };
    match numbered_view(alloc, store, asked.machine)? {
        Some(at) => Ok(Some(ReportView { asked, at })),
        None => Ok(None),
    }
}

/// The order with a number, its machine, and its rows.
pub fn order_view<S: HallStore>(
    alloc: Global,
    store: &mut S,
    number: Number,
) -> Read<Option<OrderView>>
    ensures { Looks S.HallStore store.old store.new result (λ h answer. answer ≡ view.order_view h number) }
{
    let Some(asked) = store.order(number)? else {
        return Ok(None);
    };
    match numbered_view(alloc, store, asked.machine)? {
        Some(at) => Ok(Some(OrderView { asked, at })),
        None => Ok(None),
    }
}

/// The machine whose deadline comes first, if it is at most at a moment, and its rows.
pub fn expired_view<S: HallStore>(
    alloc: Global,
    store: &mut S,
    moment: Moment,
) -> Read<Option<BootView>>
    ensures { Looks S.HallStore store.old store.new result (λ h answer. answer ≡ machine_view h (next_expired h moment)) }
{
    match store.next_expired(moment)? {
        Some(machine) => Ok(Some(boot_view(alloc, store, machine)?)),
        None => Ok(None),
    }
}
