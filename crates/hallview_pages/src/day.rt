//! The statuses of the last day, as a plot and as a table.
use crate::ages::put_old_age;
use crate::markup::Page;
use crate::overview::{MAX_TABLES, TOO_MANY_HALLS};
use crate::parts::{end_section, put_note, word};
use crate::value::Value;
use hall_types::Status;
use hallview_state::text::DAY;
use hallview_state::{Hall, SLOT, STATUSES, Sample, StatusKind, View, count_at};
use std::alloc::{AllocError, Global};

// The height of a plot.
const HEIGHT: u64 = 400;

// The seconds of a minute.
const MINUTE: u64 = 60;

/// A sample of the last day, with where it begins and ends, in minutes from 24 hours ago on.
#[derive(Clone, Copy)]
struct Part {
    begins: u64,
    ends: u64,
    counts: [u64; STATUSES],
}

impl Part {
    // How many machines have a status of one of these kinds.
    fn of_kinds(&self, kinds: &[StatusKind]) -> u64 {
        let mut sum: u64 = 0;
        for status in Status::ALL.as_slice() {
            if kinds.contains(&StatusKind::of(*status)) {
                sum = sum.saturating_add(count_at(&self.counts, *status));
            }
        }
        sum
    }
}

fn part_of(sample: &Sample, now: u64) -> Option<Part> {
    let start = now.saturating_sub(DAY);
    let end = sample.at.saturating_add(SLOT);
    if end <= start || sample.at > now {
        return None;
    }
    Some(Part {
        begins: sample.at.saturating_sub(start) / MINUTE,
        ends: (end - start).min(DAY) / MINUTE,
        counts: sample.counts,
    })
}

fn parts_of(alloc: Global, hall: &Hall, now: u64) -> Result<Vec<Part>, AllocError> {
    let mut parts = Vec::new(alloc);
    for sample in hall.history.as_slice() {
        if let Some(part) = part_of(sample, now) {
            parts.push(part)?;
        }
    }
    Ok(parts)
}

// The height from above of the sum of kinds.
fn height(part: &Part, top: u64, kinds: &[StatusKind]) -> u64 {
    let sum = part.of_kinds(kinds).saturating_mul(HEIGHT);
    HEIGHT.saturating_sub(sum.checked_div(top).unwrap_or(0))
}

// Draws a part of an area to its end, after the last one's end and height.
fn put_part(page: &mut Page, part: &Part, y: u64, last: Option<(u64, u64)>) {
    let (begins, ends) = (Value::Number(part.begins), Value::Number(part.ends));
    match last {
        Some((at, height)) if at == part.begins && y == height => page.put("H{}", &[ends]),
        Some((at, _)) if at == part.begins => page.put("V{}H{}", &[Value::Number(y), ends]),
        Some(_) => page.put("V400zM{} 400V{}H{}", &[begins, Value::Number(y), ends]),
        None => page.put("M{} 400V{}H{}", &[begins, Value::Number(y), ends]),
    }
}

// The area under the sum of kinds, as steps: a part for each stretch without a gap.
fn put_area(page: &mut Page, parts: &[Part], top: u64, kinds: &[StatusKind]) {
    let mut last = None;
    for part in parts {
        let y = height(part, top, kinds);
        put_part(page, part, y, last);
        last = Some((part.ends, y));
    }
    if last.is_some() {
        page.put("V400z", &[]);
    }
}

// The most machines that had a status of these kinds at once.
fn most_of(parts: &[Part], kinds: &[StatusKind]) -> u64 {
    let mut most = 0;
    for part in parts {
        most = part.of_kinds(kinds).max(most);
    }
    most
}

// What the plot says, for those who don't see it.
fn put_label(page: &mut Page, hall: &Hall, parts: &[Part], last: &Part) {
    page.put(
        "Statuses of {} over the last day. At the end ",
        &[Value::Text(hall.name.text())],
    );
    for (place, kind) in StatusKind::ALL.iter().enumerate() {
        page.put(
            if place > 0 { ", {} {}" } else { "{} {}" },
            &[
                Value::Number(last.of_kinds(&[*kind])),
                Value::Lower(kind.title()),
            ],
        );
    }
    let most = most_of(parts, &[StatusKind::Trouble]);
    page.put("; {} failed or broken at most.", &[Value::Number(most)]);
}

fn put_areas(page: &mut Page, parts: &[Part], top: u64) {
    for count in [5, 4, 3, 2, 1] {
        let kinds = StatusKind::ALL.as_slice().get(..count).unwrap_or(&[]);
        if let Some(kind) = kinds.last() {
            page.put("<path class=\"{}\" d=\"", &[Value::Text(kind.class())]);
            put_area(page, parts, top, kinds);
            page.put("\"/>\n", &[]);
        }
    }
    page.put(
        "<path class=\"tick\" d=\"M360 0V400M720 0V400M1080 0V400\"/>\n</svg>\n<div class=\"axis\" aria-hidden=\"true\"><span>24 h ago</span> <span>18 h</span> <span>12 h</span> <span>6 h</span> <span>now</span></div>\n",
        &[],
    );
}

fn put_kinds(page: &mut Page, last: &Part) {
    page.put("<ul>\n", &[]);
    for kind in StatusKind::ALL.as_slice() {
        page.put(
            "<li class=\"{}\">{}: {}</li>\n",
            &[
                Value::Text(kind.class()),
                Value::Text(kind.title()),
                Value::Number(last.of_kinds(&[*kind])),
            ],
        );
    }
    page.put("</ul>\n", &[]);
}

fn put_number(page: &mut Page, value: Value<'_>) {
    page.put("<td class=\"n\">{}</td>", &[value]);
}

// How many machines had a status at a minute of the day.
fn count_then(parts: &[Part], minute: u64, status: Status) -> Value<'static> {
    for part in parts {
        if part.begins <= minute && minute < part.ends {
            return Value::Number(count_at(&part.counts, status));
        }
    }
    Value::Text("-")
}

fn put_status(page: &mut Page, parts: &[Part], last: &Part, status: Status) {
    let (mut fewest, mut most) = (u64::MAX, 0);
    for part in parts {
        let count = count_at(&part.counts, status);
        fewest = count.min(fewest);
        most = count.max(most);
    }
    if most == 0 {
        return;
    }
    page.put(
        "<tr><th scope=\"row\">{}</th>",
        &[Value::Text(status.text())],
    );
    for minute in [0, 360, 720, 1080] {
        put_number(page, count_then(parts, minute, status));
    }
    for count in [count_at(&last.counts, status), fewest, most] {
        put_number(page, Value::Number(count));
    }
    page.put("\n</tr>", &[]);
}

fn put_caption(page: &mut Page, hall: &Hall) {
    page.put("{} over the last day", &[Value::Text(hall.name.text())]);
    put_old_age(page, hall);
}

fn put_table(page: &mut Page, hall: &Hall, parts: &[Part], last: &Part) {
    page.put(
        "<details>\n<summary>As a table</summary>\n<div role=\"group\" aria-label=\"",
        &[],
    );
    put_caption(page, hall);
    page.put("\" tabindex=\"0\">\n<table>\n<caption>", &[]);
    put_caption(page, hall);
    page.put(
        "</caption>\n<thead>\n<tr><th scope=\"col\">Status</th><th scope=\"col\" class=\"n\">24 h ago</th><th scope=\"col\" class=\"n\">18 h ago</th><th scope=\"col\" class=\"n\">12 h ago</th><th scope=\"col\" class=\"n\">6 h ago</th><th scope=\"col\" class=\"n\">Last</th><th scope=\"col\" class=\"n\">Fewest</th><th scope=\"col\" class=\"n\">Most</th></tr>\n</thead>\n<tbody>",
        &[],
    );
    for status in Status::ALL.as_slice() {
        put_status(page, parts, last, *status);
    }
    page.put("</tbody>\n</table>\n</div>\n</details>\n", &[]);
}

// The plot of a hall that had this many machines at most, more than none.
fn put_figure(page: &mut Page, hall: &Hall, parts: &[Part], last: &Part, top: u64) {
    page.put(
        "<figure>\n<figcaption>{}: {} {} at most",
        &[
            Value::Text(hall.name.text()),
            Value::Number(top),
            Value::Text(word(top as usize, "machine", "machines")),
        ],
    );
    put_old_age(page, hall);
    page.put(
        "</figcaption>\n<svg viewBox=\"0 0 1440 400\" preserveAspectRatio=\"none\" role=\"img\" aria-label=\"",
        &[],
    );
    put_label(page, hall, parts, last);
    page.put("\">\n", &[]);
    put_areas(page, parts, top);
    put_kinds(page, last);
    put_table(page, hall, parts, last);
    page.put("</figure>\n", &[]);
}

fn put_plot(alloc: Global, page: &mut Page, hall: &Hall) -> Result<(), AllocError> {
    let parts = parts_of(alloc, hall, page.context.now)?;
    let parts = parts.as_slice();
    let top = most_of(parts, &StatusKind::ALL);
    match (parts.last(), top) {
        (Some(last), 1..) => put_figure(page, hall, parts, last, top),
        _ => page.put(
            "<p>{}: no machine was seen yet.</p>\n",
            &[Value::Text(hall.name.text())],
        ),
    }
    Ok(())
}

/// The last day of each hall.
pub(crate) fn put_day(alloc: Global, page: &mut Page, view: &View<'_>) -> Result<(), AllocError> {
    page.put("<section id=\"day\">\n<h2>The last day</h2>\n", &[]);
    if view.halls.len() > MAX_TABLES {
        put_note(page, TOO_MANY_HALLS);
    } else {
        for hall in view.halls.as_slice() {
            put_plot(alloc, page, hall)?;
        }
    }
    end_section(page);
    Ok(())
}
