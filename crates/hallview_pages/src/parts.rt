//! Parts that several pages have.
use crate::markup::Page;
use crate::value::Value;
use hall_types::{Interface, Machine, Number};
use hallview_state::{Hall, or_dash};

// How many addresses a row shows.
const MAX_ADDRESSES: usize = 2;

/// A word after a number: for one, or for many.
pub(crate) fn word(number: usize, one: &'static str, many: &'static str) -> &'static str {
    if number == 1 { one } else { many }
}

/// A line of text.
pub(crate) fn put_note(page: &mut Page, text: &str) {
    page.put("<p>{}</p>\n", &[Value::Text(text)]);
}

/// The end of a section.
pub(crate) fn end_section(page: &mut Page) {
    page.put("</section>\n", &[]);
}

/// The titles of a table's columns.
pub(crate) fn put_columns(page: &mut Page, titles: &[&str]) {
    for title in titles {
        page.put("<th scope=\"col\">{}</th>", &[Value::Text(title)]);
    }
}

/// The first cell of a row, which leads to a machine.
pub(crate) fn begin_cells(page: &mut Page, hall: &Hall, id: Number) {
    page.put(
        "<th scope=\"row\"><a href=\"/machines/{}/{}\">{}</a></th>",
        &[
            Value::Word(hall.name.text()),
            Value::Number(id.get()),
            Value::Number(id.get()),
        ],
    );
}

/// The beginning of a row, which leads to a machine.
pub(crate) fn begin_row(page: &mut Page, hall: &Hall, id: Number) {
    page.put("<tr>", &[]);
    begin_cells(page, hall, id);
}

pub(crate) fn put_cell(page: &mut Page, value: Value<'_>) {
    page.put("<td>{}</td>", &[value]);
}

/// The cells of a machine's pool, owner and image.
pub(crate) fn put_names(page: &mut Page, machine: &Machine) {
    put_cell(page, Value::Text(machine.pool.text()));
    put_cell(page, Value::Text(or_dash(&machine.owner)));
    put_cell(page, Value::Text(or_dash(&machine.image)));
}

/// Addresses, a comma between each two.
pub(crate) fn put_addresses(page: &mut Page, interfaces: &[Interface]) {
    for (place, interface) in interfaces.iter().enumerate() {
        page.put(
            if place > 0 { ", {}" } else { "{}" },
            &[Value::Address(interface.mac.octets())],
        );
    }
}

/// The last cell of a row: the first addresses of a machine, and how many more it has.
pub(crate) fn end_row(page: &mut Page, interfaces: &[Interface]) {
    page.put("<td>", &[]);
    put_addresses(page, interfaces.get(..MAX_ADDRESSES).unwrap_or(interfaces));
    let more = interfaces.len().saturating_sub(MAX_ADDRESSES);
    if more > 0 {
        page.put(", {} more", &[Value::Number(more as u64)]);
    }
    page.put("</td>\n</tr>", &[]);
}

/// The end of a table.
pub(crate) fn end_table(page: &mut Page) {
    page.put("</tbody>\n</table>\n</div>\n", &[]);
}
