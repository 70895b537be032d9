//! What the program says at standard error: in words, or as an object of JSON where the log stands there in JSON, so that each line of it is
//! one. A stream that takes no octets now isn't waited for.
use crate::outlet::{Outlet, Text};
use crate::stamps::now;
use desk_lines::stamped;
use hall_report::{Fault, LogFormat};

/// An object that says what happened, with a line feed.
pub(crate) fn object(rt: &HostRuntime, action: &str, fault: Option<Fault>, words: &str) -> Text {
    let mut members = stamped(rt.alloc(), now(rt));
    members.push_text("event.action", action);
    if let Some(fault) = fault {
        members.push_text("error.code", fault.name());
    }
    members.push_text("message", words);
    members.into_line()
}

fn write(rt: &HostRuntime, line: Text) {
    if let Ok(mut outlet) = Outlet::at(rt, "-", LogFormat::Seconds) {
        outlet.write(rt.alloc(), None, line);
    }
}

/// Says something.
pub fn tell(rt: &HostRuntime, is_json: bool, words: Text) {
    let line = words.and_then(|words| {
        if is_json {
            return object(rt, "notice", None, words.as_str());
        }
        format!(in rt.alloc(); "hallboot: {words}\n")
    });
    write(rt, line);
}

// The name of a fault, and why it came, if that is said.
fn fault_words(rt: &HostRuntime, fault: Fault, reason: Option<&str>) -> Text {
    let name = fault.name();
    match reason {
        Some(reason) => format!(in rt.alloc(); "{name}: {reason}"),
        None => String::from_str(rt.alloc(), name),
    }
}

/// Says by which fault the program ends, and why, as an object.
pub fn tell_of_fault(rt: &HostRuntime, fault: Fault, reason: Option<&str>) {
    let words = fault_words(rt, fault, reason);
    let line = words.and_then(|words| object(rt, "fault", Some(fault), words.as_str()));
    write(rt, line);
}
