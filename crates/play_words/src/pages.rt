//! What requests are answered.
use cases::{CaseFault, Out, Played, number};
use hallview_pages::{Answer, Asked, Kind, answer_to};
use hallview_state::State;
use std::alloc::Global;

// What stands in a page between the beginning and the end that all pages have.
fn inner(text: &str) -> &str {
    let Some((_, text)) = text.split_once("<main>\n") else {
        return text;
    };
    match text.split_once("</main>") {
        Some((text, _)) => text,
        None => text,
    }
}

// The page's title, which stands before.
fn title(text: &str) -> &str {
    let Some((_, text)) = text.split_once("<title>") else {
        return "";
    };
    match text.split_once("</title>") {
        Some((text, _)) => text,
        None => text,
    }
}

// The section of a page with this name, or all that it shows.
fn section<'t>(alloc: Global, text: &'t str, name: &str) -> Result<&'t str, CaseFault> {
    let begin = format!(in alloc; "<section id=\"{name}\">\n")?;
    let Some((_, text)) = text.split_once(begin.as_str()) else {
        return Ok(text);
    };
    match text.split_once("</section>") {
        Some((text, _)) => Ok(text),
        None => Ok(text),
    }
}

fn show_body(alloc: Global, answer: &Answer, name: &str, out: &mut Out) -> Played {
    let Ok(text) = std::str::from_utf8(answer.body.as_slice()) else {
        out.line("octets");
        return Ok(());
    };
    if answer.kind == Kind::Html {
        out.line(title(text));
        out.push(section(alloc, inner(text), name)?);
    } else {
        out.push(text);
    }
    Ok(())
}

fn show_fields(alloc: Global, answer: &Answer, out: &mut Out) -> Played {
    let fields = answer.fields(alloc)?;
    for field in fields.as_slice() {
        let (name, value) = (field.name, field.value.as_str());
        out.show(format_args!("{name}: {value}"));
        out.line("");
    }
    Ok(())
}

/// What `AT TARGET [HOST]` is answered: its status, and of a page its title and what stands in `main`, or in one section of it.
pub(crate) fn show(kind: &str, state: &State, words: &str, out: &mut Out) -> Played {
    let alloc = out.alloc();
    let (now, words) = words.split_once(' ').ok_or(CaseFault::Form)?;
    let (name, words) = if kind == "part" {
        words.split_once(' ').ok_or(CaseFault::Form)?
    } else {
        ("", words)
    };
    let (target, host) = words.split_once(' ').unwrap_or((words, "127.0.0.1:8067"));
    let asked = Asked {
        method: if kind == "post" { "POST" } else { "GET" },
        target,
        host: if host == "-" { None } else { Some(host) },
        accept: if kind == "open" {
            Some("application/openmetrics-text; version=1.0.0")
        } else {
            None
        },
    };
    let named = String::from_str(alloc, "view.hall.example")?;
    let names = [named];
    let answer = answer_to(alloc, state, &names, number(now)?, &asked)?;
    let status = answer.status;
    out.show(format_args!("{status}"));
    out.line("");
    if kind == "fields" {
        return show_fields(alloc, &answer, out);
    }
    show_body(alloc, &answer, name, out)
}
