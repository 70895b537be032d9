//! What hallctl prints of answers.
use crate::stage::MOMENT;
use crate::words::{line_of, words_of};
use cases::{CaseFault, Out, Played};
use hall_events::HallCommand;
use hall_types::Status;
use hallctl_texts::{
    AnswerFault, DeskAnswer, Question, chosen, deleted_line, desk_answer, done_line, is_dangerous,
    listed, machine_ids, machine_json, machine_lines, machine_table, machine_with, order_table,
    refusal_line, state_line, value_of, warning, with_version,
};
use hallctl_words::{Form, Listing, MachineList, Wish};
use serde_json::Value;
use std::alloc::Global;

type Text = Result<String, AnswerFault>;

// The two parts of an act.
fn parts(text: &str) -> Result<(&str, &str), CaseFault> {
    text.split_once(" | ").ok_or(CaseFault::Form)
}

fn value_in(alloc: Global, json: &str) -> Result<Value, AnswerFault> {
    value_of(alloc, json.as_bytes())?.ok_or(AnswerFault::NotTheDesk)
}

fn show(text: Text, out: &mut Out) -> Played {
    match text {
        Ok(text) => out.push(text.as_str()),
        Err(AnswerFault::NotTheDesk) => out.push("fault NotTheDesk"),
        Err(AnswerFault::Memory) => return Err(CaseFault::Memory),
    }
    Ok(())
}

fn machines_text(alloc: Global, wanted: &MachineList<'_>, list: &Value) -> Text {
    let machines = chosen(alloc, list, &wanted.choice)?;
    let machines = machines.as_slice();
    match wanted.form {
        Form::Table => machine_table(alloc, machines, wanted.columns.as_slice(), Some(MOMENT)),
        Form::Json => Ok(machine_json(alloc, machines)?),
        Form::Ids => machine_ids(alloc, machines),
    }
}

fn list_text(alloc: Global, wish: &Wish<'_>, json: &str) -> Text {
    let list = value_in(alloc, json)?;
    match wish {
        Wish::List(Listing::Machines(wanted)) => machines_text(alloc, wanted, &list),
        _ => order_table(alloc, &list),
    }
}

// What `machines` or `orders` prints.
fn show_list(words: &str, json: &str, out: &mut Out) -> Played {
    let words = words_of(out.alloc(), "hallctl", words)?;
    let line = line_of(out.alloc(), words.as_slice())?;
    show(list_text(out.alloc(), &line.wish, json), out)
}

// The members of one machine.
fn lines_text(alloc: Global, machine: &str, json: &str) -> Text {
    let answer = value_in(alloc, json)?;
    let object = match machine.parse() {
        Ok(address) => machine_with(&answer, address)?,
        Err(_) => Some(&answer),
    };
    match object {
        Some(object) => machine_lines(alloc, object, Some(MOMENT)),
        None => Ok(String::from_str(alloc, "none")?),
    }
}

// The one command that a command line sends.
fn command_of(alloc: Global, words: &str) -> Result<HallCommand, CaseFault> {
    let words = words_of(alloc, "hallctl", words)?;
    match line_of(alloc, words.as_slice())?.wish {
        Wish::Change(mut commands) => commands.pop().ok_or(CaseFault::Form),
        _ => Err(CaseFault::Form),
    }
}

// Without a command the machines were asked for.
fn answer_text(
    alloc: Global,
    command: Option<&HallCommand>,
    before: Option<Status>,
    (status, body): (u16, &str),
) -> Text {
    let question = match command {
        Some(command) => Question::Command(command),
        None => Question::Machines,
    };
    let said = desk_answer(alloc, &question, status, body)?.ok_or(AnswerFault::NotTheDesk)?;
    Ok(match (&said, command) {
        (DeskAnswer::Done, Some(command)) => done_line(alloc, command)?,
        (DeskAnswer::Deleted(machine), _) => deleted_line(alloc, *machine)?,
        (DeskAnswer::Machine(state), _) => state_line(alloc, before, state)?,
        (DeskAnswer::Refused(refusal), _) => refusal_line(alloc, command, *refusal)?,
        _ => String::from_str(alloc, "listed")?,
    })
}

// What a command changed, or why it was refused.
fn show_answer(words: &str, before: &str, answer: &str, out: &mut Out) -> Played {
    let (status, body) = answer.split_once(' ').ok_or(CaseFault::Form)?;
    let answer = (status.parse::<u16>().map_err(|_| CaseFault::Form)?, body);
    let command = match words {
        "-" => None,
        _ => Some(command_of(out.alloc(), words)?),
    };
    let said = answer_text(out.alloc(), command.as_ref(), before.parse().ok(), answer);
    show(said, out)
}

// What a command will do, and the command as it is sent.
fn warning_text(alloc: Global, command: HallCommand, json: &str) -> Text {
    let machine = listed(&value_in(alloc, json)?)?;
    let line = match warning(alloc, &command, &machine)? {
        Some(line) if is_dangerous(&command) => line,
        None if !is_dangerous(&command) => String::from_str(alloc, "safe")?,
        _ => String::from_str(alloc, "warned where nothing is dangerous")?,
    };
    let text = with_version(command, machine.version).text(alloc)?;
    Ok(format!(in alloc; "{line}; {text}")?)
}

/// What hallctl prints, by an act of this kind.
pub(crate) fn show_text(kind: &str, text: &str, out: &mut Out) -> Played {
    let (words, rest) = parts(text)?;
    match kind {
        "list" => show_list(words, rest, out),
        "lines" => show(lines_text(out.alloc(), words, rest), out),
        "answer" => {
            let (before, answer) = parts(rest)?;
            show_answer(words, before, answer, out)
        }
        "refusal" => show_answer(words, "-", rest, out),
        _ => {
            let command = command_of(out.alloc(), words)?;
            show(warning_text(out.alloc(), command, rest), out)
        }
    }
}
