//! The completion of command lines for bash.
use crate::command_line::rows;
use crate::options::READING;
use command_rows::{CommandRow, OptionRow};
use hall_types::Status;
use hallctl_texts::Column;
use std::alloc::{AllocError, Global};

const HEAD: &str =
    "# Completion of hallctl's command lines for bash: hallctl completion > /etc/bash_completion.d/hallctl
_hallctl() {
    local word=${COMP_WORDS[COMP_CWORD]} command= options= values= i
    for ((i = 1; i < COMP_CWORD; i++)); do
        case ${COMP_WORDS[i]} in
            --desk | --token-file | --hall | --halls | --timeout) i=$((i + 1)) ;;
            -* | : | //*) ;;
            *) command=${COMP_WORDS[i]}; break ;;
        esac
    done
    case ${COMP_WORDS[COMP_CWORD - 1]} in
        --token-file | --halls | --keys | --new-token) return ;;
        --arch) values='bios uefi32 uefi64 arm64' ;;
        --role) values='admin user power' ;;
        --erase) values='none quick full' ;;
";

const AFTER_VALUES: &str = "    esac
    if [ -n \"$values\" ]; then
        COMPREPLY=($(compgen -W \"$values\" -- \"$word\"))
        return
    fi
    case $command in
";

const TAIL: &str = "    esac
    COMPREPLY=($(compgen -W \"$options\" -- \"$word\"))
}
complete -o default -F _hallctl hallctl
";

fn push_values(text: &mut String, options: &str, values: &str) -> Result<(), AllocError> {
    text.push_str("        ")?;
    text.push_str(options)?;
    text.push_str(") values='")?;
    text.push_str(values)?;
    text.push_str("' ;;\n")
}

fn push_word(words: &mut String, word: &str) -> Result<(), AllocError> {
    if !words.is_empty() {
        words.push(' ')?;
    }
    words.push_str(word)
}

// All statuses, with hyphens between the words of one.
fn statuses(alloc: Global) -> Result<String, AllocError> {
    let mut words = String::new(alloc);
    for status in Status::ALL.as_slice() {
        push_word(&mut words, status.text().replace(alloc, " ", "-")?.as_str())?;
    }
    Ok(words)
}

fn columns(alloc: Global) -> Result<String, AllocError> {
    let mut words = String::new(alloc);
    for column in Column::ALL.as_slice() {
        push_word(&mut words, column.name())?;
    }
    Ok(words)
}

fn push_options(text: &mut String, rows: &[&OptionRow]) -> Result<(), AllocError> {
    for row in rows.iter().filter(|row| !row.is_place()) {
        text.push_str(" --")?;
        text.push_str(row.name)?;
    }
    Ok(())
}

// The line of a command.
fn push_case(text: &mut String, row: &CommandRow) -> Result<(), AllocError> {
    text.push_str("        ")?;
    text.push_str(row.name)?;
    text.push_str(") options='--help")?;
    push_options(text, row.options)?;
    push_options(text, row.common)?;
    text.push_str("' ;;\n")
}

// The line of a command line that has no command yet.
fn push_front(text: &mut String, rows: &[CommandRow]) -> Result<(), AllocError> {
    text.push_str("        '') options='--help --version")?;
    push_options(text, &READING)?;
    for row in rows {
        text.push_str(" ")?;
        text.push_str(row.name)?;
    }
    text.push_str("' ;;\n")
}

/// A file for bash that completes commands and options, from the same rows as the command line.
pub fn completion(alloc: Global) -> Result<String, AllocError> {
    let rows = rows(alloc)?;
    let mut text = String::from_str(alloc, HEAD)?;
    push_values(
        &mut text,
        "--status | --for | --or",
        statuses(alloc)?.as_str(),
    )?;
    push_values(&mut text, "--sort | --columns", columns(alloc)?.as_str())?;
    text.push_str(AFTER_VALUES)?;
    push_front(&mut text, rows.as_slice())?;
    for row in rows.as_slice() {
        push_case(&mut text, row)?;
    }
    text.push_str(TAIL)?;
    Ok(text)
}
