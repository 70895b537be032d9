//! The parser of a program's command lines, made of its rows.
use crate::rows::{CommandRow, Front, OptionRow, Shape};
use clap::{Arg, ArgAction, Command};
use std::alloc::{AllocError, Global};

// A value may begin with a hyphen.
fn named<'a>(alloc: Global, row: &OptionRow) -> Arg<'a> {
    Arg::new(alloc, row.name)
        .long(row.name)
        .help(row.help)
        .value_name(row.value)
        .action(ArgAction::Set)
        .allow_hyphen_values(true)
}

fn place<'a>(alloc: Global, row: &OptionRow) -> Arg<'a> {
    Arg::new(alloc, row.name)
        .help(row.help)
        .value_name(row.value)
        .action(ArgAction::Set)
        .required(true)
}

fn arg<'a>(alloc: Global, row: &OptionRow) -> Result<Arg<'a>, AllocError> {
    match row.shape {
        Shape::Always => Ok(named(alloc, row).required(true)),
        Shape::Maybe => Ok(named(alloc, row)),
        Shape::Unless(other) => named(alloc, row).required_unless_present(other),
        Shape::OrElse(value) => Ok(named(alloc, row).default_value(value)),
        Shape::Often => Ok(named(alloc, row).action(ArgAction::Append)),
        Shape::Flag => Ok(
            Arg::new(alloc, row.name)
                .long(row.name)
                .help(row.help)
                .action(ArgAction::SetTrue),
        ),
        Shape::Place => Ok(place(alloc, row)),
        Shape::Places => Ok(place(alloc, row).num_args(1..)),
    }
}

fn push_args<'a>(
    alloc: Global,
    args: &mut Vec<Arg<'a>>,
    rows: &[&OptionRow],
) -> Result<(), AllocError> {
    for row in rows {
        args.push(arg(alloc, row)?)?;
    }
    Ok(())
}

fn args_of<'a>(
    alloc: Global,
    own: &[&OptionRow],
    common: &[&OptionRow],
) -> Result<Vec<Arg<'a>>, AllocError> {
    let mut args = Vec::new(alloc);
    push_args(alloc, &mut args, own)?;
    push_args(alloc, &mut args, common)?;
    Ok(args)
}

fn command<'a>(alloc: Global, row: &CommandRow) -> Result<Command<'a>, AllocError> {
    let args = args_of(alloc, row.options, row.common)?;
    Command::new(alloc, row.name)
        .about(row.about)
        .after_help(row.example)
        .args(args)
}

fn commands<'a>(alloc: Global, rows: &[CommandRow]) -> Result<Vec<Command<'a>>, AllocError> {
    let mut commands = Vec::new(alloc);
    for row in rows {
        commands.push(command(alloc, row)?)?;
    }
    Ok(commands)
}

// The program without its commands.
fn program<'a>(alloc: Global, front: &Front<'_>) -> Result<Command<'a>, AllocError> {
    let args = args_of(alloc, front.options, &[])?;
    Command::new(alloc, front.name)
        .about(front.about)
        .after_help(front.after)
        .version(front.version)
        .subcommand_required(front.needs_command)
        .args(args)
}

/// The parser of a program's command lines.
pub(crate) fn parser<'a>(alloc: Global, front: &Front<'_>) -> Result<Command<'a>, AllocError> {
    let commands = commands(alloc, front.commands)?;
    program(alloc, front)?.subcommands(commands)
}
