//! Parts of the commands and their arguments. These are small functions, some of them generic: at each step of a function the
//! check weighs every value that the function holds, and those of `clap` are large. Arguments are rows of a table for the same reason.
use clap::builder::ValueParser;
use clap::{Arg, ArgAction, ArgMatches, Command, value_parser};
use std::alloc::{AllocError, Global};

/// What help says of the script.
pub(crate) const SCRIPT: &str = "Script, - for standard input [default: -]";

/// How an argument is written.
#[derive(Clone, Copy)]
pub(crate) enum Form {
    /// As `--` and its name.
    Flag,
    /// As `--`, its name and a value.
    Value,
    /// So any number of times.
    Values,
    /// As `--`, its name and a number from the first to the second.
    Number(i64, i64),
    /// As `--`, its name and a number of 32 bits from 1 to this one.
    Size(i64),
    /// As a flag that is refused without `--log`.
    LogFlag,
    /// As `--`, its name and a value, and refused without `--log`.
    LogValue,
    /// As a value alone.
    Alone,
    /// As a value alone, which must be there.
    Required,
    /// As values alone.
    Several,
}

/// An argument of a command.
#[derive(Clone, Copy)]
pub(crate) struct Row<'a> {
    pub(crate) form: Form,
    pub(crate) name: &'a str,
    /// What the help calls its value; empty for a flag.
    pub(crate) value: &'a str,
    /// What the help says of it.
    pub(crate) help: &'a str,
}

/// An argument that is written as `--` and its name.
fn named<'a>(alloc: Global, row: &Row<'a>, action: ArgAction) -> Arg<'a> {
    Arg::new(alloc, row.name)
        .long(row.name)
        .help(row.help)
        .action(action)
}

/// An argument with a value.
fn valued<'a>(alloc: Global, row: &Row<'a>, action: ArgAction) -> Arg<'a> {
    named(alloc, row, action).value_name(row.value)
}

/// An argument that is written as a value alone.
fn alone<'a>(alloc: Global, row: &Row<'a>) -> Arg<'a> {
    Arg::new(alloc, row.name)
        .value_name(row.value)
        .help(row.help)
}

/// An argument whose values are these numbers.
fn within<'a>(arg: Arg<'a>, numbers: ValueParser<'a>) -> Arg<'a> {
    arg.value_parser(numbers)
}

/// An argument whose value is a number of 64 bits from `least` to `most`.
fn number<'a>(alloc: Global, row: &Row<'a>, least: i64, most: i64) -> Arg<'a> {
    let numbers = value_parser!(u64).range(least..=most);
    within(valued(alloc, row, ArgAction::Set), numbers)
}

/// An argument whose value is a number of 32 bits from 1 to `most`.
fn size<'a>(alloc: Global, row: &Row<'a>, most: i64) -> Arg<'a> {
    let numbers = value_parser!(u32).range(1..=most);
    within(valued(alloc, row, ArgAction::Set), numbers)
}

/// The argument of a row.
fn argument<'a>(alloc: Global, row: &Row<'a>) -> Result<Arg<'a>, AllocError> {
    match row.form {
        Form::Flag => Ok(named(alloc, row, ArgAction::SetTrue)),
        Form::Value => Ok(valued(alloc, row, ArgAction::Set)),
        Form::Values => Ok(valued(alloc, row, ArgAction::Append)),
        Form::Number(least, most) => Ok(number(alloc, row, least, most)),
        Form::Size(most) => Ok(size(alloc, row, most)),
        Form::LogFlag => named(alloc, row, ArgAction::SetTrue).requires_arg("log"),
        Form::LogValue => valued(alloc, row, ArgAction::Set).requires_arg("log"),
        Form::Alone => Ok(alone(alloc, row)),
        Form::Required => Ok(alone(alloc, row).required(true)),
        Form::Several => Ok(alone(alloc, row).action(ArgAction::Append)),
    }
}

/// Puts one more at the end of a list.
pub(crate) fn put<T: Drop>(
    list: &mut Vec<T>,
    part: Result<T, AllocError>,
) -> Result<(), AllocError> {
    list.push(part?)?;
    Ok(())
}

/// Puts the arguments of rows, in their order.
fn put_arguments<'a>(
    alloc: Global,
    arguments: &mut Vec<Arg<'a>>,
    rows: &[Row<'a>],
) -> Result<(), AllocError> {
    for row in rows {
        put(arguments, argument(alloc, row))?;
    }
    Ok(())
}

/// A command with the arguments of rows, and what its help begins and ends with.
pub(crate) fn described<'a>(
    alloc: Global,
    name: &'a str,
    about: &'a str,
    help: &'a str,
    rows: &[Row<'a>],
) -> Result<Command<'a>, AllocError> {
    let mut arguments = Vec::new(alloc);
    put_arguments(alloc, &mut arguments, rows)?;
    Command::new(alloc, name)
        .about(about)
        .after_help(help)
        .args(arguments)
}

/// The files that were named.
pub(crate) fn names(alloc: Global, matches: &ArgMatches) -> Result<Vec<String>, AllocError> {
    let mut names = Vec::new(alloc);
    for word in matches.get_strs("files").unwrap_or(&[]) {
        names.push(String::from_str(alloc, *word)?)?;
    }
    Ok(names)
}
