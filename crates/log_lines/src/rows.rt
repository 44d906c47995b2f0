//! The rows of a summary, as a table or as objects of JSON.
ghost use Rattle.std.specs.Prelude.{◌≡◌, ◌++◌, flat_map, OnOk};
ghost use Rattle.log_lines.specs.Objects.{object_line};
ghost use Rattle.log_lines.specs.Rows.{row_members, row_objects, row_printed, row_text, rows_text, table_text};
ghost use Rattle.log_lines.specs.Table.{name_text, way_text, given_text, rest_text, row_line, row_with};

use crate::members::Member;
use crate::parts::{Part, put_blanks, put_each};
use log_courses::{ReasonCount, Row, Summary};
use log_fields::Iface;
use std::alloc::{AllocError, Global};
use text_digits::put_text;

/// How many characters a name has at most.
const NAME: usize = 15;

/// How rows are printed.
#[derive(Clone, Copy)]
pub(crate) enum Form {
    Table,
    Objects,
}

fn put_name(out: &mut Vec<u8>, iface: &Iface) -> Result<(), AllocError>
    ensures { OnOk result (out.new.items ≡ out.old.items ++ name_text iface.now) }
{
    let name = iface.name();
    out.extend_from_slice(name)?;
    put_blanks(out, NAME.saturating_sub(name.len()))
}

/// The columns that identify the row.
fn put_way(out: &mut Vec<u8>, row: &Row) -> Result<(), AllocError>
    ensures { OnOk result (out.new.items ≡ out.old.items ++ way_text row.now) }
{
    put_name(out, &row.iface)?;
    let parts = [
        Part::Text(" "),
        Part::Pgn(row.pgn),
        Part::Text("   "),
        Part::Address(row.from),
        Part::Text("   "),
        Part::Address(row.to),
    ];
    put_each(out, &parts)
}

/// The messages that were given, what was asked for again, and the share of so many frames.
fn put_numbers(out: &mut Vec<u8>, row: &Row, all: u64) -> Result<(), AllocError>
    ensures { OnOk result (out.new.items ≡ out.old.items ++ (given_text row.now ++ rest_text row.now all)) }
{
    let parts = [
        Part::Column(8, row.given),
        Part::Column(10, row.bytes),
        Part::Column(10, row.mean()),
        Part::Column(10, row.longest),
        Part::Column(6, row.again),
        Part::Column(6, row.share(all)),
        Part::Text("\n"),
    ];
    put_each(out, &parts)
}

#[tactic(auto, unfolding(crate::specs::Table::row_line))]
fn put_line(out: &mut Vec<u8>, row: &Row, all: u64) -> Result<(), AllocError>
    ensures { OnOk result (out.new.items ≡ out.old.items ++ row_line row.now all) }
{
    put_way(out, row)?;
    put_numbers(out, row, all)
}

/// The lines of a row.
fn put_lines(
    out: &mut Vec<u8>,
    row: &Row,
    aborts: &[ReasonCount],
    lost: &[ReasonCount],
    all: u64,
) -> Result<(), AllocError>
    ensures { OnOk result (out.new.items ≡ out.old.items ++ row_with row.now aborts.now lost.now all) }
{
    put_line(out, row, all)?;
    put_each(out, aborts)?;
    put_each(out, lost)
}

/// The object of a row.
fn put_object<'a>(
    out: &mut Vec<u8>,
    row: &'a Row,
    aborts: &'a [ReasonCount],
    lost: &'a [ReasonCount],
    all: u64,
) -> Result<(), AllocError>
    ensures { OnOk result (out.new.items ≡ out.old.items ++ object_line (row_members row.now aborts.now lost.now all)) }
{
    let members = [
        Member::Counts("{\"aborts\":", aborts),
        Member::Number(",\"again\":", row.again),
        Member::Number(",\"bytes\":", row.bytes),
        Member::Number(",\"frames\":", row.frames),
        Member::Address(",\"from\":", row.from),
        Member::Number(",\"given\":", row.given),
        Member::Interface(row.iface),
        Member::Number(",\"kind\":\"summary\",\"longest\":", row.longest),
        Member::Counts(",\"losses\":", lost),
        Member::Mean(row),
        Member::Pgn(row.pgn),
        Member::Share(row, all),
        Member::Address(",\"to\":", row.to),
        Member::Text("}\n"),
    ];
    put_each(out, &members)
}

fn put_printed<'a>(
    out: &mut Vec<u8>,
    form: Form,
    row: &'a Row,
    aborts: &'a [ReasonCount],
    lost: &'a [ReasonCount],
    all: u64,
) -> Result<(), AllocError>
    ensures { OnOk result (out.new.items ≡ out.old.items ++ row_printed form row.now aborts.now lost.now all) }
{
    match form {
        Form::Table => put_lines(out, row, aborts, lost, all),
        Form::Objects => put_object(out, row, aborts, lost, all),
    }
}

#[tactic(auto, unfolding(crate::specs::Rows::row_text))]
fn put_row(
    alloc: Global,
    out: &mut Vec<u8>,
    form: Form,
    summary: &Summary,
    row: &Row,
) -> Result<(), AllocError>
    ensures { OnOk result (out.new.items ≡ out.old.items ++ row_text form summary.now row.now) }
{
    let aborts = summary.aborts(alloc, row)?;
    let lost = row.lost(alloc)?;
    let all = summary.frames_on(row.iface);
    put_printed(out, form, row, aborts.as_slice(), lost.as_slice(), all)
}

fn put_all(
    alloc: Global,
    out: &mut Vec<u8>,
    form: Form,
    summary: &Summary,
    rows: &[Row],
) -> Result<(), AllocError>
    ensures { OnOk result (out.new.items ≡ out.old.items ++ flat_map (row_text form summary.now) rows.now) }
{
    for row in rows {
        put_row(alloc, out, form, summary, row)?;
    }
    Ok(())
}

#[tactic(auto, unfolding(crate::specs::Rows::rows_text))]
fn put_rows(
    alloc: Global,
    out: &mut Vec<u8>,
    form: Form,
    summary: &Summary,
) -> Result<(), AllocError>
    ensures { OnOk result (out.new.items ≡ out.old.items ++ rows_text form summary.now) }
{
    let rows = summary.rows(alloc)?;
    put_all(alloc, out, form, summary, rows.as_slice())
}

/// An object for each row.
pub fn put_row_objects(
    alloc: Global,
    out: &mut Vec<u8>,
    summary: &Summary,
) -> Result<(), AllocError>
    ensures { OnOk result (out.new.items ≡ out.old.items ++ row_objects summary.now) }
{
    put_rows(alloc, out, Form::Objects, summary)
}

/// A line that names the columns, and the lines of each row.
pub fn put_table(alloc: Global, out: &mut Vec<u8>, summary: &Summary) -> Result<(), AllocError>
    ensures { OnOk result (out.new.items ≡ out.old.items ++ table_text summary.now) }
{
    put_text(
        out,
        "interface         pgn from   to    given      bytes       mean    longest  again  share\n",
    )?;
    put_rows(alloc, out, Form::Table, summary)
}
