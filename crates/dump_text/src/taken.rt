// What is next behind a line, and what the line completes.
ghost use Rattle.std.specs.Prelude.{◌≡◌, ◌≢◌, IfOk, IfSome, IfNone, IsSomeAnd, None, codes};
ghost use Rattle.dump_text.specs.Lines.{IsTitle, NamesNone, NamesTable, Takes, TakesNone, TakesPair};

use crate::form::Form;
use crate::items::item_of;
use crate::reader::{Next, Step, Table};
use config_text::table_formats;
use failure::NoMemory;
use item::{Formats, Item};
use std::alloc::Global;
use wt_code::Refusal;

// None where no such line stands there.
pub(crate) fn taken(
    alloc: Global,
    next: Next,
    line: &[u8],
) -> Result<Option<(Next, Step)>, NoMemory>
    ensures takes { IfOk result (λ r. IfSome r (λ p. Takes next line.now p.0 p.1)) }
    ensures none { IfOk result (λ r. IfNone r (TakesNone next line.now)) }
{
    match next {
        Next::Title => Ok(title(line)),
        Next::Form => Ok(form(line)),
        Next::Header(form) => Ok(header(form, line)),
        Next::Pair(form, found) => pair(alloc, form, found, line),
        Next::Skipped(form, found) => Ok(Some((Next::Pair(form, found), Step::More))),
        Next::Config(form, name) => config(alloc, form, name, line),
        Next::Key(form, formats) => key(alloc, form, formats, line),
        Next::Value(form, formats, key) => value(alloc, form, formats, key, line),
        Next::Over => Ok(None),
    }
}

fn title(line: &[u8]) -> Option<(Next, Step)>
    ensures takes { IfSome result (λ p. Takes Next.Title line.now p.0 p.1) }
    ensures none { IfNone result (TakesNone Next.Title line.now) }
{
    match line.strip_prefix(b"WiredTiger Dump".as_slice()) {
        Some(_) => Some((Next::Form, Step::More)),
        None => None,
    }
}

fn form(line: &[u8]) -> Option<(Next, Step)>
    ensures takes { IfSome result (λ p. Takes Next.Form line.now p.0 p.1) }
    ensures none { IfNone result (TakesNone Next.Form line.now) }
{
    if line == b"Format=print".as_slice() {
        return Some((Next::Header(Form::Print), Step::More));
    }
    if line == b"Format=hex".as_slice() {
        return Some((Next::Header(Form::Hex), Step::More));
    }
    None
}

fn header(form: Form, line: &[u8]) -> Option<(Next, Step)>
    ensures takes { IfSome result (λ p. Takes (Next.Header form) line.now p.0 p.1) }
    ensures none { IfNone result (TakesNone (Next.Header form) line.now) }
{
    if line == b"Header".as_slice() {
        Some((Next::Pair(form, None), Step::More))
    } else {
        None
    }
}

fn pair(
    alloc: Global,
    form: Form,
    found: Option<Table>,
    line: &[u8],
) -> Result<Option<(Next, Step)>, NoMemory>
    ensures takes { IfOk result (λ r. IfSome r (λ p. TakesPair form found line.now p.0 p.1)) }
    ensures none { IfOk result (λ r. IfNone r (TakesNone (Next.Pair form found) line.now)) }
{
    let is_data = line == b"Data".as_slice();
    match found {
        Some(table) if is_data => Ok(Some((Next::Key(form, table.formats), Step::Table(table)))),
        Some(table) => Ok(Some((Next::Skipped(form, Some(table)), Step::More))),
        None if is_data => Ok(None),
        None => first_pair(alloc, form, line),
    }
}

// The table that the first line of a pair names.
fn table_name(line: &[u8]) -> Option<&[u8]>
    ensures named { IfSome result (λ name. NamesTable name.now line.now) }
    ensures none { IfNone result (NamesNone line.now) }
{
    match line.strip_prefix(b"table:".as_slice()) {
        Some(name) => Some(name),
        None => line.strip_prefix(b"file:".as_slice()),
    }
}

// The first line of a pair where no pair before it counts.
fn first_pair(alloc: Global, form: Form, line: &[u8]) -> Result<Option<(Next, Step)>, NoMemory>
    requires { line.now ≢ codes "Data" }
    ensures { IfOk result (λ r. IsSomeAnd r (λ p. TakesPair form None line.now p.0 p.1)) }
{
    let next = match table_name(line) {
        Some(name) => Next::Config(form, Item::new(name.to_vec(alloc)?)),
        None => Next::Skipped(form, None),
    };
    Ok(Some((next, Step::More)))
}

fn config(
    alloc: Global,
    form: Form,
    name: Item,
    line: &[u8],
) -> Result<Option<(Next, Step)>, NoMemory>
    ensures takes { IfOk result (λ r. IfSome r (λ p. Takes (Next.Config form name) line.now p.0 p.1)) }
    ensures none { IfOk result (λ r. IfNone r (TakesNone (Next.Config form name) line.now)) }
{
    match table_formats(alloc, line) {
        Ok(formats) => {
            let table = Table { name, formats };
            Ok(Some((Next::Pair(form, Some(table)), Step::More)))
        }
        Err(refusal) => match refusal {
            Refusal::NoMemory => Err(NoMemory),
            _ => Ok(None),
        },
    }
}

fn key(
    alloc: Global,
    form: Form,
    formats: Formats,
    line: &[u8],
) -> Result<Option<(Next, Step)>, NoMemory>
    ensures takes { IfOk result (λ r. IfSome r (λ p. Takes (Next.Key form formats) line.now p.0 p.1)) }
    ensures none { IfOk result (λ r. IfNone r (TakesNone (Next.Key form formats) line.now)) }
{
    match item_of(alloc, form, formats.key, line)? {
        Some(key) => Ok(Some((Next::Value(form, formats, key), Step::Key))),
        None => Ok(None),
    }
}

fn value(
    alloc: Global,
    form: Form,
    formats: Formats,
    key: Item,
    line: &[u8],
) -> Result<Option<(Next, Step)>, NoMemory>
    ensures takes { IfOk result (λ r. IfSome r (λ p. Takes (Next.Value form formats key) line.now p.0 p.1)) }
    ensures none { IfOk result (λ r. IfNone r (TakesNone (Next.Value form formats key) line.now)) }
{
    match item_of(alloc, form, formats.value, line)? {
        Some(value) => Ok(Some((Next::Key(form, formats), Step::Row(key, value)))),
        None => Ok(None),
    }
}
