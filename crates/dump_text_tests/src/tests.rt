// Dumps as they are written, and what is read of texts.
use dump_text::{DumpReader, Dumped, Form, Step, dump_head, push_row, read_dump};
use item::{Format, Formats, Item, escape};
use std::alloc::Global;
use std::process::Abort;
use std::test::*;
use wt_code::{Refusal, text_of};

const TEXTS: Formats = Formats {
    key: Format::S,
    value: Format::S,
};

const BYTES: Formats = Formats {
    key: Format::U,
    value: Format::U,
};

fn item(alloc: Global, bytes: &[u8]) -> Result<Item, Fail> {
    Ok(Item::new(bytes.to_vec(alloc)?))
}

fn written(
    alloc: Global,
    form: Form,
    formats: Formats,
    rows: &[(&[u8], &[u8])],
) -> Result<Vec<u8>, Fail> {
    let mut out = dump_head(alloc, form, b"t", formats)?;
    for (key, value) in rows {
        push_row(
            alloc,
            &mut out,
            form,
            &item(alloc, key)?,
            &item(alloc, value)?,
        )?;
    }
    Ok(out)
}

fn push_item(alloc: Global, out: &mut Vec<u8>, item: &Item) -> Result<(), Fail> {
    out.extend_from_slice(b" ")?;
    out.extend_from_slice(&escape(alloc, item)?)?;
    Ok(())
}

// The table and the rows that a text tells, or the words of its refusal.
fn read(alloc: Global, text: &str) -> Result<Vec<u8>, Fail> {
    let mut out = Vec::new(alloc);
    let mut reader = DumpReader::new();
    for line in text.lines() {
        match reader.line(alloc, line.as_bytes()) {
            Err(refusal) => return told(alloc, &refusal),
            Ok(step) => push_step(alloc, &mut out, step)?,
        }
    }
    match reader.finish() {
        Err(refusal) => told(alloc, &refusal),
        Ok(()) => Ok(out),
    }
}

// The same of the text as a whole, which is all of its input or is not.
fn read_all(rt: &impl Abort, alloc: Global, text: &[u8], ended: bool) -> Result<Vec<u8>, Fail> {
    assert!(rt; text.len() < 1 << 30);
    assert!(rt; ended || !text.is_empty());
    let (table, mut rows) = match read_dump(alloc, text, ended) {
        Err(refusal) => return told(alloc, &refusal),
        Ok(Dumped { table, rows }) => (table, rows),
    };
    let mut out = Vec::new(alloc);
    push_item(alloc, &mut out, &table.name)?;
    while let Some((key, value)) = rows.next(alloc)? {
        push_item(alloc, &mut out, &key)?;
        push_item(alloc, &mut out, &value)?;
    }
    Ok(out)
}

fn told(alloc: Global, refusal: &Refusal) -> Result<Vec<u8>, Fail> {
    Ok(text_of(alloc, refusal)?.into_bytes())
}

fn push_step(alloc: Global, out: &mut Vec<u8>, step: Step) -> Result<(), Fail> {
    match step {
        Step::More | Step::Key => Ok(()),
        Step::Table(table) => push_item(alloc, out, &table.name),
        Step::Row(key, value) => {
            push_item(alloc, out, &key)?;
            push_item(alloc, out, &value)
        }
    }
}

#[test]
fn a_dump_is_written_line_by_line(rt: HostRuntime) -> Result<(), Fail> {
    let row: [(&[u8], &[u8]); 1] = [(b"k\\\0", b"\n\0")];
    let printed = written(rt.alloc(), Form::Print, TEXTS, &row)?;
    assert_eq!(rt;
        printed.as_slice(),
        b"WiredTiger Dump (row store 1)\nFormat=print\nHeader\ntable:t\nkey_format=S,value_format=S\nData\nk\\\\\\00\n\\0a\\00\n".as_slice()
    );
    let hex = written(rt.alloc(), Form::Hex, TEXTS, &row)?;
    assert_eq!(rt;
        hex.as_slice(),
        b"WiredTiger Dump (row store 1)\nFormat=hex\nHeader\ntable:t\nkey_format=S,value_format=S\nData\n6b5c00\n0a00\n".as_slice()
    );
    let two: [(&[u8], &[u8]); 2] = [(b"b\0", b"2\0"), (b"a\0", b"1\0")];
    let printed = written(rt.alloc(), Form::Print, TEXTS, &two)?;
    assert!(rt;
        printed
            .as_slice()
            .ends_with(b"\nData\nb\\00\n2\\00\na\\00\n1\\00\n".as_slice())
    );
    Ok(())
}

#[test]
fn texts_are_read_or_refused_at_their_line(rt: HostRuntime) -> Result<(), Fail> {
    let rows = [
        ("", "22 text at line 1"),
        ("WiredTiger Dump\n", "22 text at line 2"),
        ("WiredTiger Dump\nFormat=hex\n", "22 text at line 3"),
        (
            "WiredTiger Dump\nFormat=print\nHeader\n",
            "22 text at line 4",
        ),
        (
            "WiredTiger Dump\nFormat=print\nHeader\ntable:t\n",
            "22 text at line 5",
        ),
        (
            "WiredTiger Dump\nFormat=print\nHeader\ntable:t\n\n",
            "22 text at line 6",
        ),
        (
            "WiredTiger Dump\nFormat=print\nHeader\ntable:t\n\nData\n",
            " t",
        ),
        (
            "WiredTiger Dump\nFormat=print\nHeader\ntable:t\n\nData",
            " t",
        ),
        (
            "WiredTiger Dump (row store 1)\nFormat=print\nHeader\ntable:t\nkey_format=S,value_format=S\nData\na\\00\n",
            "22 text at line 8",
        ),
        (
            "WiredTiger Dump (WiredTiger Version 10.0.0)\nFormat=print\nHeader\ntable:t\napp_metadata=,colgroups=,key_format=S,value_format=S\ncolgroup:t\nsource=\"file:t.wt\",type=file\nData\na\\00\n1\\00\n",
            " t a\\00 1\\00",
        ),
        (
            "WiredTiger Dump (WiredTiger Version 10.0.0)\nFormat=print\nHeader\ntable:t\napp_metadata=,colgroups=,key_format=S,value_format=S\nData\na\\00\n1\\00",
            " t a\\00 1\\00",
        ),
        (
            "WiredTiger Dump\nFormat=print\nHeader\ncolgroup:t\n(\nfile:a\n\ntable:b\n(\nData\n",
            " a",
        ),
        (
            "WiredTiger Dump\nFormat=print\nHeader\nx\nData\nfile:a\n\nData\nData\nHeader\n",
            " a Data Header",
        ),
        (
            "WiredTiger Dump\nFormat=print\nHeader\nData\n",
            "22 text at line 4",
        ),
        (
            "WiredTiger Dump\nFormat=print\nHeader\nx\ny\nData\n",
            "22 text at line 6",
        ),
        (
            "WiredTiger Dump\nFormat=print\nHeader\ntable:t\nkey_format=Q\nData\n",
            "22 text at line 5",
        ),
        (
            "WiredTiger Dump\nFormat=print\nHeader\ntable:t\nkey_format=(S\nData\n",
            "22 text at line 5",
        ),
        ("WiredTiger\nFormat=print\n", "22 text at line 1"),
        ("WiredTiger Dump\nFormat=Print\n", "22 text at line 2"),
        ("WiredTiger Dump\nFormat=json\n", "22 text at line 2"),
        (
            "WiredTiger Dump\nFormat=print\nHeaders\n",
            "22 text at line 3",
        ),
        (
            "WiredTiger Dump\nFormat=print\nHeader\ntable:t\nkey_format=S\nData\na\n",
            "22 text at line 7",
        ),
        (
            "WiredTiger Dump\nFormat=print\nHeader\ntable:t\nvalue_format=S\nData\na\nb\n",
            "22 text at line 8",
        ),
        (
            "WiredTiger Dump\nFormat=print\nHeader\ntable:t\nkey_format=S\nData\n\n",
            "22 text at line 7",
        ),
        (
            "WiredTiger Dump\nFormat=print\nHeader\ntable:t\n\nData\na\\\n",
            "22 text at line 7",
        ),
        (
            "WiredTiger Dump\nFormat=hex\nHeader\ntable:t\n\nData\n6b5\n",
            "22 text at line 7",
        ),
        (
            "WiredTiger Dump\nFormat=hex\nHeader\ntable:t\n\nData\n6b5C\n0x\n",
            "22 text at line 8",
        ),
        (
            "WiredTiger Dump\nFormat=hex\nHeader\ntable:t\n\nData\n6b5C\n0A\n",
            " t k\\\\ \\0a",
        ),
        (
            "WiredTiger Dump\nFormat=hex\nHeader\ntable:t\nkey_format=S\nData\n6b\n00\n",
            "22 text at line 7",
        ),
        (
            "WiredTiger Dump\nFormat=hex\nHeader\ntable:t\nkey_format=S\nData\n6b00\n\n",
            " t k\\00 ",
        ),
        (
            "WiredTiger Dump\nFormat=print\nHeader\ntable:t\n\nData\n\n\n",
            " t  ",
        ),
        (
            "WiredTiger Dump\nFormat=print\nHeader\ntable:t\n\nData\n\n",
            "22 text at line 8",
        ),
    ];
    for (text, expected) in rows {
        assert_eq!(rt; read(rt.alloc(), text)?.as_slice(), expected.as_bytes());
        let all = read_all(&rt, rt.alloc(), text.as_bytes(), true)?;
        assert_eq!(rt; all.as_slice(), expected.as_bytes());
    }
    Ok(())
}

#[test]
fn a_text_that_goes_on_is_refused_at_its_last_line_or_before(rt: HostRuntime) -> Result<(), Fail> {
    let rows = [
        ("W", "22 text at line 1"),
        ("WiredTiger Dump", "22 text at line 1"),
        ("WiredTiger Dump\n", "22 text at line 1"),
        ("WiredTiger Dump\nFormat=", "22 text at line 2"),
        (
            "WiredTiger Dump\nFormat=json\nHeader\n",
            "22 text at line 2",
        ),
        (
            "WiredTiger Dump\nFormat=print\nHeader\ntable:t\n\nData\na\nb\n",
            "22 text at line 8",
        ),
    ];
    for (text, expected) in rows {
        let all = read_all(&rt, rt.alloc(), text.as_bytes(), false)?;
        assert_eq!(rt; all.as_slice(), expected.as_bytes());
    }
    Ok(())
}

#[test]
fn all_bytes_go_through_both_forms(rt: HostRuntime) -> Result<(), Fail> {
    let mut bytes = Vec::new(rt.alloc());
    for b in 0..=255u8 {
        bytes.extend_from_slice(&[b])?;
    }
    let every = Item::new(bytes);
    let mut expected = Vec::new(rt.alloc());
    expected.extend_from_slice(b" t ")?;
    expected.extend_from_slice(&escape(rt.alloc(), &every)?)?;
    expected.extend_from_slice(b" ")?;
    for form in [Form::Print, Form::Hex] {
        let mut out = dump_head(rt.alloc(), form, b"t", BYTES)?;
        push_row(rt.alloc(), &mut out, form, &every, &item(rt.alloc(), b"")?)?;
        let text = String::from_utf8_lossy(rt.alloc(), out.as_slice())?;
        assert_eq!(rt;
            read(rt.alloc(), text.as_str())?.as_slice(),
            expected.as_slice()
        );
        let all = read_all(&rt, rt.alloc(), out.as_slice(), true)?;
        assert_eq!(rt; all.as_slice(), expected.as_slice());
    }
    Ok(())
}
