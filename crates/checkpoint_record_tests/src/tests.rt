ghost use Rattle.std.specs.Prelude.{◌≡◌, IfOk};

use checkpoint_record::*;
use std::alloc::{AllocError, Global};
use std::process::Abort;
use std::test::*;

// One table, `t`, and nothing else: the record of the worked device.
const ONE: [u8; 160] = [
    0x05, 0x01, 0x01, 0x00, 0xa0, 0x00, 0x00, 0x00, 0x00, 0x00, 0x00, 0x00, 0x00, 0x00, 0x00, 0x00,
    0x01, 0x00, 0x00, 0x00, 0x00, 0x00, 0x00, 0x00, 0x01, 0x00, 0x00, 0x00, 0x00, 0x00, 0x00, 0x00,
    0x00, 0x00, 0x00, 0x00, 0x00, 0x00, 0x00, 0x00, 0x00, 0x00, 0x00, 0x00, 0x00, 0x00, 0x00, 0x00,
    0x01, 0x00, 0x00, 0x00, 0x00, 0x00, 0x00, 0x00, 0x01, 0x00, 0x00, 0x00, 0x00, 0x00, 0x00, 0x00,
    0x00, 0x00, 0x02, 0x00, 0x00, 0x00, 0x00, 0x00, 0x00, 0x00, 0x00, 0x00, 0x00, 0x00, 0x00, 0x00,
    0x00, 0x00, 0x00, 0x00, 0x00, 0x00, 0x00, 0x00, 0x00, 0x00, 0x00, 0x00, 0x00, 0x00, 0x00, 0x00,
    0x00, 0x00, 0x00, 0x00, 0x00, 0x00, 0x00, 0x00, 0x00, 0x00, 0x00, 0x00, 0x00, 0x00, 0x00, 0x01,
    0x00, 0x00, 0x00, 0x53, 0x53, 0x00, 0x01, 0x00, 0x00, 0x00, 0x00, 0x00, 0x00, 0x00, 0x00, 0x00,
    0x00, 0x00, 0x00, 0x00, 0x00, 0x00, 0x00, 0x00, 0x00, 0x00, 0x00, 0x00, 0x00, 0x00, 0x00, 0x00,
    0x00, 0x00, 0x00, 0x00, 0x00, 0x00, 0x00, 0x00, 0x00, 0x00, 0x00, 0x00, 0x00, 0x00, 0x00, 0x74,
];

// Two tables, three ids and a history.
const TWO: [u8; 234] = [
    // 0: kind 5, format 1, two tables, used 234, level 0
    0x05, 0x01, 0x02, 0x00, 0xea, 0x00, 0x00, 0x00, 0x00, 0x00, 0x00, 0x00, 0x00, 0x00, 0x00, 0x00,
    // 16: sequence 9, run 3
    0x09, 0x00, 0x00, 0x00, 0x00, 0x00, 0x00, 0x00, 0x03, 0x00, 0x00, 0x00, 0x00, 0x00, 0x00, 0x00,
    // 32: oldest 10, stable 20
    0x0a, 0x00, 0x00, 0x00, 0x00, 0x00, 0x00, 0x00, 0x14, 0x00, 0x00, 0x00, 0x00, 0x00, 0x00, 0x00,
    // 48: snapshot min 5, max 12
    0x05, 0x00, 0x00, 0x00, 0x00, 0x00, 0x00, 0x00, 0x0c, 0x00, 0x00, 0x00, 0x00, 0x00, 0x00, 0x00,
    // 64: three ids: 5, 7, 11
    0x03, 0x00, 0x05, 0x00, 0x00, 0x00, 0x00, 0x00, 0x00, 0x00, 0x07, 0x00, 0x00, 0x00, 0x00, 0x00,
    0x00, 0x00, 0x0b, 0x00, 0x00, 0x00, 0x00, 0x00, 0x00, 0x00,
    // 90: the next table's number is 7; the history has level 1
    0x07, 0x00, 0x00, 0x00, 0x01,
    // 95: offset 12,288, size 4,096, sum 01020304, run 2, id 256, durable 20
    0x00, 0x30, 0x00, 0x00, 0x00, 0x00, 0x00, 0x00, 0x00, 0x10, 0x00, 0x00, 0x04, 0x03, 0x02, 0x01,
    0x02, 0x00, 0x00, 0x00, 0x00, 0x00, 0x00, 0x00, 0x00, 0x01, 0x00, 0x00, 0x00, 0x00, 0x00, 0x00,
    0x14, 0x00, 0x00, 0x00, 0x00, 0x00, 0x00, 0x00,
    // 135: table 4, keys S, values u, level 0, a name of 1 byte
    0x04, 0x00, 0x00, 0x00, 0x53, 0x75, 0x00, 0x01,
    // 143: offset 16,384, size 8,192, sum 5, run 1, id 3, durable 0
    0x00, 0x40, 0x00, 0x00, 0x00, 0x00, 0x00, 0x00, 0x00, 0x20, 0x00, 0x00, 0x05, 0x00, 0x00, 0x00,
    0x01, 0x00, 0x00, 0x00, 0x00, 0x00, 0x00, 0x00, 0x03, 0x00, 0x00, 0x00, 0x00, 0x00, 0x00, 0x00,
    0x00, 0x00, 0x00, 0x00, 0x00, 0x00, 0x00, 0x00,
    // 183: a
    0x61,
    // 184: table 2, keys u, values u, level 2, a name of 2 bytes
    0x02, 0x00, 0x00, 0x00, 0x75, 0x75, 0x02, 0x02,
    // 192: offset 24,576, size 4,096, sum 6, run 3, id 11, durable 19
    0x00, 0x60, 0x00, 0x00, 0x00, 0x00, 0x00, 0x00, 0x00, 0x10, 0x00, 0x00, 0x06, 0x00, 0x00, 0x00,
    0x03, 0x00, 0x00, 0x00, 0x00, 0x00, 0x00, 0x00, 0x0b, 0x00, 0x00, 0x00, 0x00, 0x00, 0x00, 0x00,
    0x13, 0x00, 0x00, 0x00, 0x00, 0x00, 0x00, 0x00,
    // 232: ab
    0x61, 0x62,
];

// Bytes of the second record's block that are others, and whether it is still a record.
const CHANGES: [(&[(usize, u8)], bool); 41] = [
    (&[], true),
    // header: kind, format, count, used, level
    (&[(0, 0x04)], false),
    (&[(1, 0x02)], false),
    (&[(2, 0x03)], false),
    (&[(2, 0x01)], false),
    (&[(3, 0x04)], false),
    (&[(4, 0xeb)], false),
    (&[(4, 0xe9)], false),
    (&[(8, 0x01)], false),
    // a byte behind used
    (&[(234, 0x01)], false),
    (&[(4_095, 0x01)], false),
    // the sequence is below 2^62
    (&[(23, 0x3f)], true),
    (&[(23, 0x40)], false),
    // the run is from 1 to the sequence
    (&[(24, 0x00)], false),
    (&[(24, 0x09)], true),
    (&[(24, 0x0a)], false),
    // oldest is at most stable, where that is set
    (&[(32, 0x14)], true),
    (&[(32, 0x15)], false),
    (&[(32, 0x15), (40, 0x00)], true),
    // min is at most max, the ids ascend from min to below max
    (&[(48, 0x0d), (64, 0x00)], false),
    (&[(48, 0x06)], false),
    (&[(74, 0x05)], false),
    (&[(82, 0x0c)], false),
    // a count of ids that is not theirs
    (&[(64, 0x02)], false),
    // the history's level
    (&[(94, 0x3c)], true),
    (&[(94, 0x3d)], false),
    // a table's number is from 1 to below the next one, each once
    (&[(135, 0x00)], false),
    (&[(135, 0x06)], true),
    (&[(135, 0x07)], false),
    (&[(135, 0x02)], false),
    // its formats, and its level
    (&[(139, 0x73)], false),
    (&[(140, 0x55)], false),
    (&[(141, 0x3c)], true),
    (&[(141, 0x3d)], false),
    // its name: no byte below 33, no 127, no colon
    (&[(183, 0x20)], false),
    (&[(183, 0x3a)], false),
    (&[(183, 0x7f)], false),
    (&[(183, 0x21)], true),
    // names ascend: ab is below b, and a name stands once
    (&[(183, 0x62)], false),
    (&[(4, 0xe9), (191, 0x01), (233, 0x00)], false),
    (&[(142, 0x00)], false),
];

fn block_of(alloc: Global, image: &[u8]) -> Result<Vec<u8>, AllocError> {
    let mut block = Vec::from_slice(alloc, image)?;
    block.resize(4_096, 0)?;
    Ok(block)
}

// The record, lent to be written.
fn lent(alloc: Global, record: &Record) -> Result<LentRecord<'_>, AllocError>
    ensures { IfOk result (λ r. r ≡ record.now) }
{
    let tables = lent_roots(alloc, &record.tables)?;
    let kept = &record.snapshot;
    let snapshot = Snapshot {
        min: kept.min,
        max: kept.max,
        ids: Vec::from_slice(alloc, &kept.ids)?,
    };
    Ok(LentRecord {
        sequence: record.sequence,
        run: record.run,
        oldest: record.oldest,
        stable: record.stable,
        snapshot,
        next_table: record.next_table,
        history: record.history,
        tables,
    })
}

fn lent_roots(alloc: Global, tables: &[TableRoot]) -> Result<Vec<LentRoot<'_>>, AllocError>
    ensures { IfOk result (λ v. v.items ≡ tables.now) }
{
    let mut roots = Vec::with_capacity(alloc, tables.len())?;
    for root in tables {
        roots.push_reserved(lent_root(root));
    }
    Ok(roots)
}

fn lent_root(root: &TableRoot) -> LentRoot<'_>
    ensures { result ≡ root.now }
{
    LentRoot {
        table: &root.table,
        root: root.root,
    }
}

#[test]
fn what_is_decoded_is_encoded_as_the_same_bytes(rt: HostRuntime) -> Result<(), Fail> {
    for image in [ONE.as_slice(), TWO.as_slice()] {
        let block = block_of(rt.alloc(), image)?;
        let Some(record) = decode(rt.alloc(), &block)? else {
            return Err("a record".into());
        };
        assert!(rt; encode(rt.alloc(), &lent(rt.alloc(), &record)?)?.as_slice() == image);
        assert!(rt; decode(rt.alloc(), image)?.is_none());
        let mut longer = block;
        longer.resize(8_192, 0)?;
        assert!(rt; decode(rt.alloc(), &longer)?.is_none());
    }
    Ok(())
}

#[test]
fn each_field_is_read(rt: HostRuntime) -> Result<(), Fail> {
    let block = block_of(rt.alloc(), &TWO)?;
    let record = decode(rt.alloc(), &block)?.ok_or("a record")?;
    assert_eq!(rt; (record.sequence, record.run), (9, 3));
    assert_eq!(rt; (record.oldest, record.stable), (10, 20));
    assert_eq!(rt; (record.snapshot.min, record.snapshot.max), (5, 12));
    assert!(rt; record.snapshot.ids.as_slice() == [5, 7, 11].as_slice());
    assert_eq!(rt; (record.next_table, record.history.level), (7, 1));
    let link = record.history.link;
    assert_eq!(rt;
        (link.addr.offset, link.addr.size, link.addr.sum),
        (12_288, 4_096, 0x0102_0304)
    );
    assert_eq!(rt;
        (link.greatest.run, link.greatest.id, link.durable),
        (2, 256, 20)
    );
    assert_eq!(rt; record.tables.len(), 2);
    for (t, name, offset) in [(0, b"a".as_slice(), 16_384), (1, b"ab", 24_576)] {
        let there = record.tables.get(t).ok_or("a table")?;
        assert!(rt; there.table.name.as_bytes() == name);
        assert_eq!(rt; there.root.link.addr.offset, offset);
    }
    Ok(())
}

fn change(rt: &impl Abort, block: &mut [u8], changes: &[(usize, u8)]) {
    for (at, byte) in changes {
        *block.get_mut(*at).expect(rt, "a place") = *byte;
    }
}

#[test]
fn a_record_is_found_exactly_where_its_rules_are_kept(rt: HostRuntime) -> Result<(), Fail> {
    for (changes, is_record) in CHANGES {
        let mut block = block_of(rt.alloc(), &TWO)?;
        change(&rt, &mut block, changes);
        assert!(rt;
            decode(rt.alloc(), &block)?.is_some() == is_record,
            "{changes:?}"
        );
    }
    Ok(())
}

// The block of a record with the ids from 1 to this one, and no tables.
fn block_with_ids(alloc: Global, count: u8) -> Result<Vec<u8>, AllocError> {
    let used = 111 + 8 * u32::from(count);
    let mut image = Vec::from_slice(alloc, &[0x05, 0x01, 0x00, 0x00])?;
    image.extend_from_slice(&used.to_le_bytes())?;
    // level, sequence, run, oldest, stable, min, max
    for number in [0, 1, 1, 0, 0, 1, 1 + u64::from(count)] {
        image.extend_from_slice(&number.to_le_bytes())?;
    }
    image.extend_from_slice(&u16::from(count).to_le_bytes())?;
    for id in 0..count {
        image.extend_from_slice(&(1 + u64::from(id)).to_le_bytes())?;
    }
    block_of(alloc, &image)
}

#[test]
fn there_are_64_ids_at_most(rt: HostRuntime) -> Result<(), Fail> {
    for (count, is_record) in [(0, true), (64, true), (65, false)] {
        let block = block_with_ids(rt.alloc(), count)?;
        assert!(rt;
            decode(rt.alloc(), &block)?.is_some() == is_record,
            "{count}"
        );
    }
    Ok(())
}
