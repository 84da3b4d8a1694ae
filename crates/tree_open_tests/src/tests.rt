// What is read of trees in memory, and what is told of their damage.
use block_sum::sum;
use checkpoint_record::Root;
use device_layout::{Addr, Link};
use disk_model::MemDisk;
use stamp::Name;
use std::alloc::Global;
use std::process::Abort;
use tree_open::read_tree;
use wt_code::Refusal;

// An entry of a test's page, whose link says run 1: its key, the offset of the page below, and the
// id and the durable stamp that it says.
type Row = (&'static [u8], u64, u64, u64);

// Where each page stands, its level, and its entries: the root, and the two pages below it.
const PAGES: [(usize, u8, [Row; 2]); 3] = [
    (8_192, 2, [(b"", 12_288, 7, 30), (b"m", 16_384, 9, 20)]),
    (12_288, 1, [(b"", 20_480, 7, 10), (b"c", 24_576, 3, 30)]),
    (16_384, 1, [(b"m", 28_672, 9, 0), (b"t", 32_768, 2, 20)]),
];

#[derive(Clone, Copy, Debug, PartialEq, Eq)]
enum Told {
    // how many leaves, and how many inner pages
    Leaves(usize, usize),
    // where, and whether the sum that is there is the one that should be
    Corrupt(u64, bool),
    Refused(Refusal),
}

// The level of the root, what is changed before the sums are made, and behind that, and what is told.
const CASES: [(u8, &[(usize, u8)], &[(usize, u8)], Told); 15] = [
    (2, &[], &[], Told::Leaves(4, 3)),
    // nothing is read
    (0, &[(8_192, 0)], &[(8_193, 9)], Told::Leaves(1, 0)),
    // the root has another level
    (1, &[], &[], Told::Corrupt(8_192, true)),
    (3, &[], &[], Told::Corrupt(8_192, true)),
    // the root is no inner page of a table
    (2, &[(8_192, 4)], &[], Told::Corrupt(8_192, true)),
    // the left page has level 2
    (2, &[(12_296, 2)], &[], Told::Corrupt(12_288, true)),
    // the right page begins with another key
    (2, &[(16_442, b'n')], &[], Told::Corrupt(16_384, true)),
    // the left page goes on to the right one's key
    (2, &[(12_388, b'm')], &[], Told::Corrupt(12_288, true)),
    // the left page has another greatest name, and the right one another durable stamp
    (2, &[(12_330, 8)], &[], Told::Corrupt(12_288, true)),
    (2, &[(16_477, 21)], &[], Told::Corrupt(16_384, true)),
    // the right page has another sum, and then the left one too
    (2, &[], &[(16_404, 1)], Told::Corrupt(16_384, false)),
    (
        2,
        &[],
        &[(12_308, 1), (16_404, 1)],
        Told::Corrupt(12_288, false),
    ),
    // the right page has two units, or stands where none can, or behind the device's end
    (2, &[(8_261, 0x20)], &[], Told::Corrupt(16_384, true)),
    (2, &[(8_252, 1)], &[], Told::Corrupt(16_385, true)),
    (2, &[(8_253, 0x50)], &[], Told::Corrupt(20_480, true)),
];

fn put(rt: &impl Abort, content: &mut [u8], at: usize, bytes: &[u8]) {
    for (i, byte) in bytes.iter().enumerate() {
        let place = content.get_mut(at.saturating_add(i));
        *place.expect(rt, "a place") = *byte;
    }
}

fn change(rt: &impl Abort, content: &mut [u8], changes: &[(usize, u8)]) {
    for (at, byte) in changes {
        *content.get_mut(*at).expect(rt, "a place") = *byte;
    }
}

fn sum_at(rt: &impl Abort, content: &[u8], block: usize) -> u32 {
    let bytes = content.get(block..block.saturating_add(4_096));
    sum(bytes.expect(rt, "a block"))
}

// Puts the sum of the block at an offset where it belongs.
fn put_sum(rt: &impl Abort, content: &mut [u8], block: usize, at: usize) {
    let sum = sum_at(rt, content, block);
    put(rt, content, at, &sum.to_le_bytes());
}

// Puts an entry without its sum, and gives the place behind it.
fn put_row(rt: &impl Abort, content: &mut [u8], at: usize, row: Row) -> usize {
    let (key, offset, id, durable) = row;
    let len = u16::try_from(key.len()).expect(rt, "a short key");
    put(rt, content, at, &len.to_le_bytes());
    put(rt, content, at.saturating_add(2), &offset.to_le_bytes());
    put(rt, content, at.saturating_add(10), &4_096u32.to_le_bytes());
    put(rt, content, at.saturating_add(18), &1u64.to_le_bytes());
    put(rt, content, at.saturating_add(26), &id.to_le_bytes());
    put(rt, content, at.saturating_add(34), &durable.to_le_bytes());
    put(rt, content, at.saturating_add(42), key);
    at.saturating_add(42).saturating_add(key.len())
}

// Puts a page of two entries.
fn put_page(rt: &impl Abort, content: &mut [u8], at: usize, level: u8, rows: [Row; 2]) {
    let [first, second] = rows;
    put(rt, content, at, &[2, 1, 2, 0]);
    put(rt, content, at.saturating_add(8), &[level]);
    let middle = put_row(rt, content, at.saturating_add(16), first);
    let end = put_row(rt, content, middle, second);
    let used = u32::try_from(end.saturating_sub(at)).expect(rt, "a short page");
    put(rt, content, at.saturating_add(4), &used.to_le_bytes());
}

// What is read of the tree, where these calls of its disk fail.
fn answer(
    rt: &impl Abort,
    alloc: Global,
    level: u8,
    before: &[(usize, u8)],
    behind: &[(usize, u8)],
    failing: &[u64],
) -> Told {
    let mut content = Vec::new(alloc);
    content.resize(20_480, 0).expect(rt, "there is memory");
    for (at, level, rows) in PAGES {
        put_page(rt, &mut content, at, level, rows);
    }
    change(rt, &mut content, before);
    put_sum(rt, &mut content, 12_288, 8_222);
    put_sum(rt, &mut content, 16_384, 8_264);
    let root = Root {
        level,
        link: Link {
            addr: Addr {
                offset: 8_192,
                size: 4_096,
                sum: sum_at(rt, &content, 8_192),
            },
            greatest: Name { run: 1, id: 9 },
            durable: 30,
        },
    };
    change(rt, &mut content, behind);
    let failing = Vec::from_slice(alloc, failing).expect(rt, "there is memory");
    let made = MemDisk::new(alloc, content, 1 << 20, failing);
    let mut disk = made.expect(rt, "there is memory");
    match read_tree(alloc, &mut disk, root) {
        Ok(upper) => Told::Leaves(upper.entries.len(), upper.addrs.len()),
        Err(
            Refusal::Corrupt {
                offset,
                want,
                found,
            },
        ) => Told::Corrupt(offset, want == found),
        Err(refusal) => Told::Refused(refusal),
    }
}

#[test]
fn each_tree_is_told_as_what_it_is(rt: HostRuntime) {
    for (level, before, behind, want) in CASES {
        assert_eq!(rt; answer(&rt, rt.alloc(), level, before, behind, &[]), want);
    }
    for call in 0..8 {
        let told = answer(&rt, rt.alloc(), 2, &[], &[], &[call]);
        // each of the three pages asks for the length, and reads
        let want = if call < 6 {
            Told::Refused(Refusal::DiskFault)
        } else {
            Told::Leaves(4, 3)
        };
        assert_eq!(rt; told, want, "{call}");
    }
}
