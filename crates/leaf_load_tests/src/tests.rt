// What is loaded of a leaf of three rows, from a disk in memory.
use block_sum::sum;
use device_layout::{Addr, Link};
use disk_model::MemDisk;
use leaf_frame::LeafFrame;
use leaf_load::load_leaf;
use leaf_rows::Marks;
use row_page::Leaf;
use stamp::Name;
use std::alloc::Global;
use std::process::Abort;
use wt_code::Refusal;

// Key a of run 1, id 3; key b of run 2, id 5, durable at 20; key c of run 2, id 4, durable at 40.
const IMAGE: [u8; 139] = [
    1, 1, 3, 0, 139, 0, 0, 0, 0, 0, 0, 0, 0, 0, 0, 0, // the header
    1, 0, 1, 1, 0, 0, 0, 1, 0, 0, 0, 0, 0, 0, 0, 3, 0, 0, 0, 0, 0, 0, 0, 0, 0, 0, 0, 0, 0, 0, 0, 0,
    0, 0, 0, 0, 0, 0, 0, b'a', b'1', //
    1, 0, 1, 1, 0, 0, 0, 2, 0, 0, 0, 0, 0, 0, 0, 5, 0, 0, 0, 0, 0, 0, 0, 10, 0, 0, 0, 0, 0, 0, 0,
    20, 0, 0, 0, 0, 0, 0, 0, b'b', b'2', //
    1, 0, 1, 1, 0, 0, 0, 2, 0, 0, 0, 0, 0, 0, 0, 4, 0, 0, 0, 0, 0, 0, 0, 30, 0, 0, 0, 0, 0, 0, 0,
    40, 0, 0, 0, 0, 0, 0, 0, b'c', b'3',
];

const PLACE: u64 = 8_192; // bytes

#[derive(Clone, Copy, Debug, PartialEq, Eq)]
enum Told {
    // no page
    Nothing,
    // a page of these keys, with zeros behind them
    Keys([u8; 3]),
    // where, and whether the sum that is there is the one that should be
    Corrupt(u64, bool),
    Refused(Refusal),
}

fn marks(run: u64, stable: u64, min: u64, max: u64) -> Marks {
    Marks {
        run,
        oldest: 0,
        stable,
        min,
        max,
    }
}

// A device with the image, a byte of it changed behind its sum, and what leads there.
fn device(rt: &impl Abort, alloc: Global, spoilt: Option<usize>) -> (MemDisk, Link) {
    let mut block = Vec::from_slice(alloc, &IMAGE).expect(rt, "there is memory");
    block.resize(4_096, 0).expect(rt, "there is memory");
    let addr = Addr {
        offset: PLACE,
        size: 4_096,
        sum: sum(&block),
    };
    if let Some(at) = spoilt {
        *block.get_mut(at).expect(rt, "a place") ^= 1;
    }
    let mut content = Vec::new(alloc);
    content.resize(8_192, 0).expect(rt, "there is memory");
    content.append(&mut block).expect(rt, "there is memory");
    let disk = MemDisk::new(alloc, content, 1 << 20, Vec::new(alloc));
    let greatest = Name { run: 2, id: 5 };
    let link = Link {
        addr,
        greatest,
        durable: 40,
    };
    (disk.expect(rt, "there is memory"), link)
}

fn answer_of(loaded: Result<LeafFrame, Refusal>) -> Told {
    match loaded {
        Ok(leaf) => match leaf.page() {
            Some(page) => Told::Keys(keys_of(page)),
            None => Told::Nothing,
        },
        Err(
            Refusal::Corrupt {
                offset,
                want,
                found,
            },
        ) => Told::Corrupt(offset, want == found),
        Err(refusal) => Told::Refused(refusal),
    }
}

fn keys_of(page: &Leaf) -> [u8; 3] {
    let mut keys = [0; 3];
    for i in 0..page.len() {
        if let (Some(place), Some(byte)) = (keys.get_mut(i), page.key(i).first()) {
            *place = *byte;
        }
    }
    keys
}

#[test]
fn what_an_opening_keeps_stands_on_the_page(rt: HostRuntime) {
    let cases: [(Marks, &[u64], [u8; 3]); 11] = [
        // a later run, whose ids tell nothing
        (marks(3, 0, 0, 0), &[], *b"abc"),
        (marks(3, 40, 0, 0), &[], *b"abc"),
        // the same run, where all ids had ended
        (marks(2, 0, 6, 6), &[], *b"abc"),
        // an id at or above the least one, which had ended
        (marks(2, 0, 4, 9), &[7], *b"abc"),
        // ids that had not ended
        (marks(2, 0, 4, 9), &[4], *b"ab\0"),
        (marks(2, 0, 4, 9), &[4, 5], *b"a\0\0"),
        // an id that was not given
        (marks(2, 0, 4, 5), &[], *b"ac\0"),
        // rows of a later run
        (marks(1, 0, 4, 4), &[], *b"a\0\0"),
        (marks(1, 0, 3, 3), &[], *b"\0\0\0"),
        // rows that are not stable
        (marks(3, 39, 0, 0), &[], *b"ab\0"),
        (marks(3, 19, 0, 0), &[], *b"a\0\0"),
    ];
    for (marks, ids, want) in cases {
        let (mut disk, link) = device(&rt, rt.alloc(), None);
        let loaded = load_leaf(rt.alloc(), &mut disk, link, b"", None, marks, ids);
        assert_eq!(rt; answer_of(loaded), Told::Keys(want));
    }
}

#[test]
fn a_leaf_is_refused_where_none_is_there(rt: HostRuntime) {
    let cases: [(&[u8], Option<&[u8]>, Option<usize>, Told); 7] = [
        (b"", None, None, Told::Keys(*b"abc")),
        (b"a", Some(b"d"), None, Told::Keys(*b"abc")),
        (b"a\0", Some(b"d"), None, Told::Corrupt(PLACE, true)),
        (b"a", Some(b"c"), None, Told::Corrupt(PLACE, true)),
        (b"a", Some(b"c\0"), None, Told::Keys(*b"abc")),
        (b"", None, Some(138), Told::Corrupt(PLACE, false)),
        (b"", None, Some(4_095), Told::Corrupt(PLACE, false)),
    ];
    for (low, high, spoilt, want) in cases {
        let (mut disk, link) = device(&rt, rt.alloc(), spoilt);
        let loaded = load_leaf(
            rt.alloc(),
            &mut disk,
            link,
            low,
            high,
            marks(3, 0, 0, 0),
            &[],
        );
        assert_eq!(rt; answer_of(loaded), want);
    }
}

#[test]
fn a_link_is_believed_only_where_it_says_what_is_there(rt: HostRuntime) {
    let nowhere = Addr {
        offset: 0,
        size: 0,
        sum: 0,
    };
    let (_, link) = device(&rt, rt.alloc(), None);
    let cases: [(Addr, Name, u64, Told); 6] = [
        (link.addr, link.greatest, 40, Told::Keys(*b"abc")),
        (
            link.addr,
            Name { run: 2, id: 4 },
            40,
            Told::Corrupt(PLACE, true),
        ),
        (link.addr, link.greatest, 41, Told::Corrupt(PLACE, true)),
        (nowhere, Name { run: 0, id: 0 }, 0, Told::Nothing),
        (nowhere, Name { run: 0, id: 0 }, 1, Told::Corrupt(0, true)),
        (
            Addr {
                offset: 1 << 20,
                size: 4_096,
                sum: 7,
            },
            link.greatest,
            40,
            Told::Corrupt(1 << 20, true),
        ),
    ];
    for (addr, greatest, durable, want) in cases {
        let (mut disk, _) = device(&rt, rt.alloc(), None);
        let link = Link {
            addr,
            greatest,
            durable,
        };
        let loaded = load_leaf(
            rt.alloc(),
            &mut disk,
            link,
            b"",
            None,
            marks(3, 0, 0, 0),
            &[],
        );
        assert_eq!(rt; answer_of(loaded), want);
    }
}

#[test]
fn a_fault_of_the_disk_is_told(rt: HostRuntime) {
    let (mut disk, link) = device(&rt, rt.alloc(), None);
    disk.stop_after(0);
    let loaded = load_leaf(
        rt.alloc(),
        &mut disk,
        link,
        b"",
        None,
        marks(3, 0, 0, 0),
        &[],
    );
    assert_eq!(rt; answer_of(loaded), Told::Refused(Refusal::DiskFault));
}
