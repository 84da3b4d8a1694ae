// The rows of a leaf's block, and what an opening keeps of them.
use crate::{Marks, Rows};
use row_page::Leaf;

// Two rows of run 2: key a, value 1, id 1; and key b, value 2, id 5.
const BLOCK: [u8; 102] = [
    1, 1, 2, 0, 102, 0, 0, 0, 0, 0, 0, 0, 0, 0, 0, 0, 2, 0, 1, 2, 0, 0, 0, 2, 0, 0, 0, 0, 0, 0, 0,
    1, 0, 0, 0, 0, 0, 0, 0, 0, 0, 0, 0, 0, 0, 0, 0, 0, 0, 0, 0, 0, 0, 0, 0, b'a', 0, b'1', 0, 2, 0,
    1, 2, 0, 0, 0, 2, 0, 0, 0, 0, 0, 0, 0, 5, 0, 0, 0, 0, 0, 0, 0, 0, 0, 0, 0, 0, 0, 0, 0, 0, 0, 0,
    0, 0, 0, 0, 0, b'b', 0, b'2', 0,
];

#[test]
fn a_row_of_a_running_transaction_is_not_kept(rt: HostRuntime) {
    let alloc = rt.alloc();
    let mut block = Vec::from_slice(alloc, &BLOCK).expect(&rt, "there is memory");
    block.resize(4096, 0).expect(&rt, "there is memory");
    let leaf = Leaf::of_block(alloc, block).expect(&rt, "there is memory");
    let leaf = leaf.expect(&rt, "a leaf");
    assert_eq!(rt; leaf.len(), 2);
    let mut rows = Rows::of_leaf(alloc, &leaf).expect(&rt, "there is memory");
    let marks = Marks {
        run: 2,
        oldest: 0,
        stable: 0,
        min: 4,
        max: 9,
    };
    rows.keep_seen(marks, &[5]);
    let rows = rows.into_rows();
    assert_eq!(rt; rows.len(), 1);
    assert!(&rt; rows[0].0.as_bytes() == b"a\0".as_slice());
}
