use row_page::*;
use std::test::*;

#[test]
fn the_bytes_of_a_leaf_of_one_cell_are_read_as_that_cell(rt: HostRuntime) -> Result<(), Fail> {
    let image = [
        1u8, 1, 1, 0, 59, 0, 0, 0, 0, 0, 0, 0, 0, 0, 0, 0, 2, 0, 1, 2, 0, 0, 0, 2, 0, 0, 0, 0, 0,
        0, 0, 1, 0, 0, 0, 0, 0, 0, 0, 0, 0, 0, 0, 0, 0, 0, 0, 0, 0, 0, 0, 0, 0, 0, 0, 97, 0, 49, 0,
    ];
    let short = Vec::from_slice(rt.alloc(), &image)?;
    assert!(rt; Leaf::of_block(rt.alloc(), short)?.is_none());
    let mut block = Vec::from_slice(rt.alloc(), &image)?;
    block.resize(4_096, 0)?;
    let leaf = Leaf::of_block(rt.alloc(), block)?.ok_or("a leaf")?;
    assert_eq!(rt; leaf.find(&[97, 0]), Ok(0));
    assert_eq!(rt; leaf.find(&[97]), Err(0));
    assert_eq!(rt; leaf.find(&[98]), Err(1));
    if leaf.is_empty() {
        return Err("a leaf of one cell".into());
    }
    let cell = leaf.cell(0);
    assert_eq!(rt; cell.key, [97u8, 0].as_slice());
    assert_eq!(rt; cell.window.name.run, 2);
    assert_eq!(rt; cell.window.name.id, 1);
    assert_eq!(rt; cell.window.durable, 0);
    assert!(rt; matches!(cell.change, CellChange::Put(value) if value == [49u8, 0].as_slice()));
    Ok(())
}
