use super::*;
use std::test::*;

#[test]
fn a_text_is_stored_with_a_zero_byte_and_bytes_as_they_are(rt: HostRuntime) -> Result<(), Fail> {
    let text = stored_as(rt.alloc(), Format::S, &[97, 98])?;
    assert_eq!(rt; text.as_bytes(), [97u8, 98, 0].as_slice());
    let bytes = stored_as(rt.alloc(), Format::U, &[97, 98])?;
    assert_eq!(rt; bytes.as_bytes(), [97u8, 98].as_slice());
    assert_eq!(rt;
        written_as(Format::S, text.as_bytes()),
        [97u8, 98].as_slice()
    );
    Ok(())
}
