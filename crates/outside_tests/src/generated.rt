// The image of a number. Its bytes are those of a generator that was written apart from it.
use loom_gen::{make, next_name, object_count};
use std::test::Fail;

/// The head, and nil, which 1,116 words hold.
const FIRST: &[u8] = b"LOOM\0\0\0\x01\0\0\x05\x2f\0\0\x0a\x6e\
    \0\0\0\x02\0\0\0\x10\0\0\0\0\0\0\x04\x5c\0\0\0\0";

/// The last node, which holds node 330.
const LAST: &[u8] = b"\0\0\x0a\x6c\0\0\0\x10\0\0\0\0\0\0\0\x01\0\0\0\x02\0\0\x05\x32\0\0\0\x02";

#[test]
fn the_image_of_0_is_made(rt: HostRuntime) -> Result<(), Fail> {
    let image = make(rt.alloc(), 0)?;
    assert_eq!(rt; image.len(), 77_460);
    assert!(rt; image.bytes().starts_with(FIRST));
    assert!(rt; image.bytes().ends_with(LAST));
    Ok(())
}

#[test]
fn the_largest_image_has_20_327_objects(rt: HostRuntime) {
    assert_eq!(rt; object_count(19), 20_327);
    assert_eq!(rt; next_name(19), 40_670);
}
