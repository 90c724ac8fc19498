// Records as bytes: each kind, with each number of zeros behind it.
use image_format::{decode_rec, encode_rec};
use long_names::Octets;
use std::alloc::Global;
use std::test::Fail;

/// A record in hexadecimal digits.
struct Record {
    what: &'static str,
    bytes: &'static [u8],
}

const RECORDS: &[Record] = &[
    Record {
        what: "nil",
        bytes: b"\0\0\0\x02\0\0\0\x10\0\0\0\0\0\0\0\x13\0\0\0\0",
    },
    Record {
        what: "a process",
        bytes: b"\0\0\0\x3e\0\0\0\x10\0\0\0\0\0\0\0\x01\0\0\0\x04\
            \0\0\0\x02\0\0\0\x42\0\0\0\x03\0\0\0\x02",
    },
    Record {
        what: "a method without literals",
        bytes: b"\0\0\0\x40\0\0\0\x22\0\0\0\0\0\0\0\x01\0\x03\0\x04\0\0\0\0\0\0\0\x01\
            \x70\x87\xa3\xfc",
    },
    Record {
        what: "a method with the literal -16384, and three bytes of code",
        bytes: b"\0\0\0\x48\0\0\0\x22\0\0\0\0\0\0\0\x03\0\x03\0\x03\0\0\0\x01\0\0\0\x03\
            \xff\xff\x80\x01\x78\x79\x7a\0",
    },
    Record {
        what: "one word",
        bytes: b"\0\0\0\x46\0\0\0\x10\0\0\0\0\0\0\0\x01\0\x01\0\x01\x02\x03\0\0",
    },
    Record {
        what: "two words",
        bytes: b"\0\0\0\x46\0\0\0\x10\0\0\0\0\0\0\0\x01\0\x01\0\x02\0\x01\x02\x03",
    },
    Record {
        what: "one byte",
        bytes: b"\0\0\0\x46\0\0\0\x10\0\0\0\0\0\0\0\x01\0\x02\0\x01\x09\0\0\0",
    },
    Record {
        what: "two bytes",
        bytes: b"\0\0\0\x46\0\0\0\x10\0\0\0\0\0\0\0\x01\0\x02\0\x02\x09\x08\0\0",
    },
    Record {
        what: "three bytes",
        bytes: b"\0\0\0\x46\0\0\0\x10\0\0\0\0\0\0\0\x01\0\x02\0\x03\x09\x08\x07\0",
    },
    Record {
        what: "four bytes",
        bytes: b"\0\0\0\x46\0\0\0\x10\0\0\0\0\0\0\0\x01\0\x02\0\x04\x09\x08\x07\x06",
    },
];

// Whether the bytes are one record and no more, which is written as it was read.
fn is_kept(alloc: Global, bytes: &[u8]) -> Result<bool, Fail> {
    let (rec, len) = decode_rec(alloc, bytes)?;
    let mut out = Octets::new(alloc);
    encode_rec(&rec, &mut out)?;
    Ok(len == bytes.len() && out.bytes() == bytes)
}

// The first record that isn't.
fn first_lost(alloc: Global, records: &[Record]) -> Result<Option<&'static str>, Fail> {
    for record in records {
        if !is_kept(alloc, record.bytes)? {
            return Ok(Some(record.what));
        }
    }
    Ok(None)
}

#[test]
fn records_are_written_as_they_are_read(rt: HostRuntime) -> Result<(), Fail> {
    assert_eq!(rt; first_lost(rt.alloc(), RECORDS)?, None);
    Ok(())
}
