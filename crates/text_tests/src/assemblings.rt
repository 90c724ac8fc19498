// Texts that are assembled: what each of them breaks, and images out of those that are right.
use crate::listings::BASE;
use disk_objects::DiskObjects;
use image_text::{TextFault, assemble};
use image_writer::{SaveFault, save};
use loom_outside::{Host, LyingHost, MemoryHost, Role};
use sample_images::{NEXT, base};
use std::alloc::{AllocError, Global};
use std::test::Fail;

/// For how many objects there is room.
const ROOM: u32 = 1_048_576;

/// A piece of the text of the base image, what stands in its place, and the line and the rule that the text breaks first then; rule 0 is the
/// grammar.
type Bad = (&'static str, &'static str, u32, u8);

// The first line.
const HEADS: &[Bad] = &[
    ("loom 68 0", "loom  68 0", 1, 0),
    ("loom 68 0", " loom 68 0", 1, 0),
    ("loom 68", "Loom 68", 1, 0),
    ("loom 68", "loom", 1, 0),
    ("0 0 0 0 0\n2", "0 0 0 0\n2", 1, 0),
    ("0 0 0 0 0\n2", "0 0 0 0 0 0\n2", 1, 0),
    ("0 0\n2", "0 0 \n2", 1, 0),
    ("loom 68", "loom 068", 1, 0),
    ("loom 68", "loom +68", 1, 0),
    ("loom 68", "loom -68", 1, 0),
    ("loom 68", "loom 4294967296", 1, 0),
    ("loom 68", "loom 18446744073709551684", 1, 0),
    ("loom 68 0", "loom 68 4294967296", 1, 0),
    ("loom 68 0", "loom 68 00", 1, 0),
    ("loom 68", "loom 6x", 1, 0),
    ("loom 68", "loom 68i", 1, 0),
    ("loom 68", "loom 69", 1, 3),
    ("loom 68", "loom 58", 1, 3),
    ("loom 68", "loom 0", 1, 3),
    ("loom 68 0 0 0 0 0", "loom 68 0 1 0 0 0", 1, 13),
    ("loom 68 0 0 0 0 0", "loom 68 0 68 0 0 0", 1, 13),
    ("loom 68 0 0 0 0 0", "loom 68 0 0 3 0 0", 1, 13),
    ("loom 68 0 0 0 0 0", "loom 68 0 0 70 0 0", 1, 13),
    ("loom 68 0 0 0 0 0", "loom 68 0 0 0 5 0", 1, 13),
    ("loom 68 0 0 0 0 0", "loom 68 0 0 0 0 1", 1, 13),
    ("loom 68 0 0 0 0 0", "loom 69 0 1 0 0 0", 1, 3),
];

// The name, the class and the kind of an object.
const NAMES: &[Bad] = &[
    ("\n8 16 pointers", "\n8  16 pointers", 5, 0),
    ("\n8 16 pointers", "\n8 16 Pointers", 5, 0),
    ("\n8 16 pointers", "\n8 16 pointer", 5, 0),
    ("\n8 16 pointers 2 60", "\n8 16", 5, 0),
    ("\n8 16 pointers 2 60", "\n8", 5, 0),
    ("\n8 16 pointers", "\n08 16 pointers", 5, 0),
    ("\n8 16 pointers", "\n-8 16 pointers", 5, 0),
    ("\n8 16 pointers", "\n8i 16 pointers", 5, 0),
    ("\n8 16 pointers", "\n8 17 pointers", 5, 0),
    ("\n8 16 pointers", "\n8 0 pointers", 5, 0),
    ("\n8 16 pointers", "\n8 016 pointers", 5, 0),
    ("\n8 16 pointers", "\n8 4294967296 pointers", 5, 0),
    ("\n8 16 pointers", "\n8 16i pointers", 5, 0),
    ("\n8 16 pointers 2 60", "\n7 16 pointers 61", 5, 0),
];

// Values, words and bytes.
const VALUES: &[Bad] = &[
    ("pointers 2 60\n12", "pointers 2 61\n12", 5, 0),
    ("pointers 2 60\n12", "pointers 2 0\n12", 5, 0),
    ("pointers 2 60\n12", "pointers 2 060\n12", 5, 0),
    ("pointers 2 60\n12", "pointers 2 60 \n12", 5, 0),
    ("pointers 2 60\n12", "pointers 2 16384i\n12", 5, 0),
    ("pointers 2 60\n12", "pointers 2 -16385i\n12", 5, 0),
    ("pointers 2 60\n12", "pointers 2 -0i\n12", 5, 0),
    ("pointers 2 60\n12", "pointers 2 +1i\n12", 5, 0),
    ("pointers 2 60\n12", "pointers 2 01i\n12", 5, 0),
    ("pointers 2 60\n12", "pointers 2 i\n12", 5, 0),
    ("pointers 2 60\n12", "pointers 2 -i\n12", 5, 0),
    ("pointers 2 60\n12", "pointers 2 1I\n12", 5, 0),
    ("pointers 2 60\n12", "pointers 2 4294967298\n12", 5, 0),
    ("pointers 2 60\n12", "pointers 2 code\n12", 5, 0),
    ("\n8 16 pointers 2 60", "\n8 16 words 0", 5, 0),
    ("\n8 16 pointers 2 60", "\n8 16 words 00000", 5, 0),
    ("\n8 16 pointers 2 60", "\n8 16 words 00fF", 5, 0),
    ("\n8 16 pointers 2 60", "\n8 16 bytes 0", 5, 0),
    ("\n8 16 pointers 2 60", "\n8 16 bytes 0g", 5, 0),
    ("\n8 16 pointers 2 60", "\n8 16 bytes A0", 5, 0),
    ("\n8 16 pointers 2 60", "\n8 16 bytes 1i", 5, 0),
];

// Methods.
const METHODS: &[Bad] = &[
    ("method 0i code 70", "method code 70", 26, 0),
    ("method 0i code 70", "method 0 code 70", 26, 0),
    ("method 0i code 70", "method 16384i code 70", 26, 0),
    ("method 0i code 70", "method 0i Code 70", 26, 0),
    ("method 0i code 70", "method 0i 70", 26, 0),
    ("method 0i code 70", "method 0i code code 70", 26, 0),
    ("method 0i code 70 87 a3 fc", "method 0i", 26, 0),
    ("method 0i code 70 87 a3 fc", "method", 26, 0),
    ("method 0i code 70", "method 0i code 7", 26, 0),
    ("method 0i code 70", "method 0i code 70i", 26, 0),
    ("method 0i code 70", "method 1i code 70", 26, 7),
    ("method 0i code 70", "method 0i 2 code 70", 26, 7),
    ("method 0i code 70", "method 1i 2 4 code 70", 26, 7),
];

// Lines out of order, empty or behind the last.
const OBJECTS: &[Bad] = &[
    ("\n66 22 pointers", "\n\n66 22 pointers", 27, 0),
    ("2 2\n", "2 2\nx", 28, 0),
    ("\n8 16 pointers", "\n7 16 pointers", 5, 4),
    ("\n8 16 pointers", "\n0 16 pointers", 5, 4),
    ("\n8 16 pointers", "\n6 16 pointers", 5, 4),
    ("\n8 16 pointers", "\n4 16 pointers", 5, 4),
    ("\n8 16 pointers", "\n12 16 pointers", 6, 4),
    ("\n66 22 pointers", "\n68 22 pointers", 27, 4),
    ("\n8 16 pointers", "\n4294967304 16 pointers", 5, 4),
    (
        "\n8 16 pointers",
        "\n18446744073709551624 16 pointers",
        5,
        4,
    ),
    ("\n66 22", "\n62 22", 27, 4),
    ("\n64 34 method 0i", "\n63 34 method 1i", 26, 4),
];

// What is judged of the whole text.
const WHOLES: &[Bad] = &[
    (
        "\n2 16 pointers\n4 16 pointers\n6 16 pointers\n8 16 pointers 2 60\n12 16 pointers",
        "\n12 16 pointers",
        20,
        10,
    ),
    ("2 16 pointers\n", "", 4, 10),
    ("\n8 16 pointers 2 60", "\n8 36 pointers 2 60", 5, 10),
    ("pointers 2 60\n12", "pointers 2 36\n12", 5, 10),
    (
        "\n66 22 pointers 2 3i 0i 64 2",
        "\n66 22 pointers 2 3i 0i 2 2",
        26,
        11,
    ),
    ("pointers 2 66 1i 2", "pointers 2 2 1i 2", 27, 11),
    ("\n8 16 pointers 2 60", "\n8 16 pointers 2 36 10", 5, 10),
    ("4 16 pointers\n", "", 0, 12),
    ("58 16 pointers\n", "", 0, 12),
    ("loom 68 0 0 0 0 0", "loom 68 0 10 0 0 0", 0, 14),
    ("loom 68 0 0 0 0 0", "loom 68 0 0 36 0 0", 0, 14),
    ("loom 68 0 0 0 0 0", "loom 68 0 0 0 46 3", 0, 14),
    ("4 16 pointers\n", "4 16 pointers 36\n", 3, 10),
];

/// How an assembling ends.
#[derive(Clone, Copy, Debug, PartialEq, Eq)]
enum End {
    Unread(TextFault),
    Unsaved(SaveFault),
    Assembled { objects: u32 },
}

fn broken(line: u32, rule: u8) -> End {
    End::Unread(TextFault::Bad { line, rule })
}

// A host with this text, over which the call of this number on a role fails, counted from 1.
fn host_with(alloc: Global, text: &[u8], failing: Option<(Role, u64)>) -> Result<LyingHost, Fail> {
    let mut host = MemoryHost::new(alloc, 1_000)?;
    host.add_file("text", text)?;
    host.attach(Role::Work, "work")?;
    host.attach(Role::Image, "text")?;
    host.attach(Role::Saved, "image")?;
    if let Some((role, nth)) = failing {
        host.fail(role, nth)?;
    }
    Ok(LyingHost::new(host, 0, 0))
}

// Assembles the text and saves its image.
fn end_over(alloc: Global, host: &mut LyingHost) -> End {
    let mut disk = DiskObjects::begin(host, ROOM);
    let end = match assemble(alloc, &mut disk, ROOM) {
        Ok(loaded) => match save(alloc, &mut disk, loaded.next, &loaded.state) {
            Ok(()) => End::Assembled {
                objects: loaded.objects,
            },
            Err(fault) => End::Unsaved(fault),
        },
        Err(fault) => End::Unread(fault),
    };
    let _host = disk.into_host();
    end
}

// The same of a text.
fn end_of(alloc: Global, text: &[u8], failing: Option<(Role, u64)>) -> Result<End, Fail> {
    let mut host = host_with(alloc, text, failing)?;
    Ok(end_over(alloc, &mut host))
}

// The text of the base image with the first such piece changed.
fn edited(alloc: Global, old: &str, new: &str) -> Result<Vec<u8>, AllocError> {
    let (before, behind) = BASE.split_once(old).unwrap_or((BASE, ""));
    let mut text = Vec::new(alloc);
    text.extend_from_slice(before.as_bytes())?;
    text.extend_from_slice(new.as_bytes())?;
    text.extend_from_slice(behind.as_bytes())?;
    Ok(text)
}

// The first row whose text ends otherwise, and how.
fn first_wrong(alloc: Global, rows: &[Bad]) -> Result<Option<(usize, End)>, Fail> {
    for (i, row) in rows.iter().enumerate() {
        let (old, new, line, rule) = *row;
        let text = edited(alloc, old, new)?;
        let end = end_of(alloc, &text, None)?;
        if end != broken(line, rule) {
            return Ok(Some((i, end)));
        }
    }
    Ok(None)
}

#[test]
fn breaks_of_the_first_line(rt: HostRuntime) -> Result<(), Fail> {
    assert_eq!(rt; first_wrong(rt.alloc(), HEADS)?, None);
    Ok(())
}

#[test]
fn breaks_of_names_and_kinds(rt: HostRuntime) -> Result<(), Fail> {
    assert_eq!(rt; first_wrong(rt.alloc(), NAMES)?, None);
    Ok(())
}

#[test]
fn breaks_of_values(rt: HostRuntime) -> Result<(), Fail> {
    assert_eq!(rt; first_wrong(rt.alloc(), VALUES)?, None);
    Ok(())
}

#[test]
fn breaks_of_methods(rt: HostRuntime) -> Result<(), Fail> {
    assert_eq!(rt; first_wrong(rt.alloc(), METHODS)?, None);
    Ok(())
}

#[test]
fn breaks_of_the_order_of_lines(rt: HostRuntime) -> Result<(), Fail> {
    assert_eq!(rt; first_wrong(rt.alloc(), OBJECTS)?, None);
    Ok(())
}

#[test]
fn breaks_of_the_whole_text(rt: HostRuntime) -> Result<(), Fail> {
    assert_eq!(rt; first_wrong(rt.alloc(), WHOLES)?, None);
    Ok(())
}

// The first text that ends otherwise.
fn first_other(alloc: Global, rows: &[(&[u8], End)]) -> Result<Option<usize>, Fail> {
    for (i, (text, end)) in rows.iter().enumerate() {
        if end_of(alloc, *text, None)? != *end {
            return Ok(Some(i));
        }
    }
    Ok(None)
}

// What is no text of lines: nothing, a head alone, a last line without its end, and an image.
#[test]
fn other_files_are_no_texts(rt: HostRuntime) -> Result<(), Fail> {
    let image = base(rt.alloc())?.finish(rt.alloc(), NEXT)?;
    let unended = BASE.strip_suffix("\n").unwrap_or(BASE);
    let rows = [
        (b"".as_slice(), broken(1, 0)),
        (b"loom 68 0 0 0 0 0\n".as_slice(), broken(1, 3)),
        (unended.as_bytes(), broken(27, 0)),
        (image.bytes(), broken(1, 0)),
    ];
    assert_eq!(rt; first_other(rt.alloc(), &rows)?, None);
    Ok(())
}

// A second line of so many digits, a class and a kind.
fn long_line(alloc: Global, digits: usize) -> Result<Vec<u8>, AllocError> {
    let mut text = Vec::new(alloc);
    text.extend_from_slice(b"loom 68 0 0 0 0 0\n")?;
    for _ in 0..digits {
        text.push(b'1')?;
    }
    text.extend_from_slice(b" 16 pointers\n2 16 pointers\n")?;
    Ok(text)
}

// A name of any number of digits is in the grammar, in a line of at most 1,048,576 bytes.
#[test]
fn the_longest_line(rt: HostRuntime) -> Result<(), Fail> {
    for (digits, end) in [(1_048_564, broken(2, 4)), (1_048_565, broken(2, 0))] {
        let text = long_line(rt.alloc(), digits)?;
        assert_eq!(rt; end_of(rt.alloc(), &text, None)?, end);
    }
    Ok(())
}

// The base image with one object more, of so many values, all nil, which is held by object 8.
fn wide(alloc: Global, values: u32) -> Result<Vec<u8>, AllocError> {
    let mut text = edited(alloc, "\n8 16 pointers 2 60", "\n8 16 pointers 2 60 68")?;
    text.extend_from_slice(b"68 16 pointers")?;
    for _ in 0..values {
        text.extend_from_slice(b" 2")?;
    }
    text.extend_from_slice(b"\n")?;
    Ok(text)
}

// The same with a head whose next name is behind that object's.
fn wide_whole(alloc: Global, values: u32) -> Result<Vec<u8>, AllocError> {
    let head = "loom 70 0 0 0 0 0";
    let rest = wide(alloc, values)?;
    let mut text = Vec::new(alloc);
    text.extend_from_slice(head.as_bytes())?;
    text.extend_from_slice(rest.get(head.len()..).unwrap_or(&[]))?;
    Ok(text)
}

// An object has at most 65,535 values.
#[test]
fn the_widest_object(rt: HostRuntime) -> Result<(), Fail> {
    let whole = End::Assembled { objects: 27 };
    for (values, end) in [(65_535, whole), (65_536, broken(28, 0))] {
        let text = wide_whole(rt.alloc(), values)?;
        assert_eq!(rt; end_of(rt.alloc(), &text, None)?, end);
    }
    Ok(())
}

// How the text of the base image ends, and how many bytes its image has.
fn base_end(alloc: Global) -> Result<(End, usize), Fail> {
    let mut host = host_with(alloc, BASE.as_bytes(), None)?;
    let end = end_over(alloc, &mut host);
    Ok((end, host.inner().file("image").unwrap_or(&[]).len()))
}

// The text of the base image gives its image, of version 2; a call on the file that fails is told with its count.
#[test]
fn the_base_image_of_its_text(rt: HostRuntime) -> Result<(), Fail> {
    let whole = End::Assembled { objects: 26 };
    assert_eq!(rt; base_end(rt.alloc())?, (whole, 672));
    let unread = End::Unread(TextFault::Read { count: 1 });
    let unsaved = End::Unsaved(SaveFault::Write { count: 1 });
    for (role, end) in [(Role::Image, unread), (Role::Saved, unsaved)] {
        let failing = Some((role, 1));
        assert_eq!(rt; end_of(rt.alloc(), BASE.as_bytes(), failing)?, end);
    }
    Ok(())
}
