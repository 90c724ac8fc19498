// Images that are listed, and texts that are assembled: the commands, what they refuse, and hosts that fail at their calls.
use crate::words::ask;
use loom_outside::MemoryHost;
use loom_outside::Role::{self, Image, Notes, Saved, Work};
use loom_run::Status;
use sample_images::{HELLO_NEXT, hello};
use std::alloc::Global;
use std::test::Fail;

/// How many bytes a call moves at most.
const CHUNK: usize = 100_000;

/// How many objects the image has, and how many bytes its text.
const OBJECTS: u32 = 80;

const TEXT_LEN: usize = 3_170;

/// A command over a host that has the image `a` and its text `t`, the role of which the nth call fails, counted from 1 and 0 for none; the
/// answer, its line, and whether the file `c` is there then, whole or in part.
type Conversion = (&'static str, Role, u64, Status, &'static str, bool);

const UNREAD: Status = Status::ReadFault {
    role: Image,
    count: 1,
};

const UNWRITTEN: Status = Status::WriteFault {
    role: Saved,
    count: 1,
};

const UNTOLD: Status = Status::WriteFault {
    role: Notes,
    count: 1,
};

const UNWORKED: Status = Status::WorkFault { count: 1 };

const LISTED: Status = Status::Listed { objects: OBJECTS };

const ASSEMBLED: Status = Status::Assembled { objects: OBJECTS };

const CONVERSIONS: &[Conversion] = &[
    ("list a w c", Notes, 0, LISTED, "listed 80 objects\n", true),
    (
        "asm t w c",
        Notes,
        0,
        ASSEMBLED,
        "assembled 80 objects\n",
        true,
    ),
    (
        "list t w c",
        Notes,
        0,
        Status::ImageBad { rule: 1, place: 0 },
        "image: rule 1 at 0\n",
        false,
    ),
    (
        "asm a w c",
        Notes,
        0,
        Status::TextBad { line: 1, rule: 0 },
        "text: line 1, rule 0\n",
        false,
    ),
    ("list a w c", Work, 1, UNWORKED, "work fault\n", false),
    ("list a w c", Work, 2, UNWORKED, "work fault\n", false),
    ("list a w c", Image, 1, UNREAD, "read fault: Image\n", false),
    ("list a w c", Image, 2, UNREAD, "read fault: Image\n", false),
    (
        "list a w c",
        Saved,
        1,
        UNWRITTEN,
        "write fault: Saved\n",
        false,
    ),
    (
        "list a w c",
        Saved,
        2,
        UNWRITTEN,
        "write fault: Saved\n",
        true,
    ),
    (
        "list a w c",
        Saved,
        3,
        UNWRITTEN,
        "write fault: Saved\n",
        true,
    ),
    ("list a w c", Notes, 1, UNTOLD, "", true),
    ("asm t w c", Work, 1, UNWORKED, "work fault\n", false),
    ("asm t w c", Work, 2, UNWORKED, "work fault\n", false),
    ("asm t w c", Image, 1, UNREAD, "read fault: Image\n", false),
    ("asm t w c", Image, 2, UNREAD, "read fault: Image\n", false),
    (
        "asm t w c",
        Saved,
        1,
        UNWRITTEN,
        "write fault: Saved\n",
        false,
    ),
    (
        "asm t w c",
        Saved,
        2,
        UNWRITTEN,
        "write fault: Saved\n",
        true,
    ),
    (
        "asm t w c",
        Saved,
        3,
        UNWRITTEN,
        "write fault: Saved\n",
        true,
    ),
    ("asm t w c", Notes, 1, UNTOLD, "", true),
    ("list b w c", Notes, 0, UNREAD, "read fault: Image\n", false),
    ("asm b w c", Notes, 0, UNREAD, "read fault: Image\n", false),
];

// The text that is listed of an image.
fn text_of(alloc: Global, image: &[u8]) -> Result<Vec<u8>, Fail> {
    let mut host = MemoryHost::new(alloc, CHUNK)?;
    host.add_file("a", image)?;
    let _status = ask(alloc, &mut host, "list a w c")?;
    let mut text = Vec::new(alloc);
    text.extend_from_slice(host.file("c").unwrap_or(&[]))?;
    Ok(text)
}

// Whether a command is answered so.
fn is_answered(alloc: Global, image: &[u8], text: &[u8], row: Conversion) -> Result<bool, Fail> {
    let (command, role, nth, wanted, notes, written) = row;
    let mut host = MemoryHost::new(alloc, CHUNK)?;
    host.add_file("a", image)?;
    host.add_file("t", text)?;
    host.fail(role, nth)?;
    let status = ask(alloc, &mut host, command)?;
    Ok(status == wanted && host.notes() == notes.as_bytes() && host.file("c").is_some() == written)
}

#[test]
fn conversions_end_as_they_should(rt: HostRuntime) -> Result<(), Fail> {
    let image = hello(rt.alloc())?.finish(rt.alloc(), HELLO_NEXT)?;
    let text = text_of(rt.alloc(), image.bytes())?;
    assert_eq!(rt; text.len(), TEXT_LEN);
    for (i, row) in CONVERSIONS.iter().enumerate() {
        assert_eq!(rt;
            (i, is_answered(rt.alloc(), image.bytes(), &text, *row)?),
            (i, true)
        );
    }
    Ok(())
}

// The first command of each conversion and back, twice, that fails.
fn first_failed(alloc: Global, host: &mut MemoryHost) -> Result<Option<&'static str>, Fail> {
    for command in ["list a w t", "asm t w b", "list b w u", "asm u w d"] {
        let status = ask(alloc, host, command)?;
        if status.code() != 0 || host.ended(Saved).is_none() {
            return Ok(Some(command));
        }
    }
    Ok(None)
}

// Whether text and image are the same both times, and the image is 20 bytes longer than one of version 1.
fn is_given_again(host: &MemoryHost, len: usize) -> bool {
    let second = host.file("b").unwrap_or(&[]);
    second.len() == len.saturating_add(20)
        && host.file("t") == host.file("u")
        && host.file("b") == host.file("d")
}

// An image of version 1 is assembled of its text in version 2, with 20 bytes of state more; and from then on each gives the other again.
#[test]
fn each_gives_the_other(rt: HostRuntime) -> Result<(), Fail> {
    let image = hello(rt.alloc())?.finish(rt.alloc(), HELLO_NEXT)?;
    let mut host = MemoryHost::new(rt.alloc(), CHUNK)?;
    host.add_file("a", image.bytes())?;
    assert_eq!(rt; first_failed(rt.alloc(), &mut host)?, None);
    assert!(rt; is_given_again(&host, image.len()));
    Ok(())
}
