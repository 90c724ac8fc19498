// What no case runs of the program: hosts that fail, an image that is saved over itself, more objects than there is room for, and that it
// runs over the memory of two levels.
use crate::words::ask;
use long_names::{Name, Octets};
use loom_outside::MemoryHost;
use loom_outside::Role::{self, Display, Events, Image, Notes, Saved, Transcript, Work};
use loom_run::Status;
use object_memory::Need;
use sample_images::{
    Builder, HELLO_NEXT, Header, METHOD, NEXT, NIL, SCHEDULER, add_method, add_pointers, add_words,
    base, hello, name, object,
};
use std::alloc::{AllocError, Global};
use std::test::Fail;

// A host that has these bytes as the file "image", and events that change nothing as "events". One call moves at most 100 bytes.
fn host_with(alloc: Global, image: &[u8]) -> Result<MemoryHost, AllocError> {
    let mut host = MemoryHost::new(alloc, 100)?;
    host.add_file("image", image)?;
    host.add_file("events", b"1 purge\n1 compact\n")?;
    Ok(host)
}

// An image of version 1 as it is saved where its objects are as they were after so many bytecodes: of version 2, with a state behind the
// first 16 bytes. The clock is the first number of the state, and the others are 0.
fn saved_as(alloc: Global, image: &[u8], clock: u8) -> Result<Vec<u8>, AllocError> {
    let (head, records) = image.split_at(image.len().min(16));
    let mut made = Vec::new(alloc);
    made.extend_from_slice(head)?;
    made.extend_from_slice(&[0, 0, 0, clock])?;
    made.extend_from_slice(&[0; 16])?;
    made.extend_from_slice(records)?;
    set(&mut made, 7, 2);
    Ok(made)
}

fn set(bytes: &mut Vec<u8>, at: usize, byte: u8) {
    if let Some(old) = bytes.get_mut(at) {
        *old = byte;
    }
}

/// Where the saved base image has the instruction pointer of its context: the last byte of field 1 of the last object.
const POINTER: usize = 607;

// The base image as it is saved after two bytecodes: the instruction pointer was 3 and is 5. In a field a number stands doubled and one more.
fn two_later(alloc: Global, image: &[u8]) -> Result<Vec<u8>, AllocError> {
    let mut made = saved_as(alloc, image, 2)?;
    set(&mut made, POINTER, 11);
    Ok(made)
}

#[test]
fn an_image_is_saved_over_itself(rt: HostRuntime) -> Result<(), Fail> {
    let image = base(rt.alloc())?.finish(rt.alloc(), NEXT)?;
    let mut host = host_with(rt.alloc(), image.bytes())?;
    let words = "run image events work image display 4096 512 1024 2";
    assert_eq!(rt; ask(rt.alloc(), &mut host, words)?, Status::Done { ran: 2 });
    assert_eq!(rt; host.notes(), b"ran 2\n".as_slice());
    let saved = two_later(rt.alloc(), image.bytes())?;
    assert_eq!(rt; host.file("image"), Some(saved.as_slice()));
    assert_eq!(rt; host.file("display"), Some(b"".as_slice()));
    Ok(())
}

// ---- images

/// An image that is run.
#[derive(Clone, Copy)]
pub(crate) enum Sample {
    Base,
    /// The base image without its last byte.
    Cut,
    /// The base image, whose scheduler's association is one word too large for the smallest core.
    WideAssociation,
    /// The image that says a word and draws.
    Hello,
    /// The same, where the bitmap that it draws into is one word too large.
    WideBits,
    /// The base image, where nil holds the first of a long chain of objects that each hold the next, and the last holds itself.
    Chain,
    /// The base image with a chain, so that it has 1,024 objects, whose method makes one more.
    Crowded,
    /// The image that says a word. Then it stores into one bitmap, into another, and into the first again, says the word and quits. The
    /// smallest core has room for one of the two.
    TwoBitmaps,
}

/// So many words of a body are one too many for the smallest core, since an object takes four more.
const WIDE: usize = 4_093;

/// How many objects the long chain has, and the one of the crowded image.
const LINKS: u16 = 20_000;

const FEW_LINKS: u16 = 998;

/// Makes a block of the active context, pops it, and jumps back.
const BLOCKS: &[u8] = &[137, 117, 200, 135, 163, 250];

fn chain(alloc: Global, links: u16) -> Result<Builder, AllocError> {
    let mut builder = base(alloc)?;
    for i in 0..links {
        let next = if i + 1 < links { i + 1 } else { i };
        let held = [object(NEXT + 2 * u32::from(next))];
        let own = name(NEXT + 2 * u32::from(i));
        add_pointers(alloc, &mut builder, own, Name::ARRAY, &held)?;
    }
    add_pointers(alloc, &mut builder, Name::NIL, Name::ARRAY, &[object(NEXT)])?;
    Ok(builder)
}

fn crowded(alloc: Global) -> Result<Builder, AllocError> {
    let mut builder = chain(alloc, FEW_LINKS)?;
    add_method(
        alloc,
        &mut builder,
        name(METHOD),
        Header::PLAIN,
        &[],
        BLOCKS,
    )?;
    Ok(builder)
}

fn wide_association(alloc: Global) -> Result<Builder, AllocError> {
    let mut builder = base(alloc)?;
    let mut fields = [NIL; WIDE];
    fields[1] = object(SCHEDULER);
    add_pointers(
        alloc,
        &mut builder,
        Name::SCHEDULER_ASSOCIATION,
        Name::ARRAY,
        &fields,
    )?;
    Ok(builder)
}

/// The bitmap of the image that says a word and draws.
const BITS: u32 = 94;

fn wide_bits(alloc: Global) -> Result<Builder, AllocError> {
    let mut builder = hello(alloc)?;
    add_words(
        alloc,
        &mut builder,
        name(BITS),
        Name::DISPLAY_BITMAP,
        &[0; WIDE],
    )?;
    Ok(builder)
}

/// Says the word, stores 2 at 1 into the two bitmaps in turn, says the word and quits. The literals 0 and 1 are the word and `say:`, 2 and 7
/// the bitmaps, 6 `quit`; the special send 17 is `at:put:`.
const IN_TURN: &[u8] = &[
    112, 32, 225, 135, 34, 118, 119, 193, 135, 39, 118, 119, 193, 135, 34, 118, 119, 193, 135, 112,
    32, 225, 135, 112, 214,
];

fn two_bitmaps(alloc: Global) -> Result<Builder, AllocError> {
    let mut builder = hello(alloc)?;
    add_words(
        alloc,
        &mut builder,
        name(BITS),
        Name::DISPLAY_BITMAP,
        &[0; 3_000],
    )?;
    add_words(
        alloc,
        &mut builder,
        name(HELLO_NEXT),
        Name::DISPLAY_BITMAP,
        &[0; 3_000],
    )?;
    let literals = [
        object(92),
        object(72),
        object(BITS),
        object(98),
        object(96),
        object(78),
        object(80),
        object(HELLO_NEXT),
    ];
    add_method(
        alloc,
        &mut builder,
        name(METHOD),
        Header::PLAIN,
        &literals,
        IN_TURN,
    )?;
    Ok(builder)
}

// The objects of an image, and the next name.
fn objects_of(alloc: Global, sample: Sample) -> Result<(Builder, u32), AllocError> {
    match sample {
        Sample::Base | Sample::Cut => Ok((base(alloc)?, NEXT)),
        Sample::WideAssociation => Ok((wide_association(alloc)?, NEXT)),
        Sample::Hello => Ok((hello(alloc)?, HELLO_NEXT)),
        Sample::WideBits => Ok((wide_bits(alloc)?, HELLO_NEXT)),
        Sample::Chain => Ok((chain(alloc, LINKS)?, NEXT + 2 * u32::from(LINKS))),
        Sample::Crowded => Ok((crowded(alloc)?, NEXT + 2 * u32::from(FEW_LINKS))),
        Sample::TwoBitmaps => Ok((two_bitmaps(alloc)?, HELLO_NEXT + 2)),
    }
}

// The bytes of an image, whole.
fn octets_of(alloc: Global, sample: Sample) -> Result<Octets, Fail> {
    let (objects, next) = objects_of(alloc, sample)?;
    Ok(objects.finish(alloc, next)?)
}

// How many bytes of an image are in its file.
fn length_of(octets: &Octets, sample: Sample) -> usize {
    match sample {
        Sample::Cut => octets.len().saturating_sub(1),
        _ => octets.len(),
    }
}

// What is saved of an image, where it is known.
fn wanted(alloc: Global, sample: Sample, image: &[u8]) -> Result<Option<Vec<u8>>, AllocError> {
    match sample {
        Sample::Base => Ok(Some(two_later(alloc, image)?)),
        Sample::Chain => Ok(Some(saved_as(alloc, image, 0)?)),
        _ => Ok(None),
    }
}

// ---- runs

/// What stands in a file: there is none, or at most so many bytes, or so many. Or there may be one.
#[derive(Clone, Copy)]
pub(crate) enum Left {
    Nothing,
    Most(usize),
    All(usize),
    Any,
}

/// An image, a command, which call on which role fails (the 0th never comes), the answer, its line, what was said, and what stands in the
/// files of the saved image and of the picture. What is saved of the base image and of the chain begins as the whole does.
#[derive(Clone, Copy)]
pub(crate) struct Run {
    pub(crate) sample: Sample,
    pub(crate) words: &'static str,
    pub(crate) role: Role,
    pub(crate) nth: u64,
    pub(crate) status: Status,
    pub(crate) notes: &'static str,
    pub(crate) said: &'static str,
    pub(crate) saved: Left,
    pub(crate) display: Left,
}

pub(crate) const SHORT: &str = "run image events work saved display 4096 512 1024 2";

const LONG: &str = "run image events work saved display 4096 512 1024 10000";

/// How many bytes are saved of the base image, and of the one that draws, and how many its picture has; and how many are saved of the chain
/// and of the crowded image.
pub(crate) const LENGTH: usize = 672;

const HELLO_LENGTH: usize = 3_124;

const PICTURE_LENGTH: usize = 265;

const CHAIN_LENGTH: usize = 480_676;

const CROWDED_LENGTH: usize = 24_724;

// The first call on a role that has a word is to attach it. Where a core is too small, the object alone is: the scheduler's association with
// nothing pinned, at the start; and the bitmap with the context and the method, of 22 and 26 words, with 18 fields and 8 literals.
const RUNS: &[Run] = &[
    Run {
        sample: Sample::Cut,
        words: SHORT,
        role: Work,
        nth: 0,
        status: Status::ImageBad {
            rule: 9,
            place: 651,
        },
        notes: "image: rule 9 at 651\n",
        said: "",
        saved: Left::Nothing,
        display: Left::Nothing,
    },
    Run {
        sample: Sample::Cut,
        words: SHORT,
        role: Notes,
        nth: 1,
        status: Status::ImageBad {
            rule: 9,
            place: 651,
        },
        notes: "",
        said: "",
        saved: Left::Nothing,
        display: Left::Nothing,
    },
    Run {
        sample: Sample::Base,
        words: "run no events work saved display 4096 512 1024 2",
        role: Work,
        nth: 0,
        status: Status::ReadFault {
            role: Image,
            count: 1,
        },
        notes: "read fault: Image\n",
        said: "",
        saved: Left::Nothing,
        display: Left::Nothing,
    },
    Run {
        sample: Sample::Base,
        words: "run image no work saved display 4096 512 1024 2",
        role: Work,
        nth: 0,
        status: Status::ReadFault {
            role: Events,
            count: 1,
        },
        notes: "read fault: Events\n",
        said: "",
        saved: Left::Nothing,
        display: Left::Nothing,
    },
    Run {
        sample: Sample::Base,
        words: "run image image work saved display 4096 512 1024 2",
        role: Work,
        nth: 0,
        status: Status::EventsBad { line: 1 },
        notes: "events: line 1\n",
        said: "",
        saved: Left::Nothing,
        display: Left::Nothing,
    },
    Run {
        sample: Sample::Base,
        words: SHORT,
        role: Work,
        nth: 1,
        status: Status::WorkFault { count: 1 },
        notes: "work fault\n",
        said: "",
        saved: Left::Nothing,
        display: Left::Nothing,
    },
    Run {
        sample: Sample::Base,
        words: SHORT,
        role: Work,
        nth: 2,
        status: Status::WorkFault { count: 1 },
        notes: "work fault\n",
        said: "",
        saved: Left::Nothing,
        display: Left::Nothing,
    },
    Run {
        sample: Sample::Base,
        words: SHORT,
        role: Image,
        nth: 1,
        status: Status::ReadFault {
            role: Image,
            count: 1,
        },
        notes: "read fault: Image\n",
        said: "",
        saved: Left::Nothing,
        display: Left::Nothing,
    },
    Run {
        sample: Sample::Base,
        words: SHORT,
        role: Image,
        nth: 3,
        status: Status::ReadFault {
            role: Image,
            count: 1,
        },
        notes: "read fault: Image\n",
        said: "",
        saved: Left::Nothing,
        display: Left::Nothing,
    },
    Run {
        sample: Sample::Base,
        words: SHORT,
        role: Events,
        nth: 1,
        status: Status::ReadFault {
            role: Events,
            count: 1,
        },
        notes: "read fault: Events\n",
        said: "",
        saved: Left::Nothing,
        display: Left::Nothing,
    },
    Run {
        sample: Sample::Base,
        words: SHORT,
        role: Events,
        nth: 2,
        status: Status::ReadFault {
            role: Events,
            count: 1,
        },
        notes: "read fault: Events\n",
        said: "",
        saved: Left::Nothing,
        display: Left::Nothing,
    },
    Run {
        sample: Sample::Base,
        words: SHORT,
        role: Saved,
        nth: 1,
        status: Status::WriteFault {
            role: Saved,
            count: 1,
        },
        notes: "write fault: Saved\n",
        said: "",
        saved: Left::Nothing,
        display: Left::Nothing,
    },
    Run {
        sample: Sample::Base,
        words: SHORT,
        role: Saved,
        nth: 3,
        status: Status::WriteFault {
            role: Saved,
            count: 1,
        },
        notes: "write fault: Saved\n",
        said: "",
        saved: Left::Most(100),
        display: Left::Nothing,
    },
    Run {
        sample: Sample::Base,
        words: SHORT,
        role: Display,
        nth: 1,
        status: Status::WriteFault {
            role: Display,
            count: 1,
        },
        notes: "write fault: Display\n",
        said: "",
        saved: Left::All(LENGTH),
        display: Left::Nothing,
    },
    Run {
        sample: Sample::Base,
        words: SHORT,
        role: Notes,
        nth: 1,
        status: Status::WriteFault {
            role: Notes,
            count: 1,
        },
        notes: "",
        said: "",
        saved: Left::All(LENGTH),
        display: Left::All(0),
    },
    Run {
        sample: Sample::Base,
        words: SHORT,
        role: Transcript,
        nth: 1,
        status: Status::Done { ran: 2 },
        notes: "ran 2\n",
        said: "",
        saved: Left::All(LENGTH),
        display: Left::All(0),
    },
    Run {
        sample: Sample::WideAssociation,
        words: SHORT,
        role: Work,
        nth: 0,
        status: Status::CoreFull {
            ran: 0,
            need: Need {
                object: 8,
                words: 4_097,
                entries: 51,
            },
        },
        notes: "core full after 0: object 8, 4097 words, 51 entries\n",
        said: "",
        saved: Left::Nothing,
        display: Left::Nothing,
    },
    Run {
        sample: Sample::WideBits,
        words: LONG,
        role: Work,
        nth: 0,
        status: Status::CoreFull {
            ran: 9,
            need: Need {
                object: 94,
                words: 4_145,
                entries: 81,
            },
        },
        notes: "core full after 9: object 94, 4145 words, 81 entries\n",
        said: "loom\n",
        saved: Left::Nothing,
        display: Left::Nothing,
    },
    Run {
        sample: Sample::Hello,
        words: LONG,
        role: Work,
        nth: 0,
        status: Status::Quit { ran: 2_056 },
        notes: "quit after 2056\n",
        said: "loom\n",
        saved: Left::All(HELLO_LENGTH),
        display: Left::All(PICTURE_LENGTH),
    },
    Run {
        sample: Sample::Hello,
        words: LONG,
        role: Work,
        nth: 700,
        status: Status::WorkFault { count: 1 },
        notes: "work fault\n",
        said: "loom\n",
        saved: Left::Nothing,
        display: Left::Nothing,
    },
    Run {
        sample: Sample::Hello,
        words: LONG,
        role: Transcript,
        nth: 1,
        status: Status::WriteFault {
            role: Transcript,
            count: 1,
        },
        notes: "write fault: Transcript\n",
        said: "",
        saved: Left::Nothing,
        display: Left::Nothing,
    },
    Run {
        sample: Sample::Hello,
        words: LONG,
        role: Display,
        nth: 2,
        status: Status::WriteFault {
            role: Display,
            count: 1,
        },
        notes: "write fault: Display\n",
        said: "loom\n",
        saved: Left::All(HELLO_LENGTH),
        display: Left::Most(100),
    },
    Run {
        sample: Sample::Hello,
        words: LONG,
        role: Display,
        nth: 3,
        status: Status::WriteFault {
            role: Display,
            count: 1,
        },
        notes: "write fault: Display\n",
        said: "loom\n",
        saved: Left::All(HELLO_LENGTH),
        display: Left::Most(200),
    },
    Run {
        sample: Sample::Hello,
        words: LONG,
        role: Notes,
        nth: 1,
        status: Status::WriteFault {
            role: Notes,
            count: 1,
        },
        notes: "",
        said: "loom\n",
        saved: Left::All(HELLO_LENGTH),
        display: Left::All(PICTURE_LENGTH),
    },
    Run {
        sample: Sample::Chain,
        words: "run image events work saved display 4096 512 20026 0",
        role: Work,
        nth: 0,
        status: Status::Done { ran: 0 },
        notes: "ran 0\n",
        said: "",
        saved: Left::All(CHAIN_LENGTH),
        display: Left::All(0),
    },
    Run {
        sample: Sample::Chain,
        words: "run image events work saved display 4096 512 20025 0",
        role: Work,
        nth: 0,
        status: Status::WorkFull {
            live: 20_026,
            room: 20_025,
        },
        notes: "work full: 20026 objects, room 20025\n",
        said: "",
        saved: Left::Nothing,
        display: Left::Nothing,
    },
    Run {
        sample: Sample::Crowded,
        words: "run image events work saved display 4096 512 1024 9",
        role: Work,
        nth: 0,
        status: Status::WorkFull {
            live: 1_025,
            room: 1_024,
        },
        notes: "work full: 1025 objects, room 1024\n",
        said: "",
        saved: Left::Nothing,
        display: Left::Nothing,
    },
    Run {
        sample: Sample::Crowded,
        words: "run image events work saved display 4096 512 1025 9",
        role: Work,
        nth: 0,
        status: Status::Done { ran: 9 },
        notes: "ran 9\n",
        said: "",
        saved: Left::All(CROWDED_LENGTH),
        display: Left::All(0),
    },
];

fn is_left(file: Option<&[u8]>, left: Left) -> bool {
    match (file, left) {
        (None, Left::Nothing) => true,
        (Some(file), Left::Most(most)) => file.len() <= most,
        (Some(file), Left::All(length)) => file.len() == length,
        (_, Left::Any) => true,
        _ => false,
    }
}

// Whether what stands in a file begins as the whole does.
fn begins(file: Option<&[u8]>, whole: Option<&[u8]>) -> bool {
    match (file, whole) {
        (Some(file), Some(whole)) => whole.starts_with(file),
        _ => true,
    }
}

// Whether a host holds what a row says.
fn is_written(host: &MemoryHost, row: &Run) -> bool {
    host.notes() == row.notes.as_bytes()
        && host.transcript() == row.said.as_bytes()
        && is_left(host.file("saved"), row.saved)
        && is_left(host.file("display"), row.display)
        && host.ended(Saved) == end_of(row)
}

// Whether a call on Saved failed.
fn is_unsaved(status: Status) -> bool {
    match status {
        Status::WriteFault { role, .. } => role == Saved,
        _ => false,
    }
}

// How many bytes of Saved were put when it was ended: all, where no call on it failed.
fn end_of(row: &Run) -> Option<usize> {
    match row.saved {
        Left::All(length) if !is_unsaved(row.status) => Some(length),
        _ => None,
    }
}

// Makes a run, and says whether it comes out as its row says.
pub(crate) fn is_right(alloc: Global, row: &Run) -> Result<bool, Fail> {
    let octets = octets_of(alloc, row.sample)?;
    let image = octets
        .bytes()
        .get(..length_of(&octets, row.sample))
        .unwrap_or(&[]);
    let mut host = host_with(alloc, image)?;
    host.fail(row.role, row.nth)?;
    let status = ask(alloc, &mut host, row.words)?;
    let whole = wanted(alloc, row.sample, image)?;
    Ok(
        status == row.status
            && is_written(&host, row)
            && begins(host.file("saved"), whole.as_deref()),
    )
}

#[test]
fn runs_end_as_they_should(rt: HostRuntime) -> Result<(), Fail> {
    for (i, row) in RUNS.iter().enumerate() {
        assert_eq!(rt; (i, is_right(rt.alloc(), row)?), (i, true));
    }
    Ok(())
}

/// A command, and whether Work is written between the first and the last that is said.
struct Paging {
    words: &'static str,
    writes: bool,
}

// In the smallest core the first bitmap, which was changed, has to leave the core for the other. In a large one nothing has to leave.
const PAGINGS: [Paging; 2] = [
    Paging {
        words: "run image none work saved display 4096 512 1024 100",
        writes: true,
    },
    Paging {
        words: "run image none work saved display 65536 32767 1024 100",
        writes: false,
    },
];

// Whether a run of the two bitmaps goes through, and writes Work as a row says.
fn pages(alloc: Global, row: &Paging) -> Result<bool, Fail> {
    let octets = octets_of(alloc, Sample::TwoBitmaps)?;
    let mut host = host_with(alloc, octets.bytes())?;
    host.add_file("none", b"")?;
    let status = ask(alloc, &mut host, row.words)?;
    let (first, last) = host.work_writes();
    Ok(
        status == Status::Quit { ran: 25 }
            && host.transcript() == b"loom\nloom\n".as_slice()
            && (first < last) == row.writes,
    )
}

#[test]
fn what_has_no_room_leaves_the_core(rt: HostRuntime) -> Result<(), Fail> {
    for (i, row) in PAGINGS.iter().enumerate() {
        assert_eq!(rt; (i, pages(rt.alloc(), row)?), (i, true));
    }
    Ok(())
}
