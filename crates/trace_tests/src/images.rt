// The images that are traced, and how a command is run over one. A table names an image by a word without fields: its text stands in no row.
use long_names::Name;
use loom_outside::MemoryHost;
use loom_outside::Role::Saved;
use loom_run::{Status, loom};
use sample_images::{
    BLIT_NEXT, Builder, HELLO_NEXT, Header, METHOD, NEXT, add_method, add_pointers, add_words,
    base, blit, hello, name, object,
};
use std::alloc::{AllocError, Global};
use std::test::Fail;

/// How many bytes a call moves at most: a line goes by two calls.
const CHUNK: usize = 6;

/// An image that is traced.
#[derive(Clone, Copy)]
pub(crate) enum Traced {
    Base,
    /// The image that says a word.
    Hello,
    /// The same, where the bitmap that it draws into is one word too large for the smallest core.
    WideBits,
    /// The image that draws by `copyBits`.
    Blit,
    /// 1,024 objects, and a method whose second bytecode makes one more.
    Crowded,
    /// Two processes and a semaphore: the one signals it, for which the other waits.
    Signalling,
    /// The same, where the semaphore is that of input.
    Input,
    /// The same, where it is that of the timer.
    Timer,
    /// The same, where what is to be signalled at an input is no semaphore.
    NoSemaphore,
    /// A message of two arguments to an object of a class that understands `doesNotUnderstand:` alone.
    Told,
    /// And to one of a class that understands nothing.
    Untold,
    /// A method whose third byte is no bytecode.
    Unused,
    /// A scheduler's association without fields: no machine starts with it.
    NoStart,
    /// A method that makes a point, where no name is left.
    Point,
}

/// An image as text: its first line, objects in place of the base image's, and objects behind them.
#[derive(Clone, Copy)]
struct Text {
    head: &'static str,
    changed: &'static [&'static str],
    added: &'static str,
}

/// One process signals the semaphore 80 for ever, in the context 66; the other, of a higher priority, waits for it in the context 90, and again
/// whenever it was signalled.
const PROCESSES: &[&str] = &[
    "16 16 pointers 2 68 0i",
    "60 16 pointers 82 62",
    "64 34 method 2i 72 80 code 21 d0 87 a3 fb",
    "66 22 pointers 2 7i 0i 64 2 2 2 2 2 2 2 2 2 2 2 2 2 2",
];

const SEMAPHORE: &str = "68 16 pointers 2i 70 72 74
70 16 pointers 76 78
72 14 bytes 73 69 67 6e 61 6c
74 14 bytes 77 61 69 74
76 34 method -4094i 85i 2 code 78
78 34 method -4094i 86i 2 code 78
80 16 pointers 88 88 0i
82 16 pointers 84 86
84 16 pointers 2 2
86 16 pointers 2 2
88 16 pointers 2 90 2i 80
90 22 pointers 2 9i 1i 92 2 2 80 2 2 2 2 2 2 2 2 2 2 2
92 34 method 2i 74 80 code 21 d0 87 a3 fb
";

/// A class, and a method that sends a message of two arguments.
const SENDER: &[&str] = &[
    "16 16 pointers 2 68 0i",
    "64 34 method 1i 72 code 70 76 77 f0",
    "66 22 pointers 2 5i 0i 64 2 2 2 2 2 2 2 2 2 2 2 2 2 2",
];

const TOLD: &str = "68 16 pointers 1i 70 42
70 16 pointers 74
72 14 bytes 61 3a 62 3a
74 34 method 4224i code 10 7c
";

const UNTOLD: &str = "68 16 pointers 0i 70 2
70 16 pointers 74
72 14 bytes 61 3a 62 3a
74 34 method 4224i code 10 7c
";

const UNUSED: &[&str] = &["64 34 method 0i code 70 87 7e"];

const NO_START: &[&str] = &["8 16 pointers", "58 16 pointers 60"];

const POINT: &[&str] = &["64 34 method 0i code 76 77 bb"];

/// One word more than an object of the smallest core may have.
const WIDE: usize = 4_093;

/// The bitmap of the image that says a word.
const BITS: u32 = 94;

/// How many objects stand in a row in the crowded image, each of which holds the next.
const LINKS: u16 = 998;

/// Makes a block of the active context, pops it, and jumps back.
const BLOCKS: &[u8] = &[137, 117, 200, 135, 163, 250];

// ---- images as text

fn processes(head: &'static str) -> Text {
    Text {
        head,
        changed: PROCESSES,
        added: SEMAPHORE,
    }
}

fn sender(added: &'static str) -> Text {
    Text {
        head: "loom 76 0 0 0 0 0",
        changed: SENDER,
        added,
    }
}

fn with_method(head: &'static str, changed: &'static [&'static str]) -> Text {
    Text {
        head,
        changed,
        added: "",
    }
}

// The text of an image that is made of one.
fn text_for(traced: Traced) -> Option<Text> {
    match traced {
        Traced::Base | Traced::Hello | Traced::WideBits | Traced::Blit | Traced::Crowded => None,
        Traced::Signalling => Some(processes("loom 94 0 0 0 0 0")),
        Traced::Input => Some(processes("loom 94 0 0 80 0 0")),
        Traced::Timer => Some(processes("loom 94 5 0 0 80 6")),
        Traced::NoSemaphore => Some(processes("loom 94 0 0 82 0 0")),
        Traced::Told => Some(sender(TOLD)),
        Traced::Untold => Some(sender(UNTOLD)),
        Traced::Unused => Some(with_method("loom 68 0 0 0 0 0", UNUSED)),
        Traced::NoStart => Some(with_method("loom 68 0 0 0 0 0", NO_START)),
        Traced::Point => Some(with_method("loom 4294967294 0 0 0 0 0", POINT)),
    }
}

// What a line begins with: the name of its object.
fn name_in(line: &str) -> Option<&str> {
    line.split(' ').next()
}

// Of some lines that of the same object as this one, or else this one.
fn changed<'a>(line: &'a str, others: &[&'a str]) -> &'a str {
    for other in others {
        if name_in(other) == name_in(line) {
            return other;
        }
    }
    line
}

fn push_line(text: &mut Vec<u8>, line: &str) -> Result<(), AllocError> {
    text.extend_from_slice(line.as_bytes())?;
    text.push(b'\n')?;
    Ok(())
}

// The lines of a text in place of those of the base image's.
fn text_with(alloc: Global, base: &str, of: Text) -> Result<Vec<u8>, AllocError> {
    let mut text = Vec::new(alloc);
    push_line(&mut text, of.head)?;
    for line in base.lines().skip(1) {
        push_line(&mut text, changed(line, of.changed))?;
    }
    text.extend_from_slice(of.added.as_bytes())?;
    Ok(text)
}

// What a command makes the file `c` of these bytes as the file `a`.
fn converted(alloc: Global, bytes: &[u8], command: &str) -> Result<Vec<u8>, AllocError> {
    let mut host = MemoryHost::new(alloc, 100_000)?;
    host.add_file("a", bytes)?;
    let _status = ask(alloc, &mut host, command)?;
    host.file("c").unwrap_or(&[]).to_vec(alloc)
}

// ---- images out of objects

fn wide_bits(alloc: Global) -> Result<Builder, AllocError> {
    let mut builder = hello(alloc)?;
    add_words(
        alloc,
        &mut builder,
        name(BITS),
        Name::DISPLAY_BITMAP,
        &[0; WIDE],
    )?;
    Ok(builder)
}

fn crowded(alloc: Global) -> Result<Builder, AllocError> {
    let mut builder = base(alloc)?;
    for i in 0..LINKS {
        let held = [object(NEXT + 2 * u32::from(i.saturating_sub(1)))];
        let own = name(NEXT + 2 * u32::from(i));
        add_pointers(alloc, &mut builder, own, Name::ARRAY, &held)?;
    }
    let last = [object(NEXT + 2 * u32::from(LINKS - 1))];
    add_pointers(alloc, &mut builder, Name::NIL, Name::ARRAY, &last)?;
    add_method(
        alloc,
        &mut builder,
        name(METHOD),
        Header::PLAIN,
        &[],
        BLOCKS,
    )?;
    Ok(builder)
}

// The objects of an image, and the next name; those of the base image, where the image is made of a text.
fn objects_of(alloc: Global, traced: Traced) -> Result<(Builder, u32), AllocError> {
    match traced {
        Traced::Hello => Ok((hello(alloc)?, HELLO_NEXT)),
        Traced::WideBits => Ok((wide_bits(alloc)?, HELLO_NEXT)),
        Traced::Blit => Ok((blit(alloc)?, BLIT_NEXT)),
        Traced::Crowded => Ok((crowded(alloc)?, NEXT + 2 * u32::from(LINKS))),
        _ => Ok((base(alloc)?, NEXT)),
    }
}

fn image_of(alloc: Global, traced: Traced) -> Result<Vec<u8>, Fail> {
    let (objects, next) = objects_of(alloc, traced)?;
    let image = objects.finish(alloc, next)?;
    match text_for(traced) {
        Some(of) => {
            let base = converted(alloc, image.bytes(), "list a w c")?;
            let text = text_with(alloc, str::from_utf8(&base)?, of)?;
            Ok(converted(alloc, &text, "asm a w c")?)
        }
        None => Ok(image.bytes().to_vec(alloc)?),
    }
}

// ---- commands

/// Runs these words.
pub(crate) fn ask(alloc: Global, host: &mut MemoryHost, line: &str) -> Result<Status, AllocError> {
    let mut words = Vec::new(alloc);
    for word in line.split_whitespace() {
        words.push(String::from_str(alloc, word)?)?;
    }
    Ok(loom(alloc, host, &words))
}

/// A host that has the image as the file `a` and events as `e`.
pub(crate) fn host_with(alloc: Global, traced: Traced, events: &str) -> Result<MemoryHost, Fail> {
    let image = image_of(alloc, traced)?;
    let mut host = MemoryHost::new(alloc, CHUNK)?;
    host.add_file("a", &image)?;
    host.add_file("e", events.as_bytes())?;
    Ok(host)
}

/// Traces so many bytecodes, in the smallest core and with the least room.
pub(crate) fn trace(
    alloc: Global,
    host: &mut MemoryHost,
    steps: u32,
) -> Result<Status, AllocError> {
    let line = format!(in alloc; "trace a e w c 4096 512 1024 {steps}")?;
    ask(alloc, host, &line)
}

/// Whether the file `c` is this text, ended or not, or isn't there. Display is attached by no name, and not by an empty one either.
pub(crate) fn is_left(host: &MemoryHost, text: Option<&str>, ended: bool) -> bool {
    let (file, end) = match text {
        Some(text) if ended => (Some(text.as_bytes()), Some(text.len())),
        Some(text) => (Some(text.as_bytes()), None),
        None => (None, None),
    };
    host.file("c") == file && host.ended(Saved) == end && host.file("").is_none()
}
