// The images that are run, as tables of objects, and how what a run keeps or saves differs from them.
use long_names::{Body, Name, Octets, Value, Values};
use sample_images::{Builder, NIL, add_bytes, add_pointers, add_words};
use std::alloc::{AllocError, Global};
use std::test::Fail;

/// What an object is: its class and its fields, bytes or words. Values are names, and numbers with an `i` behind them.
#[derive(Clone, Copy)]
pub(crate) enum Holds {
    Fields(u32, &'static str),
    /// The first fields of a context, behind which all are nil.
    Context(&'static str),
    Bytes(u32, &'static [u8]),
    Words(u32, &'static [u16]),
    /// Header, literals and code of a method.
    Method(i16, &'static str, &'static [u8]),
}

use crate::images::Holds::{Bytes, Context, Fields, Method, Words};

/// An object under its name.
pub(crate) type Object = (u32, Holds);

/// An image that is run.
#[derive(Clone, Copy)]
pub(crate) enum Sample {
    /// Asks for a checkpoint, and for another.
    Snaps,
    /// Says a line before each of two checkpoints and one behind them, and quits.
    Says,
    /// Shows a form that the stack alone holds, and drops it between two checkpoints.
    Shows,
    /// Makes a block and drops it, and makes another, which is dropped between the second and the third checkpoint.
    Drops,
    /// Takes input words before and behind a checkpoint.
    Hears,
    /// Two processes that ask for checkpoints, of which one waits for the semaphore of input.
    Switches,
    /// The same, where it is that of the timer.
    Ticks,
    /// Asks for a checkpoint under a scheduler with whose process no machine starts.
    NoStart,
    /// Asks for one under no scheduler, so that the machine can't be parked.
    NoPark,
    /// As the first, with an object so large that its image takes two blocks of a vault.
    Wide,
    /// 1,024 objects. Between two checkpoints it makes one more.
    Crowded,
}

/// The objects of an image, its next name, and the words of its state: clock, display, input, timer and tick.
#[derive(Clone, Copy)]
struct Image {
    class: &'static [Object],
    own: &'static [Object],
    next: u32,
    state: [u32; 5],
}

/// How an image differs from one that is run: its next name and its state, objects in place of those of their names, and names whose objects are gone.
#[derive(Clone, Copy)]
pub(crate) struct Changed {
    pub(crate) next: u32,
    pub(crate) state: [u32; 5],
    pub(crate) objects: &'static [Object],
    pub(crate) gone: &'static [u32],
}

/// The classes of texts, of arrays and of bitmaps.
const STRING: u32 = 14;

const ARRAY: u32 = 16;

const BITMAP: u32 = 30;

/// The scheduler, and its process.
const BASE: &[Object] = &[
    (8, Fields(ARRAY, "2 60")),
    (60, Fields(ARRAY, "2 62")),
    (62, Fields(ARRAY, "2 66 1i 2")),
];

/// Arrays understand `snap`, whose method has the primitive 97.
const SNAP: &[Object] = &[
    (16, Fields(ARRAY, "2 68 0i")),
    (68, Fields(ARRAY, "1i 70 72")),
    (70, Fields(ARRAY, "74")),
    (72, Bytes(STRING, b"snap")),
    (74, Method(-4_094, "97i 2", &[120])),
];

/// They understand the messages of all primitives that the other images do.
const MESSAGES: &[Object] = &[
    (16, Fields(ARRAY, "2 68 0i")),
    (68, Fields(ARRAY, "6i 70 80 82 2 2 72 74 76 78")),
    (70, Fields(ARRAY, "96 98 2 2 88 90 92 94")),
    (72, Bytes(STRING, b"snap")),
    (74, Bytes(STRING, b"say:")),
    (76, Bytes(STRING, b"quit")),
    (78, Bytes(STRING, b"beDisplay")),
    (80, Bytes(STRING, b"inputWord")),
    (82, Bytes(STRING, b"wait")),
    (88, Method(-4_094, "97i 2", &[120])),
    (90, Method(-4_094, "384i 2", &[120])),
    (92, Method(-4_094, "113i 2", &[120])),
    (94, Method(-4_094, "102i 2", &[120])),
    (96, Method(-4_094, "95i 2", &[120])),
    (98, Method(-4_094, "86i 2", &[120])),
];

const SNAPS: &Image = &Image {
    class: SNAP,
    own: &[
        (64, Method(2, "72 76", &[33, 208, 135, 33, 208, 135])),
        (66, Context("2 7i 0i 64 2 2")),
        (76, Fields(ARRAY, "")),
    ],
    next: 78,
    state: [0; 5],
};

const SAYS: &Image = &Image {
    class: MESSAGES,
    own: &[
        (
            64,
            Method(
                6,
                "72 74 76 102 104 106",
                &[
                    112, 35, 225, 135, 112, 208, 135, // self say: one; snap
                    112, 36, 225, 135, 112, 208, 135, // self say: two; snap
                    112, 37, 225, 135, 112, 210, // self say: three; quit
                ],
            ),
        ),
        (66, Context("2 15i 0i 64 2 2")),
        (102, Bytes(STRING, b"one\n")),
        (104, Bytes(STRING, b"two\n")),
        (106, Bytes(STRING, b"three\n")),
    ],
    next: 108,
    state: [0; 5],
};

const SHOWS: &Image = &Image {
    class: MESSAGES,
    own: &[
        (
            64,
            Method(2, "72 78", &[209, 112, 208, 135, 135, 112, 208, 135]),
        ),
        (66, Context("2 7i 1i 64 2 2 102")),
        (102, Fields(ARRAY, "104 16i 2i 2")),
        (104, Words(BITMAP, &[0xf0f0, 0x0f0f])),
    ],
    next: 106,
    state: [0; 5],
};

const DROPS: &Image = &Image {
    class: MESSAGES,
    own: &[
        (
            64,
            Method(
                1,
                "72",
                &[
                    137, 117, 200, 135, 112, 208, 135, // a block is made and dropped; self snap
                    137, 117, 200, 112, 208, 135, 135, // another is made; self snap
                    112, 208, 135, // self snap
                ],
            ),
        ),
        (66, Context("2 5i 0i 64 2 2")),
    ],
    next: 102,
    state: [0; 5],
};

const HEARS: &Image = &Image {
    class: MESSAGES,
    own: &[
        (
            64,
            Method(
                2,
                "72 80",
                &[
                    112, 208, 135, 112, 209, 112, 209, // self snap; two words are taken
                    112, 208, 135, 112, 209, 112, 209, 135, // self snap; two words are taken
                ],
            ),
        ),
        (66, Context("2 7i 0i 64 2 2")),
    ],
    next: 102,
    state: [0; 5],
};

/// The process 62 asks for a checkpoint again and again. 110, of a higher priority, waits for the semaphore 102, and asks for one whenever it was signalled.
const PROCESSES: &[Object] = &[
    (60, Fields(ARRAY, "104 62")),
    (64, Method(1, "72", &[112, 208, 135, 163, 251])),
    (66, Context("2 5i 0i 64 2 2")),
    (102, Fields(ARRAY, "110 110 0i")),
    (104, Fields(ARRAY, "106 108")),
    (106, Fields(ARRAY, "2 2")),
    (108, Fields(ARRAY, "2 2")),
    (110, Fields(ARRAY, "2 112 2i 102")),
    (112, Context("2 11i 1i 114 2 2 102")),
    (
        114,
        Method(3, "82 102 72", &[33, 208, 135, 112, 210, 135, 163, 248]),
    ),
];

const SWITCHES: &Image = &Image {
    class: MESSAGES,
    own: PROCESSES,
    next: 116,
    state: [0, 0, 102, 0, 0],
};

const TICKS: &Image = &Image {
    class: MESSAGES,
    own: PROCESSES,
    next: 116,
    state: [5, 0, 0, 102, 9],
};

/// The association 8 gets another scheduler.
const NO_START: &Image = &Image {
    class: MESSAGES,
    own: &[
        (64, Method(3, "72 8 102", &[34, 130, 193, 112, 208, 135])),
        (66, Context("2 9i 0i 64 2 2")),
        (102, Fields(ARRAY, "2 104")),
        (104, Fields(ARRAY, "2 66 1i")),
    ],
    next: 106,
    state: [0; 5],
};

/// It gets a number.
const NO_PARK: &Image = &Image {
    class: MESSAGES,
    own: &[
        (64, Method(2, "72 8", &[117, 130, 193, 112, 208, 135])),
        (66, Context("2 7i 0i 64 2 2")),
    ],
    next: 102,
    state: [0; 5],
};

/// Without the objects that stand in a row from 76 on, each of which holds the next.
const CROWDED: &Image = &Image {
    class: SNAP,
    own: &[
        (6, Fields(ARRAY, "76")),
        (
            64,
            Method(1, "72", &[112, 208, 135, 137, 117, 200, 112, 208, 135]),
        ),
        (66, Context("2 5i 0i 64 2 2")),
    ],
    next: 2_064,
    state: [0; 5],
};

/// The first of that row, and how many others there are.
const FIRST: u32 = 76;

const LINKS: u32 = 993;

/// How many words the large object has.
const WIDE: usize = 33_000;

fn image_for(sample: Sample) -> &'static Image {
    match sample {
        Sample::Snaps | Sample::Wide => SNAPS,
        Sample::Says => SAYS,
        Sample::Shows => SHOWS,
        Sample::Drops => DROPS,
        Sample::Hears => HEARS,
        Sample::Switches => SWITCHES,
        Sample::Ticks => TICKS,
        Sample::NoStart => NO_START,
        Sample::NoPark => NO_PARK,
        Sample::Crowded => CROWDED,
    }
}

// ---- objects

/// More values than any line has.
const MOST_VALUES: usize = 100;

fn name_of(word: u32) -> Result<Name, Fail> {
    match Name::new(word) {
        Some(name) => Ok(name),
        None => Err("a name is even and above 0".into()),
    }
}

fn value_of(word: &str) -> Result<Value, Fail> {
    match word.strip_suffix('i') {
        Some(number) => Ok(Value::Int(number.parse::<i16>()?)),
        None => Ok(Value::Ref(name_of(word.parse::<u32>()?)?)),
    }
}

fn values_of(alloc: Global, text: &str) -> Result<Vec<Value>, Fail> {
    let mut values = Vec::new(alloc);
    for word in text.split_whitespace() {
        values.push(value_of(word)?)?;
    }
    Ok(values)
}

fn add_fields(
    alloc: Global,
    builder: &mut Builder,
    own: Name,
    class: u32,
    fields: &[Value],
) -> Result<(), Fail> {
    if fields.len() > MOST_VALUES {
        return Err("it has few fields".into());
    }
    add_pointers(alloc, builder, own, name_of(class)?, fields)?;
    Ok(())
}

/// How many fields a context has.
const CONTEXT: usize = 18;

fn add_context(alloc: Global, builder: &mut Builder, own: Name, text: &str) -> Result<(), Fail> {
    let mut fields = values_of(alloc, text)?;
    fields.resize(CONTEXT, NIL)?;
    add_pointers(alloc, builder, own, Name::METHOD_CONTEXT, &fields)?;
    Ok(())
}

fn add_method(
    alloc: Global,
    builder: &mut Builder,
    own: Name,
    header: i16,
    literals: &[Value],
    code: &[u8],
) -> Result<(), AllocError> {
    let body = Body::Method {
        header,
        literals: Values::from_slice(alloc, literals)?,
        code: Octets::from_slice(alloc, code)?,
    };
    builder.add(own, Name::COMPILED_METHOD, body)
}

fn add_object(alloc: Global, builder: &mut Builder, object: Object) -> Result<(), Fail> {
    let own = name_of(object.0)?;
    match object.1 {
        Fields(class, text) => add_fields(alloc, builder, own, class, &values_of(alloc, text)?),
        Context(text) => add_context(alloc, builder, own, text),
        Bytes(class, bytes) if bytes.len() <= MOST_VALUES => {
            Ok(add_bytes(alloc, builder, own, name_of(class)?, bytes)?)
        }
        Words(class, words) if words.len() <= MOST_VALUES => {
            Ok(add_words(alloc, builder, own, name_of(class)?, words)?)
        }
        Method(header, text, code) => {
            let literals = values_of(alloc, text)?;
            Ok(add_method(alloc, builder, own, header, &literals, code)?)
        }
        _ => Err("it has few bytes or words".into()),
    }
}

// Adds objects, but not those that are gone.
fn add_objects(
    alloc: Global,
    builder: &mut Builder,
    objects: &[Object],
    gone: &[u32],
) -> Result<(), Fail> {
    for object in objects {
        if !gone.contains(&object.0) {
            add_object(alloc, builder, *object)?;
        }
    }
    Ok(())
}

fn add_row(alloc: Global, builder: &mut Builder) -> Result<(), Fail> {
    let mut held = FIRST;
    for _ in 0..LINKS {
        let next = held.saturating_add(2);
        let fields = [Value::Ref(name_of(next)?)];
        add_pointers(alloc, builder, name_of(held)?, Name::ARRAY, &fields)?;
        held = next;
    }
    add_pointers(alloc, builder, name_of(held)?, Name::ARRAY, &[])?;
    Ok(())
}

fn add_wide(alloc: Global, builder: &mut Builder) -> Result<(), AllocError> {
    add_words(alloc, builder, Name::TRUE, Name::ARRAY, &[7; WIDE])
}

// ---- bytes

fn put_state(made: &mut Vec<u8>, state: &[u32; 5]) -> Result<(), AllocError> {
    for word in state {
        made.extend_from_slice(&word.to_be_bytes())?;
    }
    Ok(())
}

// An image of version 1 as one of version 2 with these words of a state.
fn with_state(alloc: Global, bytes: &[u8], state: &[u32; 5]) -> Result<Vec<u8>, AllocError> {
    let (head, records) = bytes.split_at(bytes.len().min(16));
    let mut made = Vec::new(alloc);
    made.extend_from_slice(head)?;
    put_state(&mut made, state)?;
    made.extend_from_slice(records)?;
    if let Some(version) = made.get_mut(7) {
        *version = 2;
    }
    Ok(made)
}

// Adds the known objects as arrays of no field.
fn add_known(alloc: Global, builder: &mut Builder) -> Result<(), AllocError> {
    for known in Name::known() {
        add_pointers(alloc, builder, known, Name::ARRAY, &[])?;
    }
    Ok(())
}

// Adds those in a row, or the large one, where an image has them.
fn add_rest(alloc: Global, builder: &mut Builder, sample: Sample) -> Result<(), Fail> {
    match sample {
        Sample::Crowded => add_row(alloc, builder),
        Sample::Wide => Ok(add_wide(alloc, builder)?),
        _ => Ok(()),
    }
}

// Adds all objects of an image that differs so.
fn add_all(
    alloc: Global,
    builder: &mut Builder,
    sample: Sample,
    with: &Changed,
) -> Result<(), Fail> {
    let image = image_for(sample);
    add_known(alloc, builder)?;
    for objects in [BASE, image.class, image.own, with.objects] {
        add_objects(alloc, builder, objects, with.gone)?;
    }
    add_rest(alloc, builder, sample)
}

/// The bytes of an image that differs so from one that is run, in version 2.
pub(crate) fn image_with(alloc: Global, sample: Sample, with: &Changed) -> Result<Vec<u8>, Fail> {
    let mut builder = Builder::new(alloc)?;
    add_all(alloc, &mut builder, sample, with)?;
    let bytes = builder.finish(alloc, with.next)?;
    Ok(with_state(alloc, bytes.bytes(), &with.state)?)
}

/// Those of one that is run.
pub(crate) fn image_of(alloc: Global, sample: Sample) -> Result<Vec<u8>, Fail> {
    let image = image_for(sample);
    let same = Changed {
        next: image.next,
        state: image.state,
        objects: &[],
        gone: &[],
    };
    image_with(alloc, sample, &same)
}
