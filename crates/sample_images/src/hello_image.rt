// An image that says a word, draws a picture and quits.

use crate::base_image::{CONTEXT, METHOD, base};
use crate::messages::{Message, POINTERS, WORDS};
use crate::notation::{Header, NIL, add_bytes, add_method, add_pointers, add_words, name, object};
use image_builder::Builder;
use long_names::{Name, SMALL_INTEGERS, Value};
use std::alloc::{AllocError, Global};

const DICTIONARY: u32 = 68;

const METHODS: u32 = 70;

const SAY: u32 = 72;

const AT: u32 = 74;

const AT_PUT: u32 = 76;

const BE_DISPLAY: u32 = 78;

const QUIT: u32 = 80;

/// The first of the methods, which are named in the order of their selectors.
const FIRST_METHOD: u32 = 82;

const TEXT: u32 = 92;

const BITS: u32 = 94;

const FORM: u32 = 96;

const ROWS: u32 = 98;

/// Where a word of the picture is above the greatest SmallInteger, its number is an object; this would be the name of the first.
const FIRST_NUMBER: u32 = 100;

/// The next name.
pub const HELLO_NEXT: u32 = FIRST_NUMBER + 256;

/// The messages, in the order of their selectors' names.
const MESSAGES: [Message; 5] = [
    Message {
        selector: "say:",
        arguments: 1,
        primitive: 128,
    },
    Message {
        selector: "at:",
        arguments: 1,
        primitive: 60,
    },
    Message {
        selector: "at:put:",
        arguments: 2,
        primitive: 61,
    },
    Message {
        selector: "beDisplay",
        arguments: 0,
        primitive: 102,
    },
    Message {
        selector: "quit",
        arguments: 0,
        primitive: 113,
    },
];

/// The picture: 32 rows of 64 pixels in four words each. There is a letter in each column of words.
const PICTURE: [u16; 128] = [
    0xffff, 0xffff, 0xffff, 0xffff, 0x8000, 0x0000, 0x0000, 0x0001, 0x8000, 0x0000, 0x0000, 0x0001,
    0x8000, 0x0000, 0x0000, 0x0001, 0x8000, 0x0000, 0x0000, 0x0001, 0x8000, 0x0000, 0x0000, 0x0001,
    0xbc00, 0x0ff0, 0x0ff0, 0x381d, 0xbc00, 0x1ff8, 0x1ff8, 0x3c3d, 0xbc00, 0x3ffc, 0x3ffc, 0x3e7d,
    0xbc00, 0x3c3c, 0x3c3c, 0x3ffd, 0xbc00, 0x3c3c, 0x3c3c, 0x3ffd, 0xbc00, 0x3c3c, 0x3c3c, 0x3bdd,
    0xbc00, 0x3c3c, 0x3c3c, 0x399d, 0xbc00, 0x3c3c, 0x3c3c, 0x381d, 0xbc00, 0x3c3c, 0x3c3c, 0x381d,
    0xbc00, 0x3c3c, 0x3c3c, 0x381d, 0xbc00, 0x3c3c, 0x3c3c, 0x381d, 0xbc00, 0x3c3c, 0x3c3c, 0x381d,
    0xbc00, 0x3c3c, 0x3c3c, 0x381d, 0xbc00, 0x3c3c, 0x3c3c, 0x381d, 0xbc00, 0x3c3c, 0x3c3c, 0x381d,
    0xbc00, 0x3c3c, 0x3c3c, 0x381d, 0xbc00, 0x3c3c, 0x3c3c, 0x381d, 0xbffc, 0x3ffc, 0x3ffc, 0x381d,
    0xbffc, 0x1ff8, 0x1ff8, 0x381d, 0xbffc, 0x0ff0, 0x0ff0, 0x381d, 0x8000, 0x0000, 0x0000, 0x0001,
    0x8000, 0x0000, 0x0000, 0x0001, 0x8000, 0x0000, 0x0000, 0x0001, 0x8000, 0x0000, 0x0000, 0x0001,
    0x8000, 0x0000, 0x0000, 0x0001, 0xffff, 0xffff, 0xffff, 0xffff,
];

/// The objects of an image that says `loom` and a newline, draws a picture by `at:put:`, shows it and quits. A method walks an array of the
/// picture's words. All objects of pointers are arrays, which understand every message.
pub fn hello(alloc: Global) -> Result<Builder, AllocError> {
    let mut builder = base(alloc)?;
    add_classes(alloc, &mut builder)?;
    for at in 0..MESSAGES.len() {
        let place = 2 * at as u32;
        MESSAGES[at].add(
            alloc,
            &mut builder,
            name(SAY + place),
            name(FIRST_METHOD + place),
        )?;
    }
    add_special_selectors(alloc, &mut builder)?;
    add_picture(alloc, &mut builder)?;
    add_program(alloc, &mut builder)?;
    Ok(builder)
}

// Arrays and bitmaps have one dictionary. A selector stands at half its name modulo 8.
fn add_classes(alloc: Global, builder: &mut Builder) -> Result<(), AllocError> {
    let array = [NIL, object(DICTIONARY), POINTERS];
    add_pointers(alloc, builder, Name::ARRAY, Name::ARRAY, &array)?;
    let bitmap = [NIL, object(DICTIONARY), WORDS];
    add_pointers(alloc, builder, Name::DISPLAY_BITMAP, Name::ARRAY, &bitmap)?;
    let dictionary = [
        Value::Int(5),
        object(METHODS),
        object(QUIT),
        NIL,
        NIL,
        NIL,
        object(SAY),
        object(AT),
        object(AT_PUT),
        object(BE_DISPLAY),
    ];
    add_pointers(alloc, builder, name(DICTIONARY), Name::ARRAY, &dictionary)?;
    let methods = [
        object(FIRST_METHOD + 8),
        NIL,
        NIL,
        NIL,
        object(FIRST_METHOD),
        object(FIRST_METHOD + 2),
        object(FIRST_METHOD + 4),
        object(FIRST_METHOD + 6),
    ];
    add_pointers(alloc, builder, name(METHODS), Name::ARRAY, &methods)
}

// The special sends 16 and 17 are at: and at:put:. Those before them are sums and comparisons, which never fail here.
fn add_special_selectors(alloc: Global, builder: &mut Builder) -> Result<(), AllocError> {
    let mut table = [NIL; 36];
    table[32] = object(AT);
    table[33] = Value::Int(1);
    table[34] = object(AT_PUT);
    table[35] = Value::Int(2);
    add_pointers(alloc, builder, Name::SPECIAL_SELECTORS, Name::ARRAY, &table)
}

// The text, the form with its bits, which are white, and the words that are to be drawn.
fn add_picture(alloc: Global, builder: &mut Builder) -> Result<(), AllocError> {
    add_bytes(alloc, builder, name(TEXT), Name::STRING, b"loom\n")?;
    add_words(alloc, builder, name(BITS), Name::DISPLAY_BITMAP, &[0; 128])?;
    let form = [object(BITS), Value::Int(64), Value::Int(32), NIL];
    add_pointers(alloc, builder, name(FORM), Name::ARRAY, &form)?;
    let mut words = [NIL; 128];
    for at in 0..128 {
        let number = name(FIRST_NUMBER + 2 * at as u32);
        words[at] = add_number(alloc, builder, number, PICTURE[at])?;
    }
    add_pointers(alloc, builder, name(ROWS), Name::ARRAY, &words)
}

// The value of a word: a SmallInteger, or an object of this name that is added.
fn add_number(
    alloc: Global,
    builder: &mut Builder,
    name: Name,
    word: u16,
) -> Result<Value, AllocError> {
    if u32::from(word) < SMALL_INTEGERS {
        return Ok(Value::Int(word as i16));
    }
    let bytes = word.to_le_bytes();
    add_bytes(alloc, builder, name, Name::LARGE_POSITIVE_INTEGER, &bytes)?;
    Ok(Value::Ref(name))
}

// The method, and the context that runs it. Its one temporary counts the words of the picture.
fn add_program(alloc: Global, builder: &mut Builder) -> Result<(), AllocError> {
    let header = Header {
        flag: 0,
        temporaries: 1,
        is_large: false,
    };
    let literals = [
        object(TEXT),
        object(SAY),
        object(BITS),
        object(ROWS),
        Value::Int(128),
        object(FORM),
        object(BE_DISPLAY),
        object(QUIT),
    ];
    let code = [
        112, 32, 225, 135, // self say: text
        34, 16, 35, 16, 192, 193, 135, // bits at: i put: (words at: i)
        16, 118, 176, 104, // i := i + 1
        16, 36, 180, 153, 163, 239, // again, while i <= 128
        37, 214, 135, // form beDisplay
        112, 215, // self quit
    ];
    add_method(alloc, builder, name(METHOD), header, &literals, &code)?;
    let mut context = [NIL; 18];
    context[1] = Value::Int(19);
    context[2] = Value::Int(1);
    context[3] = object(METHOD);
    context[6] = Value::Int(1);
    add_pointers(
        alloc,
        builder,
        name(CONTEXT),
        Name::METHOD_CONTEXT,
        &context,
    )
}
