// An image that draws by copyBits and quits.
use crate::base_image::{CONTEXT, METHOD, base};
use crate::messages::{Message, POINTERS};
use crate::notation::{Header, NIL, add_method, add_pointers, add_words, name, object};
use image_builder::Builder;
use long_names::{Name, Value};
use std::alloc::{AllocError, Global};

const DICTIONARY: u32 = 68;

const METHODS: u32 = 70;

const COPY_BITS: u32 = 72;

const BE_DISPLAY: u32 = 74;

const QUIT: u32 = 76;

/// The first of the methods, which are named in the order of their selectors.
const FIRST_METHOD: u32 = 78;

const BITS: u32 = 84;

const FORM: u32 = 86;

const INVERT: u32 = 88;

const SHIFT: u32 = 90;

/// The next name.
pub const BLIT_NEXT: u32 = 92;

/// The messages, in the order of their selectors' names.
const MESSAGES: [Message; 3] = [
    Message {
        selector: "copyBits",
        arguments: 0,
        primitive: 96,
    },
    Message {
        selector: "beDisplay",
        arguments: 0,
        primitive: 102,
    },
    Message {
        selector: "quit",
        arguments: 0,
        primitive: 113,
    },
];

/// Of a BitBlt: the rule, destination x and y, width and height, source x and y, clip x and y, clip width and height. Rule 10 inverts.
const INVERSION: [i16; 11] = [10, 12, 8, 40, 16, 0, 0, 0, 0, 64, 32];

/// The same, of one that copies (rule 3) from column 0 to column 1.
const ONE_RIGHT: [i16; 11] = [3, 1, 0, 63, 32, 0, 0, 0, 0, 64, 32];

/// The objects of an image that inverts a rectangle of a pattern, copies the form onto itself one pixel to the right, shows it and quits.
/// All objects of pointers are arrays, which understand every message.
pub fn blit(alloc: Global) -> Result<Builder, AllocError> {
    let mut builder = base(alloc)?;
    add_class(alloc, &mut builder)?;
    for at in 0..MESSAGES.len() {
        let place = 2 * at as u32;
        MESSAGES[at].add(
            alloc,
            &mut builder,
            name(COPY_BITS + place),
            name(FIRST_METHOD + place),
        )?;
    }
    add_form(alloc, &mut builder)?;
    add_blits(alloc, &mut builder)?;
    add_program(alloc, &mut builder)?;
    Ok(builder)
}

// A selector stands at half its name modulo 8.
fn add_class(alloc: Global, builder: &mut Builder) -> Result<(), AllocError> {
    let array = [NIL, object(DICTIONARY), POINTERS];
    add_pointers(alloc, builder, Name::ARRAY, Name::ARRAY, &array)?;
    let mut dictionary = [NIL; 10];
    dictionary[0] = Value::Int(3);
    dictionary[1] = object(METHODS);
    dictionary[6] = object(COPY_BITS);
    dictionary[7] = object(BE_DISPLAY);
    dictionary[8] = object(QUIT);
    add_pointers(alloc, builder, name(DICTIONARY), Name::ARRAY, &dictionary)?;
    let mut methods = [NIL; 8];
    methods[4] = object(FIRST_METHOD);
    methods[5] = object(FIRST_METHOD + 2);
    methods[6] = object(FIRST_METHOD + 4);
    add_pointers(alloc, builder, name(METHODS), Name::ARRAY, &methods)
}

// A form of 64 by 32 pixels with a pattern of squares, four pixels wide and high.
fn add_form(alloc: Global, builder: &mut Builder) -> Result<(), AllocError> {
    let mut words = [0xf0f0; 128];
    for at in 0..128 {
        if at / 16 % 2 == 1 {
            words[at] = 0x0f0f;
        }
    }
    add_words(alloc, builder, name(BITS), Name::DISPLAY_BITMAP, &words)?;
    let form = [object(BITS), Value::Int(64), Value::Int(32), NIL];
    add_pointers(alloc, builder, name(FORM), Name::ARRAY, &form)
}

// The two BitBlts, on the form: one without a source, and one whose source is the form itself.
fn add_blits(alloc: Global, builder: &mut Builder) -> Result<(), AllocError> {
    let invert = fields_of(NIL, &INVERSION);
    add_pointers(alloc, builder, name(INVERT), Name::ARRAY, &invert)?;
    let shift = fields_of(object(FORM), &ONE_RIGHT);
    add_pointers(alloc, builder, name(SHIFT), Name::ARRAY, &shift)
}

// The fields of a BitBlt without a halftone.
fn fields_of(source: Value, numbers: &[i16; 11]) -> [Value; 14] {
    let mut fields = [NIL; 14];
    fields[0] = object(FORM);
    fields[1] = source;
    for at in 0..11 {
        fields[3 + at] = Value::Int(numbers[at]);
    }
    fields
}

// The method, and the context that runs it.
fn add_program(alloc: Global, builder: &mut Builder) -> Result<(), AllocError> {
    let literals = [
        object(INVERT),
        object(COPY_BITS),
        object(SHIFT),
        object(FORM),
        object(BE_DISPLAY),
        object(QUIT),
    ];
    let code = [
        32, 209, 135, // invert copyBits
        34, 209, 135, // shift copyBits
        35, 212, 135, // form beDisplay
        112, 213, // self quit
    ];
    add_method(
        alloc,
        builder,
        name(METHOD),
        Header::PLAIN,
        &literals,
        &code,
    )?;
    let mut context = [NIL; 18];
    context[1] = Value::Int(15);
    context[2] = Value::Int(0);
    context[3] = object(METHOD);
    add_pointers(
        alloc,
        builder,
        name(CONTEXT),
        Name::METHOD_CONTEXT,
        &context,
    )
}
