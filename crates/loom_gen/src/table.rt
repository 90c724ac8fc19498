// The table of a generated image: the known objects, and its own but for the characters and the nodes.
ghost use Rattle.std.specs.Prelude.{◌≡◌, ◌==◌, ℕ, IsTrue, IfSome, option_map};
ghost use Rattle.std.specs.Map.{lookup};
ghost use Rattle.loom_gen.specs.Table.{table};
ghost use Rattle.loom_gen.specs.Inside.{IsRowOf, row_object, is_named};

use crate::names::{
    ARRAY, AT, AT_END, AT_END_METHOD, AT_METHOD, AT_PUT, AT_PUT_METHOD, BE_DISPLAY,
    BE_DISPLAY_METHOD, BIT_BLT, BITS, BLOCK_CONTEXT, BUFFER, CANNOT_RETURN, CHARACTER,
    CHARACTER_TABLE, COMPILED_METHOD, CONTEXT_1, CONTEXT_2, CONTEXT_3, COPY_BITS, COPY_BITS_METHOD,
    DICTIONARY, DISPLAY_BITMAP, DOES_NOT_UNDERSTAND, FALSE, FORM, LARGE_NEGATIVE_INTEGER,
    LARGE_POSITIVE_INTEGER, LIST_1, LIST_2, LIST_3, LIST_4, LISTS, MESSAGE, METHOD_1, METHOD_2,
    METHOD_3, METHOD_CONTEXT, METHODS, MUST_BE_BOOLEAN, NEW, NEW_METHOD, NEXT, NEXT_METHOD,
    NEXT_PUT, NEXT_PUT_METHOD, NIL, POINT, PROCESS_1, PROCESS_2, PROCESS_3, SCHEDULER,
    SCHEDULER_ASSOCIATION, SEMAPHORE, SEMAPHORE_2, SEMAPHORE_3, SHOW, SHOW_METHOD, SIGNAL,
    SIGNAL_METHOD, SIZE, SIZE_METHOD, SMALL_INTEGER, SPECIAL_SELECTORS, STAR, STREAM, STRING, TICK,
    TRUE, WAIT, WAIT_METHOD,
};
use crate::rows::Field::{Int, Ref, Start};
use crate::rows::{Field, Form, Row};

const NIL_FIELD: Field = Ref(NIL);

const EMPTY: Form = Form::Pointers(&[]);

/// A class whose objects are pointers, without fixed fields and without indexes.
const PLAIN_CLASS: Form = Form::Pointers(&[NIL_FIELD, Ref(DICTIONARY), Int(-8192)]);

/// A class whose objects are pointers by index.
const ARRAY_CLASS: Form = Form::Pointers(&[NIL_FIELD, Ref(DICTIONARY), Int(-4096)]);

/// A class whose objects are bytes by index.
const STRING_CLASS: Form = Form::Pointers(&[NIL_FIELD, Ref(DICTIONARY), Int(4096)]);

/// The special selectors in their order, each with its number of arguments. Those that the image has no selector for are nil.
const SPECIALS: [Field; 64] = [
    NIL_FIELD, // +
    Int(1),
    NIL_FIELD, // -
    Int(1),
    NIL_FIELD, // <
    Int(1),
    NIL_FIELD, // >
    Int(1),
    NIL_FIELD, // <=
    Int(1),
    NIL_FIELD, // >=
    Int(1),
    NIL_FIELD, // =
    Int(1),
    NIL_FIELD, // ~=
    Int(1),
    NIL_FIELD, // *
    Int(1),
    NIL_FIELD, // /
    Int(1),
    NIL_FIELD, // \\
    Int(1),
    NIL_FIELD, // @
    Int(1),
    NIL_FIELD, // bitShift:
    Int(1),
    NIL_FIELD, // //
    Int(1),
    NIL_FIELD, // bitAnd:
    Int(1),
    NIL_FIELD, // bitOr:
    Int(1),
    Ref(AT), // at:
    Int(1),
    Ref(AT_PUT), // at:put:
    Int(2),
    Ref(SIZE), // size
    Int(0),
    Ref(NEXT), // next
    Int(0),
    Ref(NEXT_PUT), // nextPut:
    Int(1),
    Ref(AT_END), // atEnd
    Int(0),
    NIL_FIELD, // ==
    Int(1),
    NIL_FIELD, // class
    Int(0),
    NIL_FIELD, // blockCopy:
    Int(1),
    NIL_FIELD, // value
    Int(0),
    NIL_FIELD, // value:
    Int(1),
    NIL_FIELD, // do:
    Int(1),
    NIL_FIELD, // new
    Int(0),
    Ref(NEW), // new:
    Int(1),
    NIL_FIELD, // x
    Int(0),
    NIL_FIELD, // y
    Int(0),
];

/// The known objects and the image's own, by rising name.
const TABLE: [Row; 71] = [
    // The known objects.
    Row {
        name: NIL,
        class: ARRAY,
        form: EMPTY,
    },
    Row {
        name: FALSE,
        class: ARRAY,
        form: EMPTY,
    },
    Row {
        name: TRUE,
        class: ARRAY,
        form: EMPTY,
    },
    Row {
        name: SCHEDULER_ASSOCIATION,
        class: ARRAY,
        form: Form::Pointers(&[NIL_FIELD, Ref(SCHEDULER)]),
    },
    Row {
        name: SMALL_INTEGER,
        class: ARRAY,
        form: PLAIN_CLASS,
    },
    Row {
        name: STRING,
        class: ARRAY,
        form: STRING_CLASS,
    },
    Row {
        name: ARRAY,
        class: ARRAY,
        form: ARRAY_CLASS,
    },
    Row {
        name: METHOD_CONTEXT,
        class: ARRAY,
        form: PLAIN_CLASS,
    },
    Row {
        name: BLOCK_CONTEXT,
        class: ARRAY,
        form: PLAIN_CLASS,
    },
    Row {
        name: POINT,
        class: ARRAY,
        form: PLAIN_CLASS,
    },
    Row {
        name: LARGE_POSITIVE_INTEGER,
        class: ARRAY,
        form: PLAIN_CLASS,
    },
    Row {
        name: DISPLAY_BITMAP,
        class: ARRAY,
        form: PLAIN_CLASS,
    },
    Row {
        name: MESSAGE,
        class: ARRAY,
        form: PLAIN_CLASS,
    },
    Row {
        name: COMPILED_METHOD,
        class: ARRAY,
        form: PLAIN_CLASS,
    },
    Row {
        name: SEMAPHORE,
        class: ARRAY,
        form: PLAIN_CLASS,
    },
    Row {
        name: CHARACTER,
        class: ARRAY,
        form: PLAIN_CLASS,
    },
    Row {
        name: DOES_NOT_UNDERSTAND,
        class: ARRAY,
        form: EMPTY,
    },
    Row {
        name: CANNOT_RETURN,
        class: ARRAY,
        form: EMPTY,
    },
    Row {
        name: SPECIAL_SELECTORS,
        class: ARRAY,
        form: Form::Pointers(&SPECIALS),
    },
    Row {
        name: CHARACTER_TABLE,
        class: ARRAY,
        form: Form::Characters,
    },
    Row {
        name: MUST_BE_BOOLEAN,
        class: ARRAY,
        form: EMPTY,
    },
    Row {
        name: LARGE_NEGATIVE_INTEGER,
        class: ARRAY,
        form: PLAIN_CLASS,
    },
    // The processes.
    Row {
        name: SCHEDULER,
        class: ARRAY,
        form: Form::Pointers(&[Ref(LISTS), Ref(PROCESS_1)]),
    },
    Row {
        name: LISTS,
        class: ARRAY,
        form: Form::Pointers(&[Ref(LIST_1), Ref(LIST_2), Ref(LIST_3), Ref(LIST_4)]),
    },
    Row {
        name: LIST_1,
        class: ARRAY,
        form: Form::Pointers(&[NIL_FIELD, NIL_FIELD]),
    },
    Row {
        name: LIST_2,
        class: ARRAY,
        form: Form::Pointers(&[NIL_FIELD, NIL_FIELD]),
    },
    Row {
        name: LIST_3,
        class: ARRAY,
        form: Form::Pointers(&[NIL_FIELD, NIL_FIELD]),
    },
    Row {
        name: LIST_4,
        class: ARRAY,
        form: Form::Pointers(&[NIL_FIELD, NIL_FIELD]),
    },
    Row {
        name: SEMAPHORE_2,
        class: SEMAPHORE,
        form: Form::Pointers(&[Ref(PROCESS_2), Ref(PROCESS_2), Int(0)]),
    },
    Row {
        name: SEMAPHORE_3,
        class: SEMAPHORE,
        form: Form::Pointers(&[Ref(PROCESS_3), Ref(PROCESS_3), Int(0)]),
    },
    Row {
        name: PROCESS_1,
        class: ARRAY,
        form: Form::Pointers(&[NIL_FIELD, Ref(CONTEXT_1), Int(2), NIL_FIELD]),
    },
    Row {
        name: PROCESS_2,
        class: ARRAY,
        form: Form::Pointers(&[NIL_FIELD, Ref(CONTEXT_2), Int(4), Ref(SEMAPHORE_2)]),
    },
    Row {
        name: PROCESS_3,
        class: ARRAY,
        form: Form::Pointers(&[NIL_FIELD, Ref(CONTEXT_3), Int(3), Ref(SEMAPHORE_3)]),
    },
    Row {
        name: CONTEXT_1,
        class: METHOD_CONTEXT,
        form: Form::Padded(
            &[
                NIL_FIELD,
                Int(13),
                Int(1),
                Ref(METHOD_1),
                NIL_FIELD,
                NIL_FIELD,
                Start,
            ],
            11,
        ),
    },
    Row {
        name: CONTEXT_2,
        class: METHOD_CONTEXT,
        form: Form::Padded(
            &[
                NIL_FIELD,
                Int(17),
                Int(1),
                Ref(METHOD_2),
                NIL_FIELD,
                NIL_FIELD,
                Ref(SEMAPHORE_2),
            ],
            11,
        ),
    },
    Row {
        name: CONTEXT_3,
        class: METHOD_CONTEXT,
        form: Form::Padded(
            &[
                NIL_FIELD,
                Int(17),
                Int(1),
                Ref(METHOD_3),
                NIL_FIELD,
                NIL_FIELD,
                Ref(SEMAPHORE_3),
            ],
            11,
        ),
    },
    Row {
        name: METHOD_1,
        class: COMPILED_METHOD,
        form: Form::Method {
            header: 133,
            literals: &[
                Ref(SIGNAL),
                Ref(SEMAPHORE_2),
                Ref(ARRAY),
                Ref(FORM),
                Ref(BE_DISPLAY),
            ],
            code: &[
                35, 212, 135, 16, 118, 192, 104, 16, 119, 34, 119, 205, 193, 135, 33, 208, 135,
                163, 240,
            ],
        },
    },
    Row {
        name: METHOD_2,
        class: COMPILED_METHOD,
        form: Form::Method {
            header: 6,
            literals: &[
                Ref(WAIT),
                Ref(SEMAPHORE_2),
                Ref(BIT_BLT),
                Ref(COPY_BITS),
                Ref(SEMAPHORE_3),
                Ref(SIGNAL),
            ],
            code: &[33, 208, 135, 34, 211, 135, 36, 213, 135, 163, 245],
        },
    },
    Row {
        name: METHOD_3,
        class: COMPILED_METHOD,
        form: Form::Method {
            header: 6,
            literals: &[
                Ref(WAIT),
                Ref(SEMAPHORE_3),
                Ref(STREAM),
                Ref(STAR),
                Ref(TICK),
                Ref(SHOW),
            ],
            code: &[33, 208, 135, 34, 35, 196, 135, 112, 36, 229, 135, 163, 243],
        },
    },
    // The dictionary, its selectors and its methods.
    Row {
        name: DICTIONARY,
        class: ARRAY,
        form: Form::Pointers(&[
            Int(12),
            Ref(METHODS),
            NIL_FIELD,
            Ref(AT),
            Ref(AT_PUT),
            Ref(SIZE),
            Ref(NEW),
            Ref(NEXT),
            Ref(NEXT_PUT),
            Ref(AT_END),
            Ref(SIGNAL),
            Ref(WAIT),
            Ref(COPY_BITS),
            Ref(BE_DISPLAY),
            Ref(SHOW),
            NIL_FIELD,
            NIL_FIELD,
            NIL_FIELD,
        ]),
    },
    Row {
        name: METHODS,
        class: ARRAY,
        form: Form::Pointers(&[
            NIL_FIELD,
            Ref(AT_METHOD),
            Ref(AT_PUT_METHOD),
            Ref(SIZE_METHOD),
            Ref(NEW_METHOD),
            Ref(NEXT_METHOD),
            Ref(NEXT_PUT_METHOD),
            Ref(AT_END_METHOD),
            Ref(SIGNAL_METHOD),
            Ref(WAIT_METHOD),
            Ref(COPY_BITS_METHOD),
            Ref(BE_DISPLAY_METHOD),
            Ref(SHOW_METHOD),
            NIL_FIELD,
            NIL_FIELD,
            NIL_FIELD,
        ]),
    },
    Row {
        name: AT,
        class: STRING,
        form: Form::Text(b"at:"),
    },
    Row {
        name: AT_PUT,
        class: STRING,
        form: Form::Text(b"at:put:"),
    },
    Row {
        name: SIZE,
        class: STRING,
        form: Form::Text(b"size"),
    },
    Row {
        name: NEW,
        class: STRING,
        form: Form::Text(b"new:"),
    },
    Row {
        name: NEXT,
        class: STRING,
        form: Form::Text(b"next"),
    },
    Row {
        name: NEXT_PUT,
        class: STRING,
        form: Form::Text(b"nextPut:"),
    },
    Row {
        name: AT_END,
        class: STRING,
        form: Form::Text(b"atEnd"),
    },
    Row {
        name: SIGNAL,
        class: STRING,
        form: Form::Text(b"signal"),
    },
    Row {
        name: WAIT,
        class: STRING,
        form: Form::Text(b"wait"),
    },
    Row {
        name: COPY_BITS,
        class: STRING,
        form: Form::Text(b"copyBits"),
    },
    Row {
        name: BE_DISPLAY,
        class: STRING,
        form: Form::Text(b"beDisplay"),
    },
    Row {
        name: SHOW,
        class: STRING,
        form: Form::Text(b"show:"),
    },
    Row {
        name: AT_METHOD,
        class: COMPILED_METHOD,
        form: Form::Primitive {
            arguments: 1,
            index: 60,
        },
    },
    Row {
        name: AT_PUT_METHOD,
        class: COMPILED_METHOD,
        form: Form::Primitive {
            arguments: 2,
            index: 61,
        },
    },
    Row {
        name: SIZE_METHOD,
        class: COMPILED_METHOD,
        form: Form::Primitive {
            arguments: 0,
            index: 62,
        },
    },
    Row {
        name: NEW_METHOD,
        class: COMPILED_METHOD,
        form: Form::Primitive {
            arguments: 1,
            index: 71,
        },
    },
    Row {
        name: NEXT_METHOD,
        class: COMPILED_METHOD,
        form: Form::Primitive {
            arguments: 0,
            index: 65,
        },
    },
    Row {
        name: NEXT_PUT_METHOD,
        class: COMPILED_METHOD,
        form: Form::Primitive {
            arguments: 1,
            index: 66,
        },
    },
    Row {
        name: AT_END_METHOD,
        class: COMPILED_METHOD,
        form: Form::Primitive {
            arguments: 0,
            index: 67,
        },
    },
    Row {
        name: SIGNAL_METHOD,
        class: COMPILED_METHOD,
        form: Form::Primitive {
            arguments: 0,
            index: 85,
        },
    },
    Row {
        name: WAIT_METHOD,
        class: COMPILED_METHOD,
        form: Form::Primitive {
            arguments: 0,
            index: 86,
        },
    },
    Row {
        name: COPY_BITS_METHOD,
        class: COMPILED_METHOD,
        form: Form::Primitive {
            arguments: 0,
            index: 96,
        },
    },
    Row {
        name: BE_DISPLAY_METHOD,
        class: COMPILED_METHOD,
        form: Form::Primitive {
            arguments: 0,
            index: 102,
        },
    },
    Row {
        name: SHOW_METHOD,
        class: COMPILED_METHOD,
        form: Form::Primitive {
            arguments: 1,
            index: 128,
        },
    },
    // What the processes work on.
    Row {
        name: FORM,
        class: ARRAY,
        form: Form::Pointers(&[Ref(BITS), Int(640), Int(480), NIL_FIELD]),
    },
    Row {
        name: BITS,
        class: DISPLAY_BITMAP,
        form: Form::ZeroWords(19_200),
    },
    Row {
        name: BIT_BLT,
        class: ARRAY,
        form: Form::Pointers(&[
            Ref(FORM),
            NIL_FIELD,
            NIL_FIELD,
            Int(6),
            Int(3),
            Int(4),
            Int(100),
            Int(50),
            Int(0),
            Int(0),
            Int(0),
            Int(0),
            Int(640),
            Int(480),
        ]),
    },
    Row {
        name: STREAM,
        class: ARRAY,
        form: Form::Pointers(&[Ref(BUFFER), Int(0), Int(0), Int(1000)]),
    },
    Row {
        name: BUFFER,
        class: STRING,
        form: Form::ZeroBytes(1000),
    },
    Row {
        name: TICK,
        class: STRING,
        form: Form::Text(b"tick\n"),
    },
];

/// The row of a name, if it has one.
pub(crate) fn row(name: u32) -> Option<Row>
    ensures object { (number : ℕ) → option_map (row_object number) result ≡ lookup (λ word. word == name) (table number) }
    ensures named { IfSome result (λ row. IsTrue (is_named row)) }
{
    row_among(&TABLE, name)
}

fn row_among(rows: &[Row], name: u32) -> Option<Row>
    ensures { IsRowOf rows.now name result }
{
    for row in rows {
        if row.name == name {
            return Some(*row);
        }
    }
    None
}
