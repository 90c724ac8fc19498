// The commands of the program: what each is for, its words, and examples. A constant stands in each function that names it with all its texts,
// so each command has a function of its own.
use clap::{Arg, ArgAction, Command};
use std::alloc::{AllocError, Global};

// How a word stands on the line.
#[derive(Clone, Copy)]
enum Shape {
    // By its place, and it has to be there.
    Word,
    // By its place, and it may be left out.
    MaybeWord,
    // Any number of words, behind the others.
    Words,
    // The same, and one at least has to be there.
    SomeWords,
    // Behind `-o`, and it has to be there.
    Output,
    // Behind `--` and its name.
    Value,
    // Two words behind `--` and its name.
    Pair,
    // `--` and its name alone.
    Flag,
}

// A word of a command.
#[derive(Clone, Copy)]
struct Part {
    // what it is asked for by, and of an option the name behind `--`
    id: &'static str,
    shape: Shape,
    // what stands for it in a usage
    value: &'static str,
    help: &'static str,
}

// A command.
#[derive(Clone, Copy)]
struct Entry {
    name: &'static str,
    about: &'static str,
    // what stands below its help
    examples: &'static str,
    parts: &'static [Part],
    // parts that several commands have
    shared: &'static [Part],
}

macro_rules! part {
    ($shape:ident, $id:literal, $value:literal, $help:literal) => {
        Part {
            id: $id,
            shape: Shape::$shape,
            value: $value,
            help: $help,
        }
    };
}

// How the machine runs, and where what comes of it goes.
const RUNNING: &[Part] = &[
    part!(
        Value,
        "events",
        "FILE",
        "The file of events; - is standard input [default: no events]"
    ),
    part!(
        Value,
        "steps",
        "NUMBER",
        "Run so many bytecodes at most, from 0 to 2147483647 [default: 2147483647]"
    ),
    part!(
        Value,
        "save",
        "FILE",
        "Write the image as it is afterwards to FILE; - is standard output [default: a file beside IMAGE, called IMAGE.saved]"
    ),
    part!(
        Flag,
        "in-place",
        "",
        "Write the image as it is afterwards over IMAGE"
    ),
    part!(Flag, "no-save", "", "Write no image afterwards"),
    part!(
        Value,
        "picture",
        "FILE",
        "Draw the display into FILE, as PNG where its name ends in .png and else as PBM; - is standard output [default: none; a terminal shows it]"
    ),
    part!(
        Value,
        "on-stop",
        "FILE",
        "Where the machine is stopped by an error, write it as it was before that bytecode to FILE"
    ),
    part!(
        Value,
        "core",
        "WORDS",
        "The words of the core, from 4096 to 16777216 [default: by the image's size]"
    ),
    part!(
        Value,
        "entries",
        "NUMBER",
        "How many objects the core may know, from 512 to 32767 [default: 32767]"
    ),
    part!(
        Value,
        "room",
        "NUMBER",
        "For how many objects there is room, from 1024 to 1048576 [default: by the image's objects]"
    ),
    part!(
        Value,
        "work",
        "FILE",
        "The work file; what it held is lost [default: a new file in the temporary folder, gone afterwards]"
    ),
];

const TRACING: &[Part] = &[
    part!(
        Value,
        "events",
        "FILE",
        "The file of events; - is standard input [default: no events]"
    ),
    part!(
        Value,
        "from",
        "NUMBER",
        "Begin at this bytecode, from 1 on [default: 1]"
    ),
    part!(
        Value,
        "to",
        "NUMBER",
        "End behind this bytecode, at most 2147483647 [default: 1000 more than the first]"
    ),
    part!(Flag, "sends", "", "Only sends and returns"),
    part!(
        Pair,
        "method",
        "NAME",
        "Only this method: the name of its class, and its selector"
    ),
    part!(
        Value,
        "core",
        "WORDS",
        "The words of the core, from 4096 to 16777216 [default: by the image's size]"
    ),
    part!(
        Value,
        "entries",
        "NUMBER",
        "How many objects the core may know, from 512 to 32767 [default: 32767]"
    ),
    part!(
        Value,
        "room",
        "NUMBER",
        "For how many objects there is room, from 1024 to 1048576 [default: by the image's objects]"
    ),
    part!(
        Value,
        "names",
        "FILE",
        "Names for objects that have none in the image [default: IMAGE.names, where it is there]"
    ),
];

const NO_PARTS: &[Part] = &[];

const RUN: Entry = Entry {
    name: "run",
    about: "Run an image",
    examples: "Examples:
  st80 run hello.loom                              run it to its end, and save it as hello.loom.saved
  st80 run hello.loom --picture hello.png          and draw its display
  st80 run hello.loom --steps 1000 --no-save       run 1000 bytecodes, and keep nothing
  st80 run stuck.loom --on-stop before.loom        keep the machine as it was before the bytecode that stopped it
  st80 asm hello.text - | st80 run -               run what was just assembled",
    parts: &[part!(Word, "image", "IMAGE", "The image; - is standard input")],
    shared: RUNNING,
};

const GUARD: Entry = Entry {
    name: "guard",
    about: "Run an image that keeps checkpoints of itself in a vault",
    examples: "Example:
  st80 guard counter.loom counter.vault            run it; each time that it asks for it, it is kept in the vault
  st80 resume counter.vault                        go on from what was kept last",
    parts: &[
        part!(Word, "image", "IMAGE", "The image; - is standard input"),
        part!(
            Word,
            "vault",
            "VAULT",
            "The file of checkpoints; what it held is lost"
        ),
    ],
    shared: RUNNING,
};

const RESUME: Entry = Entry {
    name: "resume",
    about: "Go on from the last checkpoint of a vault",
    examples: "Examples:
  st80 resume counter.vault                        go on, and save the image as counter.vault.saved
  st80 resume counter.vault --steps 0 --save now.loom
                                                   take the image out of the vault",
    parts: &[part!(Word, "vault", "VAULT", "The file of checkpoints")],
    shared: RUNNING,
};

const MAKE: Entry = Entry {
    name: "make",
    about: "Make a large image from a number",
    examples: "Example:
  st80 make 0 ticks.loom                           the smallest, of 1327 objects; each number has 1000 more",
    parts: &[
        part!(Word, "number", "NUMBER", "From 0 to 19"),
        part!(
            Word,
            "file",
            "IMAGE",
            "The file that gets the image; - is standard output"
        ),
    ],
    shared: NO_PARTS,
};

const KERNEL: &[Part] = &[part!(
    Value,
    "kernel",
    "FOLDER",
    "The folder of the kernel's sources [default: the folder kernel beside the program, or here]"
)];

const BUILD: Entry = Entry {
    name: "build",
    about: "Make an image from sources in Smalltalk",
    examples: "Examples:
  st80 build factorial.st -o factorial.loom        the classes of the kernel, and what is in factorial.st
  st80 build shapes.st main.st -o shapes.loom      one source file after the other
  st80 build --bare own.st -o own.loom             without the kernel
  st80 run factorial.loom",
    parts: &[
        part!(
            SomeWords,
            "source",
            "SOURCE",
            "The source files; - is standard input"
        ),
        part!(
            Output,
            "output",
            "IMAGE",
            "The file that gets the image, and IMAGE.names the names of its methods; - is standard output"
        ),
        part!(Flag, "bare", "", "Leave the kernel out"),
    ],
    shared: KERNEL,
};

const EVAL: Entry = Entry {
    name: "eval",
    about: "Print what statements in Smalltalk come to",
    examples: "Examples:
  st80 eval '20 factorial printString'
  st80 eval 'Account new balance' account.st       with the classes of a source file, which has no statements",
    parts: &[
        part!(
            Word,
            "statements",
            "STATEMENTS",
            "The statements; the value of the last is printed"
        ),
        part!(
            Words,
            "source",
            "SOURCE",
            "Source files behind the kernel; - is standard input"
        ),
    ],
    shared: KERNEL,
};

const LIST: Entry = Entry {
    name: "list",
    about: "Write an image as text",
    examples: "Examples:
  st80 list hello.loom                             the text, on standard output
  st80 list hello.loom hello.text                  into a file",
    parts: &[
        part!(Word, "image", "IMAGE", "The image; - is standard input"),
        part!(
            MaybeWord,
            "text",
            "TEXT",
            "The file that gets the text; - is standard output [default: -]"
        ),
    ],
    shared: NO_PARTS,
};

const ASM: Entry = Entry {
    name: "asm",
    about: "Make an image from a text",
    examples: "Example:
  st80 asm hello.text hello.loom",
    parts: &[
        part!(Word, "text", "TEXT", "The text; - is standard input"),
        part!(
            Word,
            "image",
            "IMAGE",
            "The file that gets the image; - is standard output"
        ),
    ],
    shared: NO_PARTS,
};

const SHOW: Entry = Entry {
    name: "show",
    about: "Show what is in an image",
    examples: "What to show:
  nothing more             what the image is, its processes, its largest objects
  NUMBER                   an object: what it holds, and what holds it
  class NAME               a class: its fields, its methods
  method CLASS SELECTOR    a method, bytecode by bytecode
  processes                the processes, and what each waits for
  stack                    the stack of each process
  counts                   how many objects there are of each class
Examples:
  st80 show hello.loom
  st80 show hello.loom 66
  st80 show hello.loom method Object start
  st80 show stuck.loom stack",
    parts: &[
        part!(Word, "image", "IMAGE", "The image; - is standard input"),
        part!(Words, "what", "WHAT", "What to show of it"),
    ],
    shared: LABELS,
};

const LABELS: &[Part] = &[part!(
    Value,
    "names",
    "FILE",
    "Names for objects that have none in the image [default: IMAGE.names, where it is there]"
)];

const DIFF: Entry = Entry {
    name: "diff",
    about: "Show what of two images differs, object by object",
    examples: "Example:
  st80 diff hello.loom hello.loom.saved            exit code 24 where they differ",
    parts: &[
        part!(Word, "a", "A", "An image; - is standard input"),
        part!(Word, "b", "B", "Another image; - is standard input"),
    ],
    shared: LABELS,
};

const CHECK: Entry = Entry {
    name: "check",
    about: "Check an image, or the text of one, and say what is wrong with it",
    examples: "Examples:
  st80 check hello.loom
  st80 check hello.text",
    parts: &[part!(
        Word,
        "file",
        "FILE",
        "The image or the text; - is standard input"
    )],
    shared: LABELS,
};

const TRACE: Entry = Entry {
    name: "trace",
    about: "Run an image, and show each bytecode",
    examples: "Examples:
  st80 trace hello.loom                            the first 1000 bytecodes
  st80 trace hello.loom --sends                    only who calls whom
  st80 trace hello.loom --from 2000 --to 2056
  st80 trace hello.loom --method Object start",
    parts: &[part!(Word, "image", "IMAGE", "The image; - is standard input")],
    shared: TRACING,
};

const PICTURE: Entry = Entry {
    name: "picture",
    about: "Show a picture, or convert it from PBM to PNG",
    examples: "Examples:
  st80 picture hello.pbm                           in the terminal
  st80 picture hello.pbm hello.png --scale 4       as PNG, each pixel as a square of 4 by 4",
    parts: &[
        part!(Word, "pbm", "PBM", "The picture; - is standard input"),
        part!(
            MaybeWord,
            "png",
            "PNG",
            "The file that gets it as PNG; - is standard output [default: the terminal shows it]"
        ),
        part!(
            Value,
            "scale",
            "NUMBER",
            "Each pixel as a square of so many, from 1 to 64 [default: 1]"
        ),
        part!(
            Value,
            "width",
            "COLUMNS",
            "The columns of the terminal, from 8 to 1000 [default: 80]"
        ),
    ],
    shared: NO_PARTS,
};

const MANUAL: Entry = Entry {
    name: "manual",
    about: "Print the manual",
    examples: "Example:
  st80 manual | less",
    parts: NO_PARTS,
    shared: NO_PARTS,
};

const CODES: Entry = Entry {
    name: "codes",
    about: "Print the exit codes",
    examples: "Example:
  st80 help codes",
    parts: NO_PARTS,
    shared: NO_PARTS,
};

/// The names of the commands, in the order of the help.
pub const NAMES: &[&str] = &[
    "run", "show", "trace", "picture", "check", "diff", "build", "eval", "list", "asm", "make",
    "guard", "resume", "codes", "manual",
];

// The ways of saving, of which one at most is asked for.
const SAVINGS: [&str; 3] = ["save", "in-place", "no-save"];

fn argument_of<'a>(alloc: Global, part: &Part) -> Result<Arg<'a>, AllocError> {
    let argument = shaped(alloc, part);
    if SAVINGS.contains(&part.id) {
        return without(alloc, argument, part.id);
    }
    Ok(argument)
}

// It stands beside none of the other ways of saving.
fn without<'a>(alloc: Global, argument: Arg<'a>, id: &'static str) -> Result<Arg<'a>, AllocError> {
    let mut others = Vec::new(alloc);
    for other in SAVINGS {
        if other != id {
            others.push(other)?;
        }
    }
    argument.conflicts_with_all(&others)
}

fn shaped<'a>(alloc: Global, part: &Part) -> Arg<'a> {
    let argument = Arg::new(alloc, part.id).help(part.help);
    match part.shape {
        Shape::Word => argument.value_name(part.value).required(true),
        Shape::MaybeWord => argument.value_name(part.value),
        Shape::Words => argument
            .value_name(part.value)
            .num_args(0..)
            .action(ArgAction::Append),
        Shape::SomeWords => argument
            .value_name(part.value)
            .required(true)
            .num_args(1..)
            .action(ArgAction::Append),
        Shape::Output => argument
            .value_name(part.value)
            .short('o')
            .long(part.id)
            .required(true),
        Shape::Value => argument
            .value_name(part.value)
            .long(part.id)
            .allow_negative_numbers(true),
        Shape::Pair => argument.value_name(part.value).long(part.id).num_args(2),
        Shape::Flag => argument.long(part.id).action(ArgAction::SetTrue),
    }
}

fn with_parts<'a>(
    alloc: Global,
    mut command: Command<'a>,
    parts: &[Part],
) -> Result<Command<'a>, AllocError> {
    for part in parts {
        command = command.arg(argument_of(alloc, part)?)?;
    }
    Ok(command)
}

fn command_of<'a>(alloc: Global, entry: &Entry) -> Result<Command<'a>, AllocError> {
    let command = Command::new(alloc, entry.name)
        .about(entry.about)
        .after_help(entry.examples);
    let command = with_parts(alloc, command, entry.parts)?;
    with_parts(alloc, command, entry.shared)
}

fn run_command<'a>(alloc: Global) -> Result<Command<'a>, AllocError> {
    command_of(alloc, &RUN)
}

fn show_command<'a>(alloc: Global) -> Result<Command<'a>, AllocError> {
    command_of(alloc, &SHOW)
}

fn trace_command<'a>(alloc: Global) -> Result<Command<'a>, AllocError> {
    command_of(alloc, &TRACE)
}

fn picture_command<'a>(alloc: Global) -> Result<Command<'a>, AllocError> {
    command_of(alloc, &PICTURE)
}

fn check_command<'a>(alloc: Global) -> Result<Command<'a>, AllocError> {
    command_of(alloc, &CHECK)
}

fn diff_command<'a>(alloc: Global) -> Result<Command<'a>, AllocError> {
    command_of(alloc, &DIFF)
}

fn list_command<'a>(alloc: Global) -> Result<Command<'a>, AllocError> {
    command_of(alloc, &LIST)
}

fn asm_command<'a>(alloc: Global) -> Result<Command<'a>, AllocError> {
    command_of(alloc, &ASM)
}

fn build_command<'a>(alloc: Global) -> Result<Command<'a>, AllocError> {
    command_of(alloc, &BUILD)
}

fn eval_command<'a>(alloc: Global) -> Result<Command<'a>, AllocError> {
    command_of(alloc, &EVAL)
}

fn make_command<'a>(alloc: Global) -> Result<Command<'a>, AllocError> {
    command_of(alloc, &MAKE)
}

fn guard_command<'a>(alloc: Global) -> Result<Command<'a>, AllocError> {
    command_of(alloc, &GUARD)
}

fn resume_command<'a>(alloc: Global) -> Result<Command<'a>, AllocError> {
    command_of(alloc, &RESUME)
}

fn manual_command<'a>(alloc: Global) -> Result<Command<'a>, AllocError> {
    command_of(alloc, &MANUAL)
}

fn codes_command<'a>(alloc: Global) -> Result<Command<'a>, AllocError> {
    command_of(alloc, &CODES)
}

/// The command of a name; that of the codes where no other has it.
pub fn command_named<'a>(alloc: Global, name: &str) -> Result<Command<'a>, AllocError> {
    match name {
        "run" => run_command(alloc),
        "show" => show_command(alloc),
        "trace" => trace_command(alloc),
        "picture" => picture_command(alloc),
        "check" => check_command(alloc),
        "diff" => diff_command(alloc),
        "list" => list_command(alloc),
        "asm" => asm_command(alloc),
        "build" => build_command(alloc),
        "eval" => eval_command(alloc),
        "make" => make_command(alloc),
        "guard" => guard_command(alloc),
        "resume" => resume_command(alloc),
        "manual" => manual_command(alloc),
        _ => codes_command(alloc),
    }
}
