// What the words ask for.
ghost use Rattle.std.specs.Prelude.{◌≤◌, IfOk, IfSome};
ghost use Rattle.std.proofs.Props.{props};
ghost use Rattle.loom_gen.specs.declared.generator.TheConstants.{LAST_NUMBER};
ghost use Rattle.loom_words.specs.declared.words.TheConstants.{LEAST_CORE, LEAST_ENTRIES, LEAST_ROOM, MOST_CORE, MOST_ENTRIES, MOST_ROOM, MOST_STEPS};

use crate::commands::NAMES;
use crate::numbers::{number_fault, number_in};
use crate::parsing::{VERSION, matches_of};
use clap::ArgMatches;
use clap::error::ErrorKind;
use loom_gen::LAST_NUMBER;
use loom_words::{
    LEAST_CORE, LEAST_ENTRIES, LEAST_ROOM, MOST_CORE, MOST_ENTRIES, MOST_ROOM, MOST_STEPS,
};
use std::alloc::{AllocError, Global};

/// Where the image goes that a run leaves.
#[derive(Clone, Copy, PartialEq, Eq)]
pub enum Saving<'a> {
    /// Beside the image that was read.
    Beside,
    /// Over the image that was read.
    Over,
    Nowhere,
    To(&'a str),
}

/// The sizes that were asked for, each within its limits.
#[derive(Clone, Copy)]
pub struct AskedSizes {
    pub core: Option<u32>,
    pub entries: Option<u32>,
    pub room: Option<u32>,
    ghost core_within: { IfSome core (λ n. (LEAST_CORE ≤ n) × (n ≤ MOST_CORE)) } by { Prim.hlevel props },
    ghost entries_within: { IfSome entries (λ n. (LEAST_ENTRIES ≤ n) × (n ≤ MOST_ENTRIES)) } by { Prim.hlevel props },
    ghost room_within: { IfSome room (λ n. (LEAST_ROOM ≤ n) × (n ≤ MOST_ROOM)) } by { Prim.hlevel props },
}

/// How a machine runs, and where what comes of it goes.
#[derive(Clone, Copy)]
pub struct Running<'a> {
    pub events: Option<&'a str>,
    pub steps: u32,
    pub saving: Saving<'a>,
    pub picture: Option<&'a str>,
    pub on_stop: Option<&'a str>,
    pub work: Option<&'a str>,
    pub sizes: AskedSizes,
    ghost steps_within: { steps ≤ MOST_STEPS },
}

/// The number of a large image.
#[derive(Clone, Copy)]
pub struct LargeNumber {
    pub number: u8,
    ghost within: { number ≤ LAST_NUMBER },
}

/// What is shown of an image.
#[derive(Clone, Copy)]
pub enum Shown<'a> {
    Summary,
    /// By its name, which is a number.
    Object(&'a str),
    Class(&'a str),
    Method(&'a str, &'a str),
    Processes,
    Stack,
    Counts,
}

/// Which bytecodes are shown of a run.
#[derive(Clone, Copy)]
pub struct Tracing<'a> {
    pub events: Option<&'a str>,
    pub from: u32,
    pub to: u32,
    pub sends: bool,
    pub method: Option<(&'a str, &'a str)>,
    pub names: Option<&'a str>,
    pub sizes: AskedSizes,
    ghost first: { 1 ≤ from },
    ghost last: { from ≤ to },
    ghost to_within: { to ≤ MOST_STEPS },
}

/// What an image is made of.
#[derive(Drop)]
pub struct Sources<'a> {
    /// The files, in order.
    pub files: Vec<&'a str>,
    /// Whether the kernel stands before them.
    pub on_kernel: bool,
    /// The folder of the kernel, where one is named.
    pub kernel: Option<&'a str>,
}

/// What the words ask for. The word `-` for a file is left as it is.
#[derive(Drop)]
pub enum Request<'a> {
    Run {
        image: &'a str,
        running: Running<'a>,
    },
    Guard {
        image: &'a str,
        vault: &'a str,
        running: Running<'a>,
    },
    Resume {
        vault: &'a str,
        running: Running<'a>,
    },
    Make {
        number: LargeNumber,
        file: &'a str,
    },
    List {
        image: &'a str,
        text: &'a str,
    },
    Assemble {
        text: &'a str,
        image: &'a str,
    },
    Show {
        image: &'a str,
        shown: Shown<'a>,
        names: Option<&'a str>,
    },
    Diff {
        a: &'a str,
        b: &'a str,
        names: Option<&'a str>,
    },
    Check {
        file: &'a str,
        names: Option<&'a str>,
    },
    Trace {
        image: &'a str,
        tracing: Tracing<'a>,
    },
    Picture {
        pbm: &'a str,
        png: Option<&'a str>,
        scale: u32,
        width: Option<u32>,
    },
    Build {
        sources: Sources<'a>,
        image: &'a str,
    },
    Evaluate {
        statements: &'a str,
        sources: Sources<'a>,
    },
    Manual,
    Codes,
}

/// Why nothing is done.
#[derive(Drop)]
pub enum Refusal {
    /// Help, or the version, was asked for: a text for standard output.
    Help(String),
    /// The words are wrong: a text that says how.
    Words(String),
    Memory,
}

impl From<AllocError> for Refusal {
    fn from(_: AllocError) -> Refusal {
        Refusal::Memory
    }
}

// A number behind `--` and its name, where there is one.
fn number_behind(
    alloc: Global,
    matches: &ArgMatches<'_>,
    id: &str,
    least: u32,
    most: u32,
) -> Result<Option<u32>, Refusal>
    requires { least ≤ most }
    ensures { IfOk result (λ found. IfSome found (λ n. (least ≤ n) × (n ≤ most))) }
{
    match matches.get_str(id) {
        Some(word) => {
            let part = format!(in alloc; "--{id}")?;
            Ok(Some(number_word(alloc, part.as_str(), word, least, most)?))
        }
        None => Ok(None),
    }
}

// The number that a word states, or what is wrong with it.
fn number_word(alloc: Global, part: &str, word: &str, least: u32, most: u32) -> Result<u32, Refusal>
    requires { least ≤ most }
    ensures { IfOk result (λ n. (least ≤ n) × (n ≤ most)) }
{
    match number_in(word, least, most) {
        Some(number) => Ok(number),
        None => Err(Refusal::Words(number_fault(alloc, part, word, least, most)?)),
    }
}

// A word that has to be there. An empty one names no file.
fn word_of<'a>(alloc: Global, matches: &ArgMatches<'a>, id: &str) -> Result<&'a str, Refusal> {
    match matches.get_str(id) {
        Some(word) if !word.is_empty() => Ok(word),
        _ => Err(Refusal::Words(empty_word(alloc, id)?)),
    }
}

fn empty_word(alloc: Global, id: &str) -> Result<String, AllocError> {
    format!(in alloc;
        "error: the word for {id} is empty: the name of a file is wanted, or - for a standard stream\n"
    )
}

// A file behind `--` and its name, where there is one.
fn file_behind<'a>(
    alloc: Global,
    matches: &ArgMatches<'a>,
    id: &str,
) -> Result<Option<&'a str>, Refusal> {
    match matches.get_str(id) {
        Some(word) if word.is_empty() => Err(Refusal::Words(empty_word(alloc, id)?)),
        found => Ok(found),
    }
}

fn sizes_of(alloc: Global, matches: &ArgMatches<'_>) -> Result<AskedSizes, Refusal> {
    let core = number_behind(alloc, matches, "core", LEAST_CORE, MOST_CORE)?;
    let entries = number_behind(alloc, matches, "entries", LEAST_ENTRIES, MOST_ENTRIES)?;
    let room = number_behind(alloc, matches, "room", LEAST_ROOM, MOST_ROOM)?;
    Ok(AskedSizes {
        core,
        entries,
        room,
    })
}

fn saving_of<'a>(alloc: Global, matches: &ArgMatches<'a>) -> Result<Saving<'a>, Refusal> {
    if matches.get_flag("in-place") {
        return Ok(Saving::Over);
    }
    if matches.get_flag("no-save") {
        return Ok(Saving::Nowhere);
    }
    match file_behind(alloc, matches, "save")? {
        Some(file) => Ok(Saving::To(file)),
        None => Ok(Saving::Beside),
    }
}

fn running_of<'a>(alloc: Global, matches: &ArgMatches<'a>) -> Result<Running<'a>, Refusal> {
    let steps = number_behind(alloc, matches, "steps", 0, MOST_STEPS)?;
    let saving = saving_of(alloc, matches)?;
    let events = file_behind(alloc, matches, "events")?;
    let picture = file_behind(alloc, matches, "picture")?;
    let on_stop = file_behind(alloc, matches, "on-stop")?;
    let work = file_behind(alloc, matches, "work")?;
    let sizes = sizes_of(alloc, matches)?;
    Ok(Running {
        events,
        steps: steps.unwrap_or(MOST_STEPS),
        saving,
        picture,
        on_stop,
        work,
        sizes,
    })
}

fn run_of<'a>(alloc: Global, matches: &ArgMatches<'a>) -> Result<Request<'a>, Refusal> {
    let image = word_of(alloc, matches, "image")?;
    let running = running_of(alloc, matches)?;
    Ok(Request::Run { image, running })
}

fn guard_of<'a>(alloc: Global, matches: &ArgMatches<'a>) -> Result<Request<'a>, Refusal> {
    let image = word_of(alloc, matches, "image")?;
    let vault = word_of(alloc, matches, "vault")?;
    let running = running_of(alloc, matches)?;
    Ok(Request::Guard {
        image,
        vault,
        running,
    })
}

fn resume_of<'a>(alloc: Global, matches: &ArgMatches<'a>) -> Result<Request<'a>, Refusal> {
    let vault = word_of(alloc, matches, "vault")?;
    let running = running_of(alloc, matches)?;
    if running.saving == Saving::Over {
        let text =
            "error: --in-place has no image to write over: a vault isn't one; give --save FILE\n";
        return Err(Refusal::Words(String::from_str(alloc, text)?));
    }
    Ok(Request::Resume { vault, running })
}

fn make_of<'a>(alloc: Global, matches: &ArgMatches<'a>) -> Result<Request<'a>, Refusal> {
    let word = matches.get_str("number").unwrap_or("");
    let number = number_word(alloc, "NUMBER", word, 0, LAST_NUMBER as u32)?;
    let file = word_of(alloc, matches, "file")?;
    let number = LargeNumber {
        number: number as u8,
    };
    Ok(Request::Make { number, file })
}

// Whether one of these words is empty.
fn has_empty(words: &[&str]) -> bool {
    words.iter().any(|word| word.is_empty())
}

// Files in order, none of which is an empty word.
fn files_of<'a>(
    alloc: Global,
    matches: &ArgMatches<'a>,
    id: &str,
) -> Result<Vec<&'a str>, Refusal> {
    match matches.get_strs(id) {
        Some(words) if has_empty(words) => Err(Refusal::Words(empty_word(alloc, id)?)),
        Some(words) => Ok(Vec::from_slice(alloc, words)?),
        None => Ok(Vec::new(alloc)),
    }
}

fn sources_of<'a>(
    alloc: Global,
    matches: &ArgMatches<'a>,
    on_kernel: bool,
) -> Result<Sources<'a>, Refusal> {
    let files = files_of(alloc, matches, "source")?;
    let kernel = file_behind(alloc, matches, "kernel")?;
    Ok(Sources {
        files,
        on_kernel,
        kernel,
    })
}

fn build_of<'a>(alloc: Global, matches: &ArgMatches<'a>) -> Result<Request<'a>, Refusal> {
    let image = word_of(alloc, matches, "output")?;
    let on_kernel = !matches.get_flag("bare");
    let sources = sources_of(alloc, matches, on_kernel)?;
    Ok(Request::Build { sources, image })
}

fn evaluate_of<'a>(alloc: Global, matches: &ArgMatches<'a>) -> Result<Request<'a>, Refusal> {
    let statements = matches.get_str("statements").unwrap_or("");
    let sources = sources_of(alloc, matches, true)?;
    Ok(Request::Evaluate {
        statements,
        sources,
    })
}

fn list_of<'a>(alloc: Global, matches: &ArgMatches<'a>) -> Result<Request<'a>, Refusal> {
    let image = word_of(alloc, matches, "image")?;
    let text = file_behind(alloc, matches, "text")?;
    Ok(Request::List {
        image,
        text: text.unwrap_or("-"),
    })
}

fn assemble_of<'a>(alloc: Global, matches: &ArgMatches<'a>) -> Result<Request<'a>, Refusal> {
    let text = word_of(alloc, matches, "text")?;
    let image = word_of(alloc, matches, "image")?;
    Ok(Request::Assemble { text, image })
}

// Whether a word has digits alone, and one at least.
fn is_number(word: &str) -> bool {
    !word.is_empty() && word.as_bytes().iter().all(|byte| byte.is_ascii_digit())
}

// What the words behind the image say is to be shown; None where they say nothing that is known.
fn shown_of<'a>(words: &[&'a str]) -> Option<Shown<'a>> {
    match words {
        [] => Some(Shown::Summary),
        ["processes"] => Some(Shown::Processes),
        ["stack"] => Some(Shown::Stack),
        ["counts"] => Some(Shown::Counts),
        ["class", name] => Some(Shown::Class(name)),
        ["method", class, selector] => Some(Shown::Method(class, selector)),
        [word] if is_number(word) => Some(Shown::Object(word)),
        _ => None,
    }
}

const SHOWABLE: &str = "\
error: what is to be shown isn't one of these
  st80 show IMAGE
  st80 show IMAGE NUMBER                    an object, by its name, which is a number
  st80 show IMAGE class NAME
  st80 show IMAGE method CLASS SELECTOR
  st80 show IMAGE processes
  st80 show IMAGE stack
  st80 show IMAGE counts
";

fn show_of<'a>(alloc: Global, matches: &ArgMatches<'a>) -> Result<Request<'a>, Refusal> {
    let image = word_of(alloc, matches, "image")?;
    let names = file_behind(alloc, matches, "names")?;
    let shown = match matches.get_strs("what") {
        Some(words) => shown_of(words),
        None => Some(Shown::Summary),
    };
    match shown {
        Some(shown) => Ok(Request::Show {
            image,
            shown,
            names,
        }),
        None => Err(Refusal::Words(String::from_str(alloc, SHOWABLE)?)),
    }
}

fn diff_of<'a>(alloc: Global, matches: &ArgMatches<'a>) -> Result<Request<'a>, Refusal> {
    let a = word_of(alloc, matches, "a")?;
    let b = word_of(alloc, matches, "b")?;
    let names = file_behind(alloc, matches, "names")?;
    Ok(Request::Diff { a, b, names })
}

fn check_of<'a>(alloc: Global, matches: &ArgMatches<'a>) -> Result<Request<'a>, Refusal> {
    let file = word_of(alloc, matches, "file")?;
    let names = file_behind(alloc, matches, "names")?;
    Ok(Request::Check { file, names })
}

// How many bytecodes are shown where nothing is said of it.
const SHOWN: u32 = 1_000;

fn method_of<'a>(matches: &ArgMatches<'a>) -> Option<(&'a str, &'a str)> {
    match matches.get_strs("method") {
        Some([class, selector]) => Some((class, selector)),
        _ => None,
    }
}

fn trace_of<'a>(alloc: Global, matches: &ArgMatches<'a>) -> Result<Request<'a>, Refusal> {
    let image = word_of(alloc, matches, "image")?;
    let from = number_behind(alloc, matches, "from", 1, MOST_STEPS)?;
    let from = from.unwrap_or(1);
    let to = number_behind(alloc, matches, "to", from, MOST_STEPS)?;
    let events = file_behind(alloc, matches, "events")?;
    let names = file_behind(alloc, matches, "names")?;
    let sizes = sizes_of(alloc, matches)?;
    let last = from.saturating_add(SHOWN - 1).min(MOST_STEPS);
    let tracing = Tracing {
        events,
        from,
        to: to.unwrap_or(last),
        sends: matches.get_flag("sends"),
        method: method_of(matches),
        names,
        sizes,
    };
    Ok(Request::Trace { image, tracing })
}

fn picture_of<'a>(alloc: Global, matches: &ArgMatches<'a>) -> Result<Request<'a>, Refusal> {
    let pbm = word_of(alloc, matches, "pbm")?;
    let png = file_behind(alloc, matches, "png")?;
    let scale = number_behind(alloc, matches, "scale", 1, 64)?;
    let width = number_behind(alloc, matches, "width", 8, 1_000)?;
    Ok(Request::Picture {
        pbm,
        png,
        scale: scale.unwrap_or(1),
        width,
    })
}

// What a command with these matches asks for.
fn request_for<'a>(
    alloc: Global,
    command: &str,
    matches: &ArgMatches<'a>,
) -> Result<Request<'a>, Refusal> {
    match command {
        "run" => run_of(alloc, matches),
        "guard" => guard_of(alloc, matches),
        "resume" => resume_of(alloc, matches),
        "make" => make_of(alloc, matches),
        "build" => build_of(alloc, matches),
        "eval" => evaluate_of(alloc, matches),
        "list" => list_of(alloc, matches),
        "asm" => assemble_of(alloc, matches),
        "show" => show_of(alloc, matches),
        "diff" => diff_of(alloc, matches),
        "check" => check_of(alloc, matches),
        "trace" => trace_of(alloc, matches),
        "picture" => picture_of(alloc, matches),
        "manual" => Ok(Request::Manual),
        _ => Ok(Request::Codes),
    }
}

// What is said where clap finds fault with the words, or was asked for help.
fn refusal_of(alloc: Global, error: &clap::Error, words: &[String]) -> Result<Refusal, AllocError> {
    if error.kind() == ErrorKind::OutOfMemory {
        return Ok(Refusal::Memory);
    }
    let mut text = error.to_string(alloc)?;
    if !error.use_stderr() {
        return Ok(Refusal::Help(text));
    }
    if error.kind() == ErrorKind::InvalidSubcommand {
        put_meant(&mut text, words)?;
    }
    Ok(Refusal::Words(text))
}

// The command of this name, whatever its letters' case.
fn command_in_any_case(word: &str) -> Option<&'static str> {
    for name in NAMES {
        if word.eq_ignore_ascii_case(name) {
            return Some(name);
        }
    }
    None
}

// What was probably meant by a first word that is no command.
fn put_meant(text: &mut String, words: &[String]) -> Result<(), AllocError> {
    let Some(word) = words.first() else {
        return Ok(());
    };
    let word = word.as_str();
    if let Some(command) = command_in_any_case(word) {
        return write!(text, "\nThe command {command} was probably meant.\n");
    }
    if words.len() == 1 {
        return write!(text, "\nTo run an image called {word}: st80 run {word}\n");
    }
    Ok(())
}

// The words of a command line that ask for the codes by `help codes`.
fn asks_for_codes(words: &[String]) -> bool {
    match words {
        [help, codes] => help.as_str() == "help" && codes.as_str() == "codes",
        _ => false,
    }
}

// The words that ask for the version by `version`.
fn asks_for_version(words: &[String]) -> bool {
    match words {
        [version] => version.as_str() == "version",
        _ => false,
    }
}

/// What the words behind the program's name ask for.
pub fn request_of<'a>(alloc: Global, words: &'a [String]) -> Result<Request<'a>, Refusal> {
    if asks_for_codes(words) {
        return Ok(Request::Codes);
    }
    if asks_for_version(words) {
        let text = format!(in alloc; "st80 {VERSION}\n")?;
        return Err(Refusal::Help(text));
    }
    match matches_of(alloc, words) {
        Ok(matches) => match matches.subcommand() {
            Some((command, others)) => request_for(alloc, command, others),
            None => Ok(Request::Codes),
        },
        Err(error) => Err(refusal_of(alloc, &error, words)?),
    }
}
