// The words of a command.
ghost use Rattle.std.specs.Prelude.{◌≡◌, ◌≢◌, codes, ◌↔◌, ◌≤◌, ◌∷◌, ◌++◌, List, ℕ, IsTrue, decimal, IfOk, IfErr, IfSome, IsNone, Some, false, []};
ghost use Rattle.loom_gen.specs.declared.generator.TheConstants.{LAST_NUMBER};
ghost use Rattle.loom_words.specs.Command.{HasLimits, IsAsked, row_for};
ghost use Rattle.loom_words.specs.Words.{Check, anything, bad_from, bad_in, bad_word, begins_with, error_of, file_checks, is_from, is_number, number_checks, path_checks, row_of, run_row, texts_of, trace_checks, IsTrace};

use itoa::Buffer;
use loom_gen::LAST_NUMBER;

/// The sizes of a core, in words and in entries, the number of objects for which the work file may have room, and the greatest number of
/// bytecodes that a run may be asked for.
pub const LEAST_CORE: u32 = 4_096;

pub const MOST_CORE: u32 = 16_777_216;

pub const LEAST_ENTRIES: u32 = 512;

pub const MOST_ENTRIES: u32 = 32_767;

pub const LEAST_ROOM: u32 = 1_024;

pub const MOST_ROOM: u32 = 1_048_576;

pub const MOST_STEPS: u32 = 2_147_483_647;

/// A run: the files of the image and of the events, the work file, the files for the saved image and for the picture, the words and the
/// entries of the core, for how many objects there is room, and how many bytecodes. Or a trace: its lines go to `saved`, and it has no picture,
/// so `display` is empty.
#[derive(Clone, Copy, Debug)]
pub struct Command<'a> {
    pub image: &'a str,
    pub events: &'a str,
    pub work: &'a str,
    pub saved: &'a str,
    pub display: &'a str,
    pub core: u32,
    pub entries: u16,
    pub room: u32,
    pub steps: u32,
}

/// A making: the number of an image, at most `LAST_NUMBER`, and the file that it is written to.
#[derive(Clone, Copy, Debug)]
pub struct Making<'a> {
    pub number: u8,
    pub file: &'a str,
}

/// A listing or an assembling: the file that is read, the work file, and the file that is written.
#[derive(Clone, Copy, Debug)]
pub struct Conversion<'a> {
    pub source: &'a str,
    pub work: &'a str,
    pub target: &'a str,
}

/// What the words after the program's name ask for.
#[derive(Clone, Copy, Debug)]
pub enum Asked<'a> {
    Run(Command<'a>),
    Make(Making<'a>),
    /// An image becomes a text.
    List(Conversion<'a>),
    /// A text becomes an image.
    Assemble(Conversion<'a>),
    /// A run of which each bytecode has a line.
    Trace(Command<'a>),
}

// The number from the least to the most that a word states, in decimal digits with no sign and no leading zero.
#[tactic(auto, using(crate::proofs::Numbers::number_rules))]
fn number_in(word: &str, least: u32, most: u32) -> Option<u32>
    ensures some { IfSome result (λ n. (word.now ≡ decimal n) × (least ≤ n) × (n ≤ most)) }
    ensures none { IsNone result → is_number least most word.now ≡ false }
{
    let Ok(number) = word.parse::<u32>() else {
        return None;
    };
    if least <= number && number <= most && is_decimal(word, number) {
        Some(number)
    } else {
        None
    }
}

fn is_decimal(word: &str, number: u32) -> bool
    ensures { IsTrue result ↔ (word.now ≡ decimal number) }
{
    let mut buffer = Buffer::new();
    buffer.format(number) == word
}

// The first of some words, and the others. The error is this position.
pub(crate) fn next_word(words: &[String], position: u32) -> Result<(&str, &[String]), u32>
    ensures missing { IfErr result (λ at. (at ≡ position) × (texts_of words.now ≡ [])) }
    ensures first { IfOk result (λ r. texts_of words.now ≡ r.0.now ∷ texts_of r.1.now) }
{
    match words.split_first() {
        Some((word, others)) => Ok((word.as_str(), others)),
        None => Err(position),
    }
}

// The number that the first of some words states, and the others. The error is this position.
fn next_number(
    words: &[String],
    position: u32,
    least: u32,
    most: u32,
) -> Result<(u32, &[String]), u32>
    ensures bad { (checks : List Check) (all : List (List ℕ)) → IfErr result (λ at. (at ≡ position) × (bad_from position (is_from least most ∷ checks) all (texts_of words.now) ≡ Some position)) }
    ensures first { IfOk result (λ r. texts_of words.now ≡ decimal r.0 ∷ texts_of r.1.now) }
    ensures within { IfOk result (λ r. (least ≤ r.0) × (r.0 ≤ most)) }
{
    let (word, others) = next_word(words, position)?;
    match number_in(word, least, most) {
        Some(number) => Ok((number, others)),
        None => Err(position),
    }
}

// The numbers of a run.
#[derive(Clone, Copy, Debug)]
pub(crate) struct Numbers {
    pub(crate) core: u32,
    pub(crate) entries: u16,
    pub(crate) room: u32,
    pub(crate) steps: u32,
}

// The numbers that some words state, `CORE ENTRIES ROOM STEPS`, the first of them at this position, and the words behind them. The error is the
// position of the first bad or missing word.
pub(crate) fn numbers_of(words: &[String], position: u32) -> Result<(Numbers, &[String]), u32>
    requires { position ≤ 7 }
    ensures bad { (checks : List Check) (all : List (List ℕ)) → IfErr result (λ at. bad_from position (number_checks ++ checks) all (texts_of words.now) ≡ Some at) }
    ensures first { IfOk result (λ r. texts_of words.now ≡ decimal r.0.core ∷ decimal r.0.entries ∷ decimal r.0.room ∷ decimal r.0.steps ∷ texts_of r.1.now) }
    ensures core { IfOk result (λ r. (LEAST_CORE ≤ r.0.core) × (r.0.core ≤ MOST_CORE)) }
    ensures entries { IfOk result (λ r. (LEAST_ENTRIES ≤ r.0.entries) × (r.0.entries ≤ MOST_ENTRIES)) }
    ensures room { IfOk result (λ r. (LEAST_ROOM ≤ r.0.room) × (r.0.room ≤ MOST_ROOM)) }
    ensures steps { IfOk result (λ r. r.0.steps ≤ MOST_STEPS) }
{
    let (core, words) = next_number(words, position, LEAST_CORE, MOST_CORE)?;
    let (entries, words) = next_number(words, position + 1, LEAST_ENTRIES, MOST_ENTRIES)?;
    let (room, words) = next_number(words, position + 2, LEAST_ROOM, MOST_ROOM)?;
    let (steps, words) = next_number(words, position + 3, 0, MOST_STEPS)?;
    Ok((
        Numbers {
            core,
            entries: entries as u16,
            room,
            steps,
        },
        words,
    ))
}

// The files of a run.
#[derive(Clone, Copy, Debug)]
pub(crate) struct Files<'a> {
    pub(crate) image: &'a str,
    pub(crate) events: &'a str,
    pub(crate) work: &'a str,
    pub(crate) saved: &'a str,
    pub(crate) display: &'a str,
}

// The files that the words behind the word of a command state, `IMAGE EVENTS WORK SAVED DISPLAY`, and the words behind them. WORK is none of the
// other files, and DISPLAY none of those before it. The error is the position of the first bad or missing word.
pub(crate) fn files_of(words: &[String]) -> Result<(Files<'_>, &[String]), u32>
    ensures bad { (command : List ℕ) (checks : List Check) → IfErr result (λ at. bad_from 2 (file_checks ++ checks) (command ∷ texts_of words.now) (texts_of words.now) ≡ Some at) }
    ensures first { IfOk result (λ r. texts_of words.now ≡ r.0.image.now ∷ r.0.events.now ∷ r.0.work.now ∷ r.0.saved.now ∷ r.0.display.now ∷ texts_of r.1.now) }
    ensures work_apart { IfOk result (λ r. (r.0.work.now ≢ r.0.image.now) × (r.0.work.now ≢ r.0.events.now) × (r.0.work.now ≢ r.0.saved.now) × (r.0.work.now ≢ r.0.display.now)) }
    ensures display_apart { IfOk result (λ r. (r.0.display.now ≢ r.0.image.now) × (r.0.display.now ≢ r.0.events.now) × (r.0.display.now ≢ r.0.saved.now)) }
{
    let (image, words) = next_word(words, 2)?;
    let (events, words) = next_word(words, 3)?;
    let (work, words) = next_word(words, 4)?;
    if work == image || work == events {
        return Err(4);
    }
    let (saved, words) = next_word(words, 5)?;
    if saved == work {
        return Err(5);
    }
    let (display, words) = next_word(words, 6)?;
    if display == image || display == events || display == work || display == saved {
        return Err(6);
    }
    Ok((
        Files {
            image,
            events,
            work,
            saved,
            display,
        },
        words,
    ))
}

// The words behind the word of a command, where that is the first.
pub(crate) fn behind<'a>(words: &'a [String], command: &str) -> Option<&'a [String]>
    ensures some { IfSome result (λ others. texts_of words.now ≡ command.now ∷ texts_of others.now) }
    ensures none { IsNone result → begins_with command.now (texts_of words.now) ≡ false }
{
    match words.split_first() {
        Some((word, others)) if word.as_str() == command => Some(others),
        _ => None,
    }
}

// The run that words state: `run IMAGE EVENTS WORK SAVED DISPLAY CORE ENTRIES ROOM STEPS`. The error is the position, from 1, of the first bad,
// missing or extra word.
fn command_of(words: &[String]) -> Result<Command<'_>, u32>
    ensures bad { error_of result ≡ bad_in run_row (texts_of words.now) }
    ensures row { IfOk result (λ c. row_for c ≡ row_of (texts_of words.now)) }
    ensures limits { IfOk result HasLimits }
{
    let Some(words) = behind(words, "run") else {
        return Err(1);
    };
    let (files, words) = files_of(words)?;
    let (numbers, words) = numbers_of(words, 7)?;
    if !words.is_empty() {
        return Err(11);
    }
    Ok(Command {
        image: files.image,
        events: files.events,
        work: files.work,
        saved: files.saved,
        display: files.display,
        core: numbers.core,
        entries: numbers.entries,
        room: numbers.room,
        steps: numbers.steps,
    })
}

// The making that the words behind `make` state: `NUMBER FILE`. The error is the position of the first bad, missing or extra word.
fn making_of(words: &[String]) -> Result<Making<'_>, u32>
    ensures bad { (all : List (List ℕ)) → error_of result ≡ bad_from 2 (is_from 0 LAST_NUMBER ∷ anything ∷ []) all (texts_of words.now) }
    ensures words { IfOk result (λ m. texts_of words.now ≡ decimal m.number ∷ m.file.now ∷ []) }
    ensures limits { IfOk result (λ m. m.number ≤ LAST_NUMBER) }
{
    let (number, words) = next_number(words, 2, 0, LAST_NUMBER as u32)?;
    let (file, words) = next_word(words, 3)?;
    if !words.is_empty() {
        return Err(4);
    }
    Ok(Making {
        number: number as u8,
        file,
    })
}

// The files that the words behind `list` or `asm` state: `SOURCE WORK TARGET`. WORK is none of the others. The error is the position of the
// first bad, missing or extra word.
fn conversion_of(words: &[String]) -> Result<Conversion<'_>, u32>
    ensures bad { (command : List ℕ) → error_of result ≡ bad_from 2 path_checks (command ∷ texts_of words.now) (texts_of words.now) }
    ensures words { IfOk result (λ c. texts_of words.now ≡ c.source.now ∷ c.work.now ∷ c.target.now ∷ []) }
    ensures apart { IfOk result (λ c. (c.work.now ≢ c.source.now) × (c.work.now ≢ c.target.now)) }
{
    let (source, words) = next_word(words, 2)?;
    let (work, words) = next_word(words, 3)?;
    if work == source {
        return Err(3);
    }
    let (target, words) = next_word(words, 4)?;
    if target == work {
        return Err(4);
    }
    if !words.is_empty() {
        return Err(5);
    }
    Ok(Conversion {
        source,
        work,
        target,
    })
}

// The files of a trace.
#[derive(Clone, Copy, Debug)]
struct TraceFiles<'a> {
    image: &'a str,
    events: &'a str,
    work: &'a str,
    text: &'a str,
}

// The files that the words behind `trace` state, `IMAGE EVENTS WORK TEXT`, and the words behind them. The error is the position of the first bad
// or missing word.
fn trace_files_of(words: &[String]) -> Result<(TraceFiles<'_>, &[String]), u32>
    ensures bad { IfErr result (λ at. bad_from 2 trace_checks (codes "trace" ∷ texts_of words.now) (texts_of words.now) ≡ Some at) }
    ensures first { IfOk result (λ r. texts_of words.now ≡ r.0.image.now ∷ r.0.events.now ∷ r.0.work.now ∷ r.0.text.now ∷ texts_of r.1.now) }
    ensures work_apart { IfOk result (λ r. (r.0.work.now ≢ r.0.image.now) × (r.0.work.now ≢ r.0.events.now) × (r.0.work.now ≢ r.0.text.now)) }
    ensures text_apart { IfOk result (λ r. (r.0.text.now ≢ r.0.image.now) × (r.0.text.now ≢ r.0.events.now)) }
{
    let (image, words) = next_word(words, 2)?;
    let (events, words) = next_word(words, 3)?;
    let (work, words) = next_word(words, 4)?;
    if work == image || work == events {
        return Err(4);
    }
    let (text, words) = next_word(words, 5)?;
    if text == image || text == events || text == work {
        return Err(5);
    }
    Ok((
        TraceFiles {
            image,
            events,
            work,
            text,
        },
        words,
    ))
}

// The trace that the words behind `trace` state: `IMAGE EVENTS WORK TEXT CORE ENTRIES ROOM STEPS`. The error is the position of the first bad,
// missing or extra word.
fn tracing_of(words: &[String]) -> Result<Command<'_>, u32>
    ensures bad { error_of result ≡ bad_from 2 trace_checks (codes "trace" ∷ texts_of words.now) (texts_of words.now) }
    ensures row { IfOk result (λ c. IsTrace (codes "trace" ∷ texts_of words.now) (row_for c)) }
    ensures limits { IfOk result HasLimits }
{
    let (files, words) = trace_files_of(words)?;
    let (numbers, words) = numbers_of(words, 6)?;
    if !words.is_empty() {
        return Err(10);
    }
    Ok(Command {
        image: files.image,
        events: files.events,
        work: files.work,
        saved: files.text,
        display: "",
        core: numbers.core,
        entries: numbers.entries,
        room: numbers.room,
        steps: numbers.steps,
    })
}

/// What the words after the program's name ask for: a making, a listing, an assembling or a trace where the first is `make`, `list`, `asm` or
/// `trace`, else a run. The error is the position, from 1, of the first bad, missing or extra word.
pub fn asked_of(words: &[String]) -> Result<Asked<'_>, u32>
    ensures bad { error_of result ≡ bad_word (texts_of words.now) }
    ensures asked { IfOk result (IsAsked (texts_of words.now)) }
{
    if let Some(others) = behind(words, "make") {
        return Ok(Asked::Make(making_of(others)?));
    }
    if let Some(others) = behind(words, "list") {
        return Ok(Asked::List(conversion_of(others)?));
    }
    if let Some(others) = behind(words, "asm") {
        return Ok(Asked::Assemble(conversion_of(others)?));
    }
    if let Some(others) = behind(words, "trace") {
        return Ok(Asked::Trace(tracing_of(others)?));
    }
    Ok(Asked::Run(command_of(words)?))
}
