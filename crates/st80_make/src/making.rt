// The image of texts, or what is wrong with them.
ghost use Rattle.std.specs.Prelude.{◌≡◌, length, IfErr, IfOk};
ghost use Rattle.image_format.specs.Valid.{IsValid};
ghost use Rattle.st80_build.specs.declared.image.Built.TheVariants as kind;
ghost use Rattle.st80_files.specs.Codes.{IsToldBy};
ghost use Rattle.st80_files.specs.declared.codes.Code.TheVariants as code;
ghost use Rattle.st80_make.specs.Making.{IsMade, IsMadeOf};
ghost use Rattle.st80_program.specs.Programs.{IsProgram};
ghost use Rattle.st80_program.specs.Understood.{AreOf};

use crate::texts::Text;
use st80_build::{Built, Made, image_of};
use st80_complain::{Source, refusal_words, said_at, said_of};
use st80_files::{Code, Failure, STREAM, failed, put_bytes};
use st80_program::{
    Problem, Program, Reading, Trees, Whole, Written, first_place, program_of, trees_of,
};
use std::alloc::{AllocError, Global};

fn slices_of(alloc: Global, texts: &[Text]) -> Result<Vec<&[u8]>, AllocError>
    ensures { IfOk result (λ slices. length slices.items ≡ length texts.now) }
{
    let mut slices = Vec::new(alloc);
    'each: for text in texts {
        slices.push(text.bytes.as_slice())?;
    }
    Ok(slices)
}

/// The source of this number, and what it is called.
fn source_at<'t>(texts: &'t [Text], number: usize) -> Source<'t> {
    match texts.get(number) {
        Some(text) => Source {
            name: match text.word.as_str() {
                STREAM => "standard input",
                word => word,
            },
            text: text.bytes.as_slice(),
        },
        None => Source {
            name: "sources",
            text: &[],
        },
    }
}

fn told(said: Result<String, AllocError>) -> Failure
    ensures { IsToldBy code.SourceBad result }
{
    match said {
        Ok(text) => Failure::Told {
            code: Code::SourceBad,
            text,
        },
        Err(_) => Failure::Memory,
    }
}

fn problem_told(alloc: Global, texts: &[Text], problem: &Problem) -> Failure
    ensures { IsToldBy code.SourceBad result }
{
    let source = source_at(texts, problem.source);
    told(said_of(alloc, source, problem))
}

fn program_in(alloc: Global, texts: &[Text]) -> Result<Program, Failure>
    ensures read { IfOk result (IsProgram (length texts.now)) }
    ensures failed { IfErr result (IsToldBy code.SourceBad) }
{
    let slices = slices_of(alloc, texts)?;
    match program_of(alloc, slices.as_slice())? {
        Reading::Program(program) => Ok(program),
        Reading::Wrong(problem) => Err(problem_told(alloc, texts, &problem)),
    }
}

fn trees_in(alloc: Global, texts: &[Text], program: &Program) -> Result<Trees, Failure>
    ensures resolved { IfOk result (AreOf program.now) }
    ensures failed { IfErr result (IsToldBy code.SourceBad) }
{
    match trees_of(alloc, program)? {
        Whole::Trees(trees) => Ok(trees),
        Whole::Wrong(problem) => Err(problem_told(alloc, texts, &problem)),
    }
}

/// A method by its number; what the program begins with is behind the last.
fn written_at(program: &Program, number: usize) -> Option<&Written> {
    match program.methods.get(number) {
        Some(written) => Some(written),
        None => program.start.as_ref(),
    }
}

/// What is said of a method, at its beginning.
fn method_told(
    alloc: Global,
    texts: &[Text],
    program: &Program,
    number: usize,
    words: &str,
) -> Failure
    ensures { IsToldBy code.SourceBad result }
{
    let Some(written) = written_at(program, number) else {
        return failed(alloc, Code::SourceBad, words);
    };
    let place = first_place(&written.chunk);
    let source = source_at(texts, written.source);
    told(said_at(alloc, source, place, words, None))
}

fn rule_told(alloc: Global, rule: u8, name: u32) -> Failure
    ensures { IsToldBy code.SourceBad result }
{
    told(format!(in alloc;
        "what the sources have is no image: object {name} would break rule {rule}"
    ))
}

/// What is wrong where a program is built as no image.
fn built_in(alloc: Global, texts: &[Text], program: &Program, built: Built) -> Result<Made, Failure>
    ensures made { IfOk result (λ made. built ≡ kind.Image made) }
    ensures failed { IfErr result (IsToldBy code.SourceBad) }
{
    match built {
        Built::Image(made) => Ok(made),
        Built::Refused(number, refusal) => {
            Err(method_told(alloc, texts, program, number, refusal_words(refusal)))
        }
        Built::Literal(number) => {
            let words = "a literal of this method isn't known";
            Err(method_told(alloc, texts, program, number, words))
        }
        Built::Full => {
            let words = "the sources have more objects than an image, or one that is too large";
            Err(failed(alloc, Code::SourceBad, words))
        }
        Built::NoImage(rule, name) => Err(rule_told(alloc, rule, name)),
        Built::NoStart => {
            let words = "the sources have no statements to begin with";
            Err(failed(alloc, Code::SourceBad, words))
        }
    }
}

/// An image, and the texts that it was made of.
#[derive(Drop)]
pub struct Building {
    pub texts: Vec<Text>,
    pub made: Made,
}

fn made_of(alloc: Global, texts: &[Text]) -> Result<Made, Failure>
    ensures made { IfOk result (IsMadeOf texts.now) }
    ensures failed { IfErr result (IsToldBy code.SourceBad) }
{
    let program = program_in(alloc, texts)?;
    let trees = trees_in(alloc, texts, &program)?;
    let built = image_of(alloc, &program, &trees)?;
    built_in(alloc, texts, &program, built)
}

/// The image of texts, or what is wrong with them.
pub fn building_of(alloc: Global, texts: Vec<Text>) -> Result<Building, Failure>
    ensures texts { IfOk result (λ building. building.texts ≡ texts) }
    ensures made { IfOk result IsMade }
    ensures failed { IfErr result (IsToldBy code.SourceBad) }
{
    let made = made_of(alloc, &texts)?;
    Ok(Building { texts, made })
}

/// Writes an image, and the names beside it. Nothing but an image is written.
pub fn put_building(rt: HostRuntime, image: &str, building: &Building) -> Result<(), Failure>
    requires valid { IsValid building.now.made.image }
    ensures { IfErr result (IsToldBy code.WriteFault) }
{
    put_bytes(rt, image, building.made.image.bytes())?;
    if image == STREAM {
        return Ok(());
    }
    let names = format!(in rt.alloc(); "{image}.names")?;
    put_bytes(rt, names.as_str(), building.made.names.as_slice())
}
