// The chunks of source files, one after another.
ghost use Rattle.std.specs.Prelude.{◌<◌, ◌≤◌, ℕ, IfOk, IfSome, OnOk, length};
ghost use Rattle.st80_program.specs.Programs.{IsNext, IsProgram, IsRead};

use crate::definitions::{Call, call_of, is_empty, shape_of, string_in, symbol_in, words_in};
use crate::problem::{Problem, Stop, What, wrong};
use crate::program::{Class, Program, Shape, Written};
use st80_parser::{Expr, Method, Parsed, statements_in};
use st80_scope::spelling;
use st80_source::{Chunk, chunk_at, is_blank};
use st80_syntax::{Scanned, Token, scan};
use std::alloc::{AllocError, Global};

/// What source files are read as.
#[derive(Debug, Drop)]
pub enum Reading {
    Program(Program),
    Wrong(Problem),
}

/// What the next chunk is.
#[derive(Clone, Copy, Debug, PartialEq, Eq)]
enum Next {
    /// A definition, statements to begin with, or nothing but blanks and comments before a header.
    Any,
    Header,
    /// A method of this class, or blanks behind the last.
    Method(usize, bool),
}

/// The place in its file of a byte of a chunk; behind the last, of the chunk's mark.
pub(crate) fn place_of(chunk: &Chunk, at: usize) -> usize {
    match chunk.places.get(at) {
        Some(place) => *place,
        None => chunk.end.saturating_sub(1),
    }
}

/// The place of the first byte of a chunk that is no blank.
pub fn first_place(chunk: &Chunk) -> usize {
    for (at, b) in chunk.bytes.iter().enumerate() {
        if !is_blank(&[*b]) {
            return place_of(chunk, at);
        }
    }
    place_of(chunk, 0)
}

/// The tokens of a chunk.
pub(crate) fn tokens_of(alloc: Global, source: usize, chunk: &Chunk) -> Result<Vec<Token>, Stop> {
    match scan(alloc, chunk.bytes.as_slice())? {
        Scanned::Tokens(tokens) => Ok(tokens),
        Scanned::Refused(refusal) => Err(wrong(
            source,
            place_of(chunk, refusal.at),
            What::Fault(refusal.fault),
        )),
    }
}

/// The tree of what tokens are read as.
pub(crate) fn tree_in(
    source: usize,
    chunk: &Chunk,
    tokens: &[Token],
    parsed: Parsed,
) -> Result<Method, Stop> {
    match parsed {
        Parsed::Method(method) => Ok(method),
        Parsed::Refused(refused) => {
            let at = match tokens.get(refused.number) {
                Some(token) => token.at,
                None => chunk.bytes.len(),
            };
            Err(wrong(
                source,
                place_of(chunk, at),
                What::Expected(refused.expected),
            ))
        }
    }
}

fn statements_of(alloc: Global, source: usize, chunk: &Chunk) -> Result<Method, Stop> {
    let tokens = tokens_of(alloc, source, chunk)?;
    let parsed = statements_in(alloc, tokens.as_slice())?;
    tree_in(source, chunk, tokens.as_slice(), parsed)
}

/// The number of the class that a token names.
fn class_named(
    alloc: Global,
    program: &Program,
    source: usize,
    chunk: &Chunk,
    token: Token,
) -> Result<usize, Stop>
    ensures { IfOk result (λ class. class < length program.now.classes.items) }
{
    let name = spelling(chunk.bytes.as_slice(), token);
    match program.class_of(name) {
        Some(class) => Ok(class),
        None => {
            let near = program.nearest_class(alloc, name)?;
            Err(wrong(source, place_of(chunk, token.at), What::NoClass(near)))
        }
    }
}

/// The class whose methods a header announces.
fn header_of(alloc: Global, program: &Program, source: usize, chunk: &Chunk) -> Result<Next, Stop>
    ensures { IfOk result (IsNext (length program.now.classes.items)) }
{
    let tree = statements_of(alloc, source, chunk)?;
    let text = chunk.bytes.as_slice();
    match call_of(alloc, text, &tree)? {
        Some(call) => match call.given.as_slice() {
            [only] if spelling(text, only.keyword) == b"methodsFor:".as_slice() => {
                let class = class_named(alloc, program, source, chunk, call.class)?;
                Ok(Next::Method(class, call.is_meta))
            }
            _ => Err(wrong(source, first_place(chunk), What::NoHeader)),
        },
        None => Err(wrong(source, first_place(chunk), What::NoHeader)),
    }
}

/// What the definition of a class says behind its name.
#[derive(Drop)]
struct Parts {
    fields: Vec<Vec<u8>>,
    variables: Vec<Vec<u8>>,
}

/// The words of an argument, which has to be a string behind this keyword.
fn listed(
    alloc: Global,
    text: &[u8],
    keyword: Token,
    wanted: &[u8],
    argument: &Expr,
) -> Result<Option<Vec<Vec<u8>>>, AllocError> {
    if spelling(text, keyword) != wanted {
        return Ok(None);
    }
    match string_in(text, argument) {
        Some(bytes) => Ok(Some(words_in(alloc, bytes)?)),
        None => Ok(None),
    }
}

/// What the keywords of a definition say, if they are those of one.
fn parts_of(alloc: Global, text: &[u8], call: &Call<'_>) -> Result<Option<Parts>, AllocError> {
    let [category, pools, variables, fields, _] = call.given.as_slice() else {
        return Ok(None);
    };
    let category = listed(
        alloc,
        text,
        category.keyword,
        b"category:",
        category.argument,
    )?;
    let pools = listed(
        alloc,
        text,
        pools.keyword,
        b"poolDictionaries:",
        pools.argument,
    )?;
    let variables = listed(
        alloc,
        text,
        variables.keyword,
        b"classVariableNames:",
        variables.argument,
    )?;
    let fields = listed(
        alloc,
        text,
        fields.keyword,
        b"instanceVariableNames:",
        fields.argument,
    )?;
    match (category, pools, variables, fields) {
        (Some(_), Some(_), Some(variables), Some(fields)) => {
            Ok(Some(Parts { fields, variables }))
        }
        _ => Ok(None),
    }
}

/// The superclass that a definition names; `nil` is none.
fn superclass_of(
    alloc: Global,
    program: &Program,
    source: usize,
    chunk: &Chunk,
    token: Token,
) -> Result<Option<usize>, Stop>
    ensures { IfOk result (λ above. IfSome above (λ number. number < length program.now.classes.items)) }
{
    if spelling(chunk.bytes.as_slice(), token) == b"nil".as_slice() {
        return Ok(None);
    }
    Ok(Some(class_named(alloc, program, source, chunk, token)?))
}

/// Adds the class that a message defines.
fn define(
    alloc: Global,
    program: &mut Program,
    source: usize,
    chunk: &Chunk,
    call: &Call<'_>,
    shape: Shape,
) -> Result<(), Stop>
    ensures keeps { (texts : ℕ) → IsProgram texts program.old → source < texts → OnOk result (IsProgram texts program.new) }
    ensures longer { OnOk result (length program.old.classes.items ≤ length program.new.classes.items) }
{
    let text = chunk.bytes.as_slice();
    let place = place_of(chunk, call.class.at);
    let superclass = superclass_of(alloc, program, source, chunk, call.class)?;
    let name = match call.given.last() {
        Some(first) => symbol_in(text, first.argument),
        None => None,
    };
    let Some(name) = name else {
        return Err(wrong(source, place, What::NoDefinition));
    };
    if program.class_of(name).is_some() {
        return Err(wrong(source, place, What::ClassTwice));
    }
    let Some(parts) = parts_of(alloc, text, call)? else {
        return Err(wrong(source, place, What::NoDefinition));
    };
    let Parts { fields, variables } = parts;
    let name = Vec::from_slice(alloc, name)?;
    let class_fields = Vec::new(alloc);
    let class = Class {
        name,
        superclass,
        shape,
        fields,
        class_fields,
        variables,
    };
    program.add_class(class)?;
    Ok(())
}

/// Gives a class fields of its own.
fn add_class_fields(
    alloc: Global,
    program: &mut Program,
    source: usize,
    chunk: &Chunk,
    call: &Call<'_>,
) -> Result<(), Stop>
    ensures keeps { (texts : ℕ) → IsProgram texts program.old → source < texts → OnOk result (IsProgram texts program.new) }
    ensures longer { OnOk result (length program.old.classes.items ≤ length program.new.classes.items) }
{
    let text = chunk.bytes.as_slice();
    let place = place_of(chunk, call.class.at);
    let class = class_named(alloc, program, source, chunk, call.class)?;
    let [only] = call.given.as_slice() else {
        return Err(wrong(source, place, What::NoDefinition));
    };
    let names = listed(
        alloc,
        text,
        only.keyword,
        b"instanceVariableNames:",
        only.argument,
    )?;
    match names {
        Some(names) => {
            program.give_fields(class, names);
            Ok(())
        }
        None => Err(wrong(source, place, What::NoDefinition)),
    }
}

/// Whether a message defines a class, and of which shape.
fn defined_by(text: &[u8], call: &Call<'_>) -> Option<Shape> {
    let first = call.given.last()?;
    shape_of(spelling(text, first.keyword))
}

/// Whether a message names the fields of a class itself.
fn names_fields(text: &[u8], call: &Call<'_>) -> bool {
    match call.given.as_slice() {
        [only] => {
            call.is_meta && spelling(text, only.keyword) == b"instanceVariableNames:".as_slice()
        }
        _ => false,
    }
}

/// Takes what a message to a class says of it, if the statements are one: it is defined, or given fields. Whether they are.
fn take_call(
    alloc: Global,
    program: &mut Program,
    source: usize,
    chunk: &Chunk,
    tree: &Method,
) -> Result<bool, Stop>
    ensures keeps { (texts : ℕ) → IsProgram texts program.old → source < texts → OnOk result (IsProgram texts program.new) }
    ensures longer { OnOk result (length program.old.classes.items ≤ length program.new.classes.items) }
{
    let Some(call) = call_of(alloc, chunk.bytes.as_slice(), tree)? else {
        return Ok(false);
    };
    if let Some(shape) = defined_by(chunk.bytes.as_slice(), &call) {
        define(alloc, program, source, chunk, &call, shape)?;
        return Ok(true);
    }
    if names_fields(chunk.bytes.as_slice(), &call) {
        add_class_fields(alloc, program, source, chunk, &call)?;
        return Ok(true);
    }
    Ok(false)
}

/// Takes statements to begin with.
fn take_start(program: &mut Program, source: usize, chunk: Chunk) -> Result<(), Stop>
    ensures keeps { (texts : ℕ) → IsProgram texts program.old → source < texts → OnOk result (IsProgram texts program.new) }
    ensures longer { OnOk result (length program.old.classes.items ≤ length program.new.classes.items) }
{
    if program.start.is_some() {
        return Err(wrong(source, first_place(&chunk), What::StartTwice));
    }
    program.start = Some(Written {
        class: 0,
        is_meta: false,
        source,
        chunk,
    });
    Ok(())
}

/// A chunk that is no method and no header. Where nothing is in it but blanks and comments, a header comes next.
fn take_other(
    alloc: Global,
    program: &mut Program,
    source: usize,
    chunk: Chunk,
) -> Result<Next, Stop>
    ensures keeps { (texts : ℕ) → IsProgram texts program.old → source < texts → OnOk result (IsProgram texts program.new) }
    ensures longer { OnOk result (length program.old.classes.items ≤ length program.new.classes.items) }
    ensures next { IfOk result (IsNext (length program.new.classes.items)) }
{
    let tree = statements_of(alloc, source, &chunk)?;
    if is_empty(&tree) {
        return Ok(Next::Header);
    }
    if !take_call(alloc, program, source, &chunk, &tree)? {
        take_start(program, source, chunk)?;
    }
    Ok(Next::Any)
}

/// One chunk. What the next one is.
fn take(
    alloc: Global,
    program: &mut Program,
    source: usize,
    chunk: Chunk,
    next: Next,
) -> Result<Next, Stop>
    requires { IsNext (length program.old.classes.items) next }
    ensures keeps { (texts : ℕ) → IsProgram texts program.old → source < texts → OnOk result (IsProgram texts program.new) }
    ensures next { IfOk result (IsNext (length program.new.classes.items)) }
{
    match next {
        Next::Any => take_other(alloc, program, source, chunk),
        Next::Header => header_of(alloc, program, source, &chunk),
        Next::Method(_, _) if is_blank(chunk.bytes.as_slice()) => Ok(Next::Any),
        Next::Method(class, is_meta) => {
            let written = Written {
                class,
                is_meta,
                source,
                chunk,
            };
            program.add_method(written)?;
            Ok(next)
        }
    }
}

/// The chunks of one text.
fn take_all(alloc: Global, program: &mut Program, source: usize, text: &[u8]) -> Result<(), Stop>
    ensures keeps { (texts : ℕ) → IsProgram texts program.old → source < texts → OnOk result (IsProgram texts program.new) }
{
    let mut at = 0;
    let mut next = Next::Any;
    'each: for _ in 0..=text.len() {
        match chunk_at(alloc, text, at)? {
            Some(chunk) => {
                at = chunk.end;
                next = take(alloc, program, source, chunk, next)?;
            }
            None => break,
        }
    }
    match text.get(at..) {
        Some(rest) if !is_blank(rest) => Err(wrong(source, at, What::Unended)),
        _ => Ok(()),
    }
}

fn take_texts(alloc: Global, texts: &[&[u8]]) -> Result<Program, Stop>
    ensures { IfOk result (IsProgram (length texts.now)) }
{
    let mut program = Program {
        classes: Vec::new(alloc),
        methods: Vec::new(alloc),
        start: None,
    };
    'each: for source in 0..texts.len() {
        take_all(alloc, &mut program, source, texts[source])?;
    }
    Ok(program)
}

/// The program of some texts, or what is wrong first.
pub fn program_of(alloc: Global, texts: &[&[u8]]) -> Result<Reading, AllocError>
    ensures { IfOk result (IsRead (length texts.now)) }
{
    match take_texts(alloc, texts) {
        Ok(program) => Ok(Reading::Program(program)),
        Err(Stop::Wrong(problem)) => Ok(Reading::Wrong(problem)),
        Err(Stop::Memory(error)) => Err(error),
    }
}
