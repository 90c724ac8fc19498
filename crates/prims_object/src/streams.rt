// The stream primitives 65 to 67 (chapter 29). The stream is in R10, the value in R12, the stream's array in R13.
ghost use Rattle.std.specs.Prelude.{◌≡◌, ◌<◌, ◌≤◌, ◌+◌, ℕ, ℤ, pos, nat_lt, [], ◌∷◌, OnOk, IfOk, IfSome, Bool};
ghost use Rattle.std.specs.Int.Signed.{lt_z};
ghost use Rattle.long_names.specs.declared.limits.TheConstants.{SMALL_INTEGERS};
ghost use Rattle.long_names.specs.declared.value.Value.{Value};
ghost use Rattle.long_names.specs.Words.{IsSmallInteger};
ghost use Rattle.object_memory.specs.Told.{IsReady};
ghost use Rattle.object_memory.specs.Shape.{Looks};
ghost use Rattle.blue_model.specs.declared.answer.Answer.{Answer as Answers};
ghost use Rattle.blue_model.specs.declared.cpu.Cpu.{Cpu as Numbers};
ghost use Rattle.blue_model.specs.declared.limits.TheConstants.{MOST_ARGUMENTS};
ghost use Rattle.blue_model.specs.Machine.{Rule};
ghost use Rattle.blue_model.specs.Storage as model;
ghost use Rattle.contexts.specs.Serves.{Serves, StaysSound, with_found};
ghost use Rattle.prims_object.specs.Leads.{Leads};
ghost use Rattle.prims_object.specs.Operands as rules;
ghost use Rattle.prims_object.specs.Numbers as numbers;
ghost use Rattle.prims_object.specs.Numbers.{IsIndex};
ghost use Rattle.object_memory.specs.Calls.{IsFit};
ghost use Rattle.contexts.specs.Calls.{StaysFit};
ghost use Rattle.contexts.specs.Keeping.{NeverKeeps};

use crate::characters::{character_of, store_character, text_at};
use crate::elements::{element_at, element_of, store_element};
use crate::extents::{length, peek_array, peek_text};
use crate::indexes::natural;
use blue_model::Spot;
use blue_model::indexes::{
    STREAM_ARRAY_INDEX, STREAM_INDEX_INDEX, STREAM_READ_LIMIT_INDEX, STREAM_SIZE,
    STREAM_WRITE_LIMIT_INDEX,
};
use contexts::parts::{class_of, store_field};
use contexts::peeks::{peek_field, peek_number};
use contexts::{Answer, Cpu, Stop, answer, boolean, stack};
use long_names::{Name, SMALL_INTEGERS};
use object_memory::{ObjectMemory, Reg};

/// What a stream has beside its array.
#[derive(Clone, Copy)]
struct Stream {
    /// Whether the array is text.
    text: bool,
    /// How many elements were read or written.
    index: u32,
    /// The limit of the index.
    limit: i16,
}

impl Stream {
    /// Whether the index is below the limit.
    fn is_open(&self) -> bool
        requires index { self.now.index < SMALL_INTEGERS }
        requires limit { IsSmallInteger self.now.limit }
        ensures { result ≡ lt_z (pos self.now.index) self.now.limit }
    {
        (self.index as i32) < i32::from(self.limit)
    }

    /// Whether the index is at the limit, or at the end of an array of so many elements.
    fn has_ended(&self, len: u32) -> bool
        requires index { self.now.index < SMALL_INTEGERS }
        requires limit { IsSmallInteger self.now.limit }
        ensures { result ≡ numbers.has_ended self.now.index self.now.limit len }
    {
        !self.is_open() || len <= self.index
    }

    /// The number of the next element.
    fn next(&self) -> i32
        requires { self.now.index < SMALL_INTEGERS }
        ensures next { result ≡ pos (self.now.index + 1) }
        ensures range { IsIndex result }
    {
        self.index as i32 + 1
    }

    /// Whether the index can grow.
    fn can_grow(&self) -> bool
        requires { self.now.index < SMALL_INTEGERS }
        ensures { result ≡ nat_lt (self.now.index + 1) SMALL_INTEGERS }
    {
        self.index + 1 < SMALL_INTEGERS
    }
}

/// Whether the array in R13 is text: a String of bytes is, an Array of values isn't. None of anything else. R19 is used.
fn streamed<M: ObjectMemory>(m: &mut M) -> Result<Option<bool>, Stop>
    requires fit { IsFit M.ObjectMemory m.old }
    ensures serves { (cpu : Numbers) → Serves (M.told m.old) cpu (M.told m.new) cpu (model.streamed ((M.told m.old).regs 13)) result }
    ensures looks { OnOk result (Looks (19 ∷ []) (M.told m.old) (M.told m.new)) }
    ensures fit { StaysFit M.ObjectMemory m.old m.new result }
{
    class_of(m, Reg::R19, Reg::R13)?;
    if m.is(Reg::R19, Name::ARRAY) {
        return peek_array(m, Reg::R13);
    }
    if m.is(Reg::R19, Name::STRING) {
        return peek_text(m, Reg::R13);
    }
    Ok(None)
}

/// Loads the array of the stream in R10 into R13, and answers whether it is text. None where there is no such array. R19 is used.
fn array_of<M: ObjectMemory>(m: &mut M) -> Result<Option<bool>, Stop>
    requires fit { IsFit M.ObjectMemory m.old }
    ensures leads { (cpu : Numbers) → Leads (M.told m.old) cpu (M.told m.new) (rules.of_array ((M.told m.old).regs 10)) (λ text (rest : Value → Bool → Rule Answers). rest ((M.told m.new).regs 13) text) result }
    ensures looks { OnOk result (Looks (13 ∷ 19 ∷ []) (M.told m.old) (M.told m.new)) }
    ensures fit { StaysFit M.ObjectMemory m.old m.new result }
{
    if !peek_field(m, Reg::R13, Reg::R10, STREAM_SIZE, STREAM_ARRAY_INDEX)? {
        return Ok(None);
    }
    let Some(text) = streamed(m)? else {
        return Ok(None);
    };
    Ok(Some(text))
}

/// The numbers of the stream in R10, with the limit that stands in a field. Whether its array is text is given. None where it has no
/// such numbers. R19 is used.
fn numbers_of<M: ObjectMemory>(m: &mut M, text: bool, limit: u32) -> Result<Option<Stream>, Stop>
    requires fit { IsFit M.ObjectMemory m.old }
    ensures leads { (cpu : Numbers) → Leads (M.told m.old) cpu (M.told m.new) (rules.of_numbers limit ((M.told m.old).regs 10)) (λ stream (rest : ℕ → ℤ → Rule Answers). rest stream.index stream.limit) result }
    ensures text { IfOk result (λ found. IfSome found (λ stream. stream.text ≡ text)) }
    ensures looks { OnOk result (Looks (19 ∷ []) (M.told m.old) (M.told m.new)) }
    ensures index { IfOk result (λ found. IfSome found (λ stream. stream.index < SMALL_INTEGERS)) }
    ensures limit { IfOk result (λ found. IfSome found (λ stream. IsSmallInteger stream.limit)) }
    ensures fit { StaysFit M.ObjectMemory m.old m.new result }
{
    let Some(number) = peek_number(m, Reg::R19, Reg::R10, STREAM_SIZE, STREAM_INDEX_INDEX)? else {
        return Ok(None);
    };
    let Some(limit) = peek_number(m, Reg::R19, Reg::R10, STREAM_SIZE, limit)? else {
        return Ok(None);
    };
    let Some(index) = natural(i32::from(number)) else {
        return Ok(None);
    };
    Ok(Some(Stream { text, index, limit }))
}

/// Loads the array of the stream in R10 into R13, and answers its numbers, with the limit that stands in a field. None where
/// it is no stream. R19 is used.
fn open<M: ObjectMemory>(m: &mut M, limit: u32) -> Result<Option<Stream>, Stop>
    requires fit { IsFit M.ObjectMemory m.old }
    ensures leads { (cpu : Numbers) → Leads (M.told m.old) cpu (M.told m.new) (model.of_stream limit ((M.told m.old).regs 10)) (λ stream (rest : Value → Bool → ℕ → ℤ → Rule Answers). rest ((M.told m.new).regs 13) stream.text stream.index stream.limit) result }
    ensures looks { OnOk result (Looks (13 ∷ 19 ∷ []) (M.told m.old) (M.told m.new)) }
    ensures index { IfOk result (λ found. IfSome found (λ stream. stream.index < SMALL_INTEGERS)) }
    ensures limit { IfOk result (λ found. IfSome found (λ stream. IsSmallInteger stream.limit)) }
    ensures fit { StaysFit M.ObjectMemory m.old m.new result }
{
    let Some(text) = array_of(m)? else {
        return Ok(None);
    };
    let Some(stream) = numbers_of(m, text, limit)? else {
        return Ok(None);
    };
    Ok(Some(stream))
}

/// Where the next element of the array in R13 stands. None where the limit is reached, where the array ends, or where the index
/// can't grow. R19 is used.
fn next_spot<M: ObjectMemory>(m: &mut M, stream: &Stream) -> Result<Option<Spot>, Stop>
    requires fit { IsFit M.ObjectMemory m.old }
    requires index { stream.now.index < SMALL_INTEGERS }
    requires limit { IsSmallInteger stream.now.limit }
    ensures leads { (cpu : Numbers) → Leads (M.told m.old) cpu (M.told m.new) (model.next_spot ((M.told m.old).regs 13) stream.now.index stream.now.limit) (λ spot rest. rest spot) result }
    ensures looks { OnOk result (Looks (19 ∷ []) (M.told m.old) (M.told m.new)) }
    ensures grows { IfOk result (λ found. IfSome found (λ spot. stream.now.index + 1 < SMALL_INTEGERS)) }
    ensures fit { StaysFit M.ObjectMemory m.old m.new result }
{
    if !stream.is_open() {
        return Ok(None);
    }
    let Some(spot) = element_of(m, Reg::R13, stream.next())? else {
        return Ok(None);
    };
    if !stream.can_grow() {
        return Ok(None);
    }
    Ok(Some(spot))
}

/// The index of the stream in R10 grows by 1. R19 is used.
fn advance<M: ObjectMemory>(m: &mut M, index: u32) -> Result<(), Stop>
    requires fit { IsFit M.ObjectMemory m.old }
    requires few { index + 1 < SMALL_INTEGERS }
    ensures serves { (cpu : Numbers) → Serves (M.told m.old) cpu (M.told m.new) cpu (model.advance ((M.told m.old).regs 10) index) result }
    ensures regs { OnOk result ((r : ℕ) → (r ≡ 19 → ⊥) → (M.told m.new).regs r ≡ (M.told m.old).regs r) }
    ensures fit { StaysFit M.ObjectMemory m.old m.new result }
{
    m.int(Reg::R19, (index + 1) as i16);
    store_field(m, Reg::R10, STREAM_INDEX_INDEX, Reg::R19)
}

/// Loads what stands there in the array in R13 into R12: of text, the character of a byte. False where there is no such
/// character. R19 is used.
fn streamed_element<M: ObjectMemory>(m: &mut M, text: bool, spot: Spot) -> Result<bool, Stop>
    requires fit { IsFit M.ObjectMemory m.old }
    ensures leads { (cpu : Numbers) → Leads (M.told m.old) cpu (M.told m.new) (model.streamed_element ((M.told m.old).regs 13) text spot) (λ v rest. rest v) (with_found result ((M.told m.new).regs 12)) }
    ensures regs { OnOk result ((r : ℕ) → (r ≡ 12 → ⊥) → (r ≡ 19 → ⊥) → (M.told m.new).regs r ≡ (M.told m.old).regs r) }
    ensures fit { StaysFit M.ObjectMemory m.old m.new result }
{
    if text {
        let Some(byte) = text_at(m, Reg::R13, spot)? else {
            return Ok(false);
        };
        return character_of(m, byte);
    }
    element_at(m, Reg::R13, spot)?;
    Ok(true)
}

/// Stores the value in R12 there in the array in R13: into text, the byte of a character. False where it doesn't fit.
/// R18 and R19 are used.
fn put_streamed<M: ObjectMemory>(m: &mut M, text: bool, spot: Spot) -> Result<bool, Stop>
    requires fit { IsFit M.ObjectMemory m.old }
    ensures leads { (cpu : Numbers) → Leads (M.told m.old) cpu (M.told m.new) (model.put_streamed ((M.told m.old).regs 13) text spot ((M.told m.old).regs 12)) (λ (_ : Unit {0}) (rest : Rule Answers). rest) (with_found result tt) }
    ensures regs { OnOk result ((r : ℕ) → (r ≡ 18 → ⊥) → (r ≡ 19 → ⊥) → (M.told m.new).regs r ≡ (M.told m.old).regs r) }
    ensures fit { StaysFit M.ObjectMemory m.old m.new result }
{
    if text {
        return store_character(m, Reg::R13, spot);
    }
    store_element(m, Reg::R13, spot, Reg::R12)
}

/// One element more of the stream in R10 was read or written, and the value in R12 is answered to a message of n arguments.
fn advance_and_answer<M: ObjectMemory>(
    m: &mut M,
    cpu: &mut Cpu,
    index: u32,
    n: u32,
) -> Result<Answer, Stop>
    requires fit { IsFit M.ObjectMemory m.old }
    requires few { index + 1 < SMALL_INTEGERS }
    requires arguments { n ≤ MOST_ARGUMENTS }
    ensures serves { Serves (M.told m.old) cpu.old (M.told m.new) cpu.new (rules.advanced ((M.told m.old).regs 10) index n ((M.told m.old).regs 12)) result }
    ensures never_keeps { NeverKeeps result }
    ensures fit { StaysFit M.ObjectMemory m.old m.new result }
{
    advance(m, index)?;
    answer(m, cpu, n, Reg::R12)
}

/// Answers the next element of a stream (primitiveNext).
pub(crate) fn next<M: ObjectMemory>(m: &mut M, cpu: &mut Cpu) -> Result<Answer, Stop>
    requires fit { IsFit M.ObjectMemory m.old }
    ensures serves { Serves (M.told m.old) cpu.old (M.told m.new) cpu.new model.next result }
    ensures never_keeps { NeverKeeps result }
    ensures fit { StaysFit M.ObjectMemory m.old m.new result }
{
    stack(m, cpu, Reg::R10, 0)?;
    let Some(stream) = open(m, STREAM_READ_LIMIT_INDEX)? else {
        return Ok(Answer::Failed);
    };
    let Some(spot) = next_spot(m, &stream)? else {
        return Ok(Answer::Failed);
    };
    if !streamed_element(m, stream.text, spot)? {
        return Ok(Answer::Failed);
    }
    advance_and_answer(m, cpu, stream.index, 0)
}

/// Stores the next element of a stream, and answers it (primitiveNextPut).
pub(crate) fn next_put<M: ObjectMemory>(m: &mut M, cpu: &mut Cpu) -> Result<Answer, Stop>
    requires fit { IsFit M.ObjectMemory m.old }
    ensures serves { Serves (M.told m.old) cpu.old (M.told m.new) cpu.new model.next_put result }
    ensures never_keeps { NeverKeeps result }
    ensures fit { StaysFit M.ObjectMemory m.old m.new result }
{
    stack(m, cpu, Reg::R10, 1)?;
    stack(m, cpu, Reg::R12, 0)?;
    let Some(stream) = open(m, STREAM_WRITE_LIMIT_INDEX)? else {
        return Ok(Answer::Failed);
    };
    let Some(spot) = next_spot(m, &stream)? else {
        return Ok(Answer::Failed);
    };
    if !put_streamed(m, stream.text, spot)? {
        return Ok(Answer::Failed);
    }
    advance_and_answer(m, cpu, stream.index, 1)
}

/// Answers whether a stream is at its limit, or at the end of its array (primitiveAtEnd).
pub(crate) fn at_end<M: ObjectMemory>(m: &mut M, cpu: &mut Cpu) -> Result<Answer, Stop>
    requires fit { IsFit M.ObjectMemory m.old }
    ensures serves { Serves (M.told m.old) cpu.old (M.told m.new) cpu.new model.at_end result }
    ensures never_keeps { NeverKeeps result }
    ensures fit { StaysFit M.ObjectMemory m.old m.new result }
{
    stack(m, cpu, Reg::R10, 0)?;
    let Some(stream) = open(m, STREAM_READ_LIMIT_INDEX)? else {
        return Ok(Answer::Failed);
    };
    let Some(len) = length(m, Reg::R13)? else {
        return Ok(Answer::Failed);
    };
    boolean(m, Reg::R12, stream.has_ended(len))?;
    answer(m, cpu, 0, Reg::R12)
}
