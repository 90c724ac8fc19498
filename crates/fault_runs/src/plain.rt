// The case of a message that nobody understands, by a builder and a memory of one map.
ghost use Rattle.std.specs.Prelude.{◌≡◌, All, None};
ghost use Rattle.long_names.specs.Objects.{IsRecord};
ghost use Rattle.object_memory.specs.Plain.{plain_told};
ghost use Rattle.object_memory.specs.Told.{IsReady};

use crate::growing::End;
use anyhow::Result;
use case_runs::Case;
use contexts::Stop;
use event_file::EventList;
use image_format::{Opening, STATE_VERSION, encode_rec};
use long_names::{Name, Octets, RecList, Value};
use loom_run::{Finished, Halted, Reason, State, whole_run};
use object_memory::{MemFault, PlainMemory};
use sample_images::{
    Builder, CONTEXT, Header, METHOD, NIL, add_bytes, add_method, add_pointers, base, memory, name,
    object,
};
use std::alloc::{AllocError, Global};

/// The dictionary of Array, its methods, the selector that is sent, and the method of doesNotUnderstand:.
const DICTIONARY: u32 = 68;

const METHODS: u32 = 70;

const SELECTOR: u32 = 72;

const ANSWER: u32 = 74;

/// The next name.
const NEXT: u32 = 76;

/// How many bytecodes are run.
const STEPS: u32 = 6;

/// Of one argument and no other temporary.
const ONE_ARGUMENT: Header = Header {
    flag: 1,
    temporaries: 1,
    is_large: false,
};

// The class Array, and its dictionary of one method.
fn add_class(alloc: Global, builder: &mut Builder) -> Result<(), AllocError> {
    let class = [NIL, object(DICTIONARY), Value::Int(0)];
    add_pointers(alloc, builder, Name::ARRAY, Name::ARRAY, &class)?;
    let dictionary = [
        Value::Int(1),
        object(METHODS),
        Value::Ref(Name::DOES_NOT_UNDERSTAND),
    ];
    add_pointers(alloc, builder, name(DICTIONARY), Name::ARRAY, &dictionary)?;
    add_pointers(
        alloc,
        builder,
        name(METHODS),
        Name::ARRAY,
        &[object(ANSWER)],
    )
}

// The objects of the case.
fn objects(alloc: Global) -> Result<Builder, AllocError> {
    let mut builder = base(alloc)?;
    add_class(alloc, &mut builder)?;
    add_bytes(alloc, &mut builder, name(SELECTOR), Name::STRING, b"a:b:")?;
    add_method(
        alloc,
        &mut builder,
        name(ANSWER),
        ONE_ARGUMENT,
        &[],
        &[16, 124],
    )?;
    add_sender(alloc, &mut builder)?;
    Ok(builder)
}

// The method that sends, and the context at its first byte.
fn add_sender(alloc: Global, builder: &mut Builder) -> Result<(), AllocError> {
    let sends = [112, 118, 119, 240];
    add_method(
        alloc,
        builder,
        name(METHOD),
        Header::PLAIN,
        &[object(SELECTOR)],
        &sends,
    )?;
    let mut fields = [NIL; 18];
    fields[1] = Value::Int(5);
    fields[2] = Value::Int(0);
    fields[3] = object(METHOD);
    add_pointers(alloc, builder, name(CONTEXT), Name::METHOD_CONTEXT, &fields)
}

// A run of the case.
fn run(alloc: Global, m: &mut PlainMemory) -> Result<Finished, Halted>
    requires slots { (plain_told m.old).slots ≡ (λ i. None) }
    requires ready { IsReady (plain_told m.old) }
{
    whole_run(alloc, m, &EventList::new(alloc), STEPS, &State::NONE)
}

// The image of what one map keeps.
fn image_of(alloc: Global, recs: &RecList, next: u32, state: &State) -> Result<Octets, AllocError>
    requires { All IsRecord recs.now }
{
    let Ok(objects) = u32::try_from(recs.len()) else {
        return Err(AllocError);
    };
    let opening = Opening {
        version: STATE_VERSION,
        objects,
        next,
    };
    let mut image = Octets::new(alloc);
    image.extend(&opening.bytes())?;
    image.extend(&state.bytes())?;
    for i in 0..recs.len() {
        encode_rec(recs.item(i), &mut image)?;
    }
    Ok(image)
}

// How the case ends where a run of it does before its end.
fn end_of(why: Reason) -> End {
    match why {
        Reason::NoMemory | Reason::ByStop(Stop::Mem(MemFault::Memory)) => End::NoMemory,
        Reason::ByStop(_) => End::Wrong,
    }
}

// Whether these objects are those of the case's image.
fn is_image(alloc: Global, case: &Case<'_>, builder: &Builder) -> Result<bool> {
    let image = builder.finish(alloc, NEXT)?;
    Ok(image.bytes() == case.image.as_slice())
}

// Whether what one map keeps is the case's saved image, and nothing was said.
fn is_saved(alloc: Global, case: &Case<'_>, m: &PlainMemory, state: &State) -> Result<bool> {
    let recs = m.kept_recs(alloc)?;
    let saved = image_of(alloc, &recs, m.next(), state)?;
    Ok(m.transcript().is_empty() && case.want.saved.as_deref() == Some(saved.bytes()))
}

/// How the case ends. It is refused where memory is in building its image or in writing what was kept.
pub fn run_plain(alloc: Global, case: &Case<'_>) -> Result<End> {
    let builder = objects(alloc)?;
    if !is_image(alloc, case, &builder)? {
        return Ok(End::Wrong);
    }
    let mut m = memory(alloc, &builder, NEXT)?;
    let finished = match run(alloc, &mut m) {
        Ok(finished) => finished,
        Err(halted) => return Ok(end_of(halted.why)),
    };
    if is_saved(alloc, case, &m, &finished.state)? {
        Ok(End::Whole)
    } else {
        Ok(End::Wrong)
    }
}
