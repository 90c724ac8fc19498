// The base image by a builder, and what makes its objects no image.
use crate::growing::End;
use anyhow::Result;
use long_names::Name;
use sample_images::{BuildFault, Builder, NEXT, NIL, add_pointers, base, name, object};
use std::alloc::{AllocError, Global};

/// A known object.
const MISSING: u32 = 58;

/// The name of an object of the base image, which a next name has to be above.
const HIGHEST: u32 = 66;

// All known objects but one, and a chain of arrays from one of them.
fn without_one(alloc: Global) -> Result<Builder, AllocError> {
    let mut builder = Builder::new(alloc)?;
    for known in Name::known() {
        if known.get() != MISSING {
            add_pointers(alloc, &mut builder, known, Name::ARRAY, &[])?;
        }
    }
    add_pointers(
        alloc,
        &mut builder,
        Name::SCHEDULER_ASSOCIATION,
        Name::ARRAY,
        &[NIL, object(MISSING + 2)],
    )?;
    for number in [MISSING + 2, MISSING + 4, MISSING + 6] {
        let next = [object(number + 2)];
        add_pointers(alloc, &mut builder, name(number), Name::ARRAY, &next)?;
    }
    add_pointers(alloc, &mut builder, name(HIGHEST), Name::ARRAY, &[])?;
    Ok(builder)
}

// How a building ends that breaks a rule at a name.
fn end_at(alloc: Global, builder: &Builder, next: u32, rule: u8, name: u32) -> End {
    match builder.finish(alloc, next) {
        Err(BuildFault::Rule { rule: r, name: n }) if r == rule && n == name => End::Whole,
        Err(BuildFault::Memory) => End::NoMemory,
        _ => End::Wrong,
    }
}

// How the building of an image ends.
fn end_with(alloc: Global, builder: &Builder, image: &[u8]) -> End {
    match builder.finish(alloc, NEXT) {
        Ok(bytes) if bytes.bytes() == image => End::Whole,
        Err(BuildFault::Memory) => End::NoMemory,
        _ => End::Wrong,
    }
}

// The first of these that isn't whole.
fn first_of(ends: [End; 3]) -> End {
    for end in ends {
        if end != End::Whole {
            return end;
        }
    }
    End::Whole
}

/// How it ends to build the base image, to build it with a next name that an object has, and to build an image that lacks a known object.
/// It is refused where memory is in making the builders.
pub fn build(alloc: Global, image: &[u8]) -> Result<End> {
    let builder = base(alloc)?;
    let lacking = without_one(alloc)?;
    Ok(first_of([
        end_with(alloc, &builder, image),
        end_at(alloc, &builder, HIGHEST, 4, HIGHEST),
        end_at(alloc, &lacking, NEXT, 12, MISSING),
    ]))
}
