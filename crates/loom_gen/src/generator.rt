// The image of a number: each name below the next has the object that the table or the rules of characters and nodes give it.
ghost use Rattle.std.specs.Prelude.{◌≡◌, ◌+◌, ◌*◌, ◌<◌, ◌≤◌, ◌^◌, ◌==◌, ℕ, IfOk, OnOk, Some, None, if◌then◌else◌};
ghost use Rattle.long_names.specs.Heap as heap;
ghost use Rattle.image_format.specs.Text.{image_text};
ghost use Rattle.image_format.specs.Valid.{IsImageHeap};
ghost use Rattle.image_builder.specs.Builder.{object_at};
ghost use Rattle.loom_gen.specs.Table.{table};
ghost use Rattle.loom_gen.specs.Generated.{object_named, generated};
ghost use Rattle.loom_gen.specs.Generated as model;
ghost use Rattle.std.specs.Map.{lookup};
ghost use Rattle.loom_gen.specs.declared.names.TheConstants.{CHARACTERS};

use crate::names::{FIRST_CHARACTER, FIRST_NODE};
use crate::nodes::{STRIDE, name, node_count, node_name};
use crate::table::row;
use image_builder::{BuildFault, Builder};
use long_names::{Body, Name, Object, Octets, Value, Values};
use std::alloc::{AllocError, Global};

/// The greatest number that an image is made from.
pub const LAST_NUMBER: u8 = 19;

/// How many objects the image of a number has beside its nodes.
const OBJECTS_BESIDE_NODES: u32 = 327;

/// The next name of the image of this number.
pub fn next_name(number: u8) -> u32
    ensures next { result ≡ (generated number).next }
    ensures value { result ≡ 670 + 2 * (1000 * (number + 1)) }
{
    FIRST_NODE + 2 * node_count(number)
}

/// How many objects the image of this number has.
pub fn object_count(number: u8) -> u32
    ensures objects { result ≡ heap.object_count (generated number) }
    ensures value { result ≡ 327 + 1000 * (number + 1) }
{
    OBJECTS_BESIDE_NODES + node_count(number)
}

// A character holds its number.
fn character(alloc: Global, k: u32) -> Result<Object, AllocError>
    requires { k < CHARACTERS }
    ensures { IfOk result (λ object. object ≡ model.character k) }
{
    let number = Value::Int(k as i16);
    Ok(Object {
        class: Name::CHARACTER,
        body: Body::Pointers(Values::from_slice(alloc, &[number])?),
    })
}

// A node holds the one that is a stride on, round past the last.
fn node(alloc: Global, number: u8, j: u32) -> Result<Object, AllocError>
    requires { j < model.node_count number }
    ensures { IfOk result (λ object. object ≡ model.node number j) }
{
    let next = node_name((j + STRIDE) % node_count(number));
    let fields = [Value::Ref(next), Value::Ref(Name::NIL)];
    Ok(Object {
        class: Name::ARRAY,
        body: Body::Pointers(Values::from_slice(alloc, &fields)?),
    })
}

// The object that the table has under a name.
fn tabled(alloc: Global, number: u8, word: u32) -> Result<Option<Object>, AllocError>
    ensures { IfOk result (λ found. found ≡ lookup (λ name. name == word) (table number)) }
{
    match row(word) {
        Some(row) => Ok(Some(row.object(alloc, number)?)),
        None => Ok(None),
    }
}

/// The object of this name, where the image of this number has one.
fn object_of(alloc: Global, number: u8, name: Name) -> Result<Option<Object>, AllocError>
    requires { name < model.next_name number }
    ensures { IfOk result (λ found. found ≡ object_named number name) }
{
    let word = name.get();
    if word < FIRST_CHARACTER {
        tabled(alloc, number, word)
    } else if word < FIRST_NODE {
        let character = character(alloc, (word - FIRST_CHARACTER) / 2)?;
        Ok(Some(character))
    } else {
        let node = node(alloc, number, (word - FIRST_NODE) / 2)?;
        Ok(Some(node))
    }
}

/// Adds the object of this name, where the image of this number has one.
fn add_object(
    alloc: Global,
    builder: &mut Builder,
    number: u8,
    name: Name,
) -> Result<(), AllocError>
    requires number { number ≤ LAST_NUMBER }
    requires name { name < model.next_name number }
    requires absent { object_at builder.old name ≡ None }
    ensures { OnOk result ((n : ℕ) → object_at builder.new n ≡ (if n == name then object_named number n else object_at builder.old n)) }
{
    match object_of(alloc, number, name)? {
        Some(object) => builder.add(name, object.class, object.body),
        None => Ok(()),
    }
}

/// A builder that has the objects of the image of this number.
fn objects(alloc: Global, number: u8) -> Result<Builder, AllocError>
    requires { number ≤ LAST_NUMBER }
    ensures { IfOk result (λ builder. (n : ℕ) → object_at builder n ≡ object_named number n) }
{
    let mut builder = Builder::new(alloc)?;
    for index in 1..next_name(number) / 2 {
        add_object(alloc, &mut builder, number, name(2 * index))?;
    }
    Ok(builder)
}

/// The image of this number, of version 1.
pub fn make(alloc: Global, number: u8) -> Result<Octets, AllocError>
    requires { number ≤ LAST_NUMBER }
    ensures text { IfOk result (λ image. image ≡ image_text (generated number)) }
    // It is the image of a heap that an image may have.
    ensures image { IsImageHeap (generated number) }
{
    let builder = objects(alloc, number)?;
    match builder.finish(alloc, next_name(number)) {
        Ok(image) => Ok(image),
        Err(BuildFault::Memory) => Err(AllocError),
        Err(BuildFault::Rule { .. }) => unreachable!(),
    }
}
