// Kept objects: what reference counting leaves in the end (chapter 30 of the Blue Book).
ghost use Rattle.std.specs.Prelude.{◌≡◌, ◌+◌, ◌<◌, ◌≤◌, ◌^◌, ◌==◌, if◌then◌else◌, ℕ, [], ◌∷◌, ◌++◌, nat_lt, All, OnOk, IfOk, is_some, count_by, length};
ghost use Rattle.long_names.specs.declared.limits.TheConstants.{MOST_FIELDS};
ghost use Rattle.long_names.specs.Objects.{is_ref, holdings, IsObject, IsRecord};
ghost use Rattle.long_names.specs.Heap.{count_of, without};
ghost use Rattle.long_names.specs.Kept.{kept};
ghost use Rattle.object_memory.specs.Counts.{count_in};
ghost use Rattle.object_memory.specs.Plain.{heap_of};
ghost use Rattle.object_memory.specs.Records.{recs_of};
ghost use Rattle.object_memory.specs.Worklist.{IsFreeing, CountsDown};

use crate::plain::counts::Counts;
use crate::plain::objects::Objects;
use long_names::{Body, Name, Object, Rec, RecList, Value, Values};
use std::alloc::{AllocError, Global};

/// Counts the names among values.
fn count_values(counts: &mut Counts, values: &Values) -> Result<(), AllocError>
    requires { (q : ℕ) → count_in counts.old q + length values.now < 2 ^ 64 }
    ensures { OnOk result ((q : ℕ) → count_in counts.new q ≡ count_in counts.old q + count_by (is_ref q) values.now) }
{
    for i in 0..values.len() {
        if let Value::Ref(name) = *values.item(i) {
            counts.add(name)?;
        }
    }
    Ok(())
}

/// Counts the words of an object: its class word, and its fields.
fn count_object(counts: &mut Counts, object: &Object) -> Result<(), AllocError>
    requires room { (q : ℕ) → count_in counts.old q + (MOST_FIELDS + 1) < 2 ^ 64 }
    requires object { IsObject object.now }
    ensures { OnOk result ((q : ℕ) → count_in counts.new q ≡ count_in counts.old q + holdings object.now q) }
{
    counts.add(object.class)?;
    match &object.body {
        Body::Pointers(values) => count_values(counts, values),
        Body::Method { literals, .. } => count_values(counts, literals),
        Body::Words(_) | Body::Bytes(_) => Ok(()),
    }
}

/// Counts the words of all objects.
fn count_words(counts: &mut Counts, heap: &Objects) -> Result<(), AllocError>
    requires { (q : ℕ) → count_in counts.old q < 2 ^ 16 }
    ensures { OnOk result ((q : ℕ) → count_in counts.new q ≡ count_in counts.old q + count_of (heap_of heap.now) q) }
{
    for (_, object) in &heap.objects {
        count_object(counts, object)?;
    }
    Ok(())
}

/// The names of the objects that aren't known and that no word holds.
fn dead_names(alloc: Global, heap: &Objects, counts: &Counts) -> Result<Vec<Name>, AllocError>
    ensures { IfOk result (λ dead. (outside : ℕ → ℕ) → ((q : ℕ) → count_in counts.now q ≡ outside q + count_of (heap_of heap.now) q) → IsFreeing outside (heap_of heap.now) counts.now dead.items) }
{
    heap.objects
        .keys()
        .copied()
        .filter(|name| !name.is_known() && counts.of(*name) == 0)
        .collect(alloc)
}

/// Counts a name down, since one word less holds it (`countDown:`). Where none is left, and the name isn't known, it goes on the list.
fn count_down(counts: &mut Counts, dead: &mut Vec<Name>, name: Name) -> Result<(), AllocError>
    requires { 0 < count_in counts.old name }
    ensures { OnOk result
        (CountsDown (λ q. if name == q then 1 else 0) 1 counts.old dead.old.items counts.new dead.new.items) }
{
    if counts.lower(name) == 0 && !name.is_known() {
        dead.push(name)?;
    }
    Ok(())
}

/// Counts the names among values down.
fn count_down_values(
    counts: &mut Counts,
    dead: &mut Vec<Name>,
    values: &Values,
) -> Result<(), AllocError>
    requires { (q : ℕ) → count_by (is_ref q) values.now ≤ count_in counts.old q }
    ensures { OnOk result
        (CountsDown (λ q. count_by (is_ref q) values.now) (length values.now) counts.old dead.old.items counts.new dead.new.items) }
{
    for i in 0..values.len() {
        if let Value::Ref(name) = *values.item(i) {
            count_down(counts, dead, name)?;
        }
    }
    Ok(())
}

/// Counts the words of an object down: its class word, and its fields.
fn count_down_object(
    counts: &mut Counts,
    dead: &mut Vec<Name>,
    object: &Object,
) -> Result<(), AllocError>
    requires counted { (q : ℕ) → holdings object.now q ≤ count_in counts.old q }
    requires object { IsObject object.now }
    ensures { OnOk result
        (CountsDown (holdings object.now) (MOST_FIELDS + 1) counts.old dead.old.items counts.new dead.new.items) }
{
    count_down(counts, dead, object.class)?;
    match &object.body {
        Body::Pointers(values) => count_down_values(counts, dead, values),
        Body::Method { literals, .. } => count_down_values(counts, dead, literals),
        Body::Words(_) | Body::Bytes(_) => Ok(()),
    }
}

/// Takes the object of a name that was on the list away, if there is one, and counts its words down.
fn free(
    heap: &mut Objects,
    counts: &mut Counts,
    dead: &mut Vec<Name>,
    name: Name,
) -> Result<(), AllocError>
    requires freeing { (outside : ℕ → ℕ) × IsFreeing outside (heap_of heap.old) counts.old (dead.old.items ++ name ∷ []) }
    ensures freeing { OnOk result
        ((outside : ℕ → ℕ) → IsFreeing outside (heap_of heap.old) counts.old (dead.old.items ++ name ∷ []) → IsFreeing outside (heap_of heap.new) counts.new dead.new.items) }
    ensures heap { OnOk result (heap_of heap.new ≡ without (heap_of heap.old) name) }
    ensures short { OnOk result
        (length dead.new.items ≤ length dead.old.items + (if is_some ((heap_of heap.old).at name) then MOST_FIELDS + 1 else 0)) }
{
    let Some(object) = heap.remove(name) else {
        return Ok(());
    };
    count_down_object(counts, dead, &object)
}

/// Takes away each object that isn't known and that no word holds, until only kept ones are left, and gives their counts. The counts
/// that it is given are of words outside the heap: the names that they hold are roots. Each word is counted once, and counted down at
/// most once. A cycle that nothing else holds is kept.
pub(crate) fn keep(
    alloc: Global,
    heap: &mut Objects,
    mut counts: Counts,
) -> Result<Counts, AllocError>
    requires { (q : ℕ) → count_in counts q < 2 ^ 16 }
    ensures kept { OnOk result (heap_of heap.new ≡ kept (heap_of heap.old) (λ q. nat_lt 0 (count_in counts q))) }
    ensures counts { IfOk result (λ now. (q : ℕ) → count_in now q ≡ count_in counts q + count_of (heap_of heap.new) q) }
{
    count_words(&mut counts, heap)?;
    let mut dead = dead_names(alloc, heap, &counts)?;
    while let Some(name) = dead.pop() {
        free(heap, &mut counts, &mut dead, name)?;
    }
    Ok(counts)
}

/// The records of a heap, by rising name.
pub(crate) fn into_recs(
    alloc: Global,
    heap: Objects,
    counts: &Counts,
) -> Result<RecList, AllocError>
    requires { (q : ℕ) → count_in counts.now q ≡ count_of (heap_of heap) q }
    ensures recs { IfOk result (λ recs. recs ≡ recs_of (heap_of heap)) }
    ensures records { IfOk result (All IsRecord) }
{
    let mut recs = RecList::new(alloc);
    for (name, object) in heap.objects {
        recs.push(Rec {
            name,
            class: object.class,
            count: counts.of(name),
            body: object.body,
        })?;
    }
    Ok(recs)
}
