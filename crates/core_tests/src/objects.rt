// An object of three fields is brought into a core of which two entries are free above the reserve: its class takes one of them and the
// first field the other, so that the others are lambdas. It is written back as it was, then with a number in the place of one lambda, and
// the other is resolved. Then one of 300 fields, with 200 entries free: 72 leaves are made and 228 lambdas stand.
ghost use Rattle.std.specs.Prelude.{◌≡◌, ◌+◌, ◌≤◌, ℕ, List, IfOk, IfSome, OnOk, Some, length, true};
ghost use Rattle.long_names.specs.Objects.{body_words};
ghost use Rattle.object_record.specs.Buffer.{HasRecord, raw_of};
ghost use Rattle.object_record.specs.Objects.{object_in};
ghost use Rattle.object_record.specs.Raw.{RawPointers};
ghost use Rattle.object_table.specs.Entries.{is_used, place_of};
ghost use Rattle.core_segment.specs.Segment.{largest_of};
ghost use Rattle.core_segment.specs.declared.segment.TheConstants.{HEADER};
ghost use Rattle.core_view.specs.Counts.{IsLight};
ghost use Rattle.core_view.specs.Steps.{IsAt};
ghost use Rattle.leaf_lambda.specs.Parts.{core_of, IsParts};

use core_segment::Addr;
use leaf_lambda::fields::put_field;
use leaf_lambda::leaving::field_total;
use leaf_lambda::parts::{is_copy, is_leaf};
use leaf_lambda::steps::{field_word, find_or_leaf, place_of_body};
use leaf_lambda::{Parts, RESERVE, merge_out, resolve, translate_in};
use long_names::{Kind, Name};
use object_record::RecordBuf;
use object_table::Short;
use std::alloc::Global;
use std::test::Fail;

/// The number 3 as a short word, and as a long one.
const THREE: u16 = 7;

/// The entry of a name, a leaf.
fn known(p: &mut Parts, name: Name) -> Result<Short, Fail>
    requires parts { IsParts p.old }
    requires light { IsLight (core_of p.old) }
    ensures parts { IfOk result (λ s. IsParts p.new) }
    ensures light { IfOk result (λ s. IsLight (core_of p.new)) }
    ensures used { IfOk result (λ s. is_used ((core_of p.new).entries s.0).state ≡ true) }
    ensures room { largest_of p.new.segment ≡ largest_of p.old.segment }
{
    Ok(find_or_leaf(p, name, RESERVE).ok_or("an entry is free")?)
}

/// Where the body of an object is, if it has a field `i`.
fn body_with(p: &Parts, s: Short, i: u32) -> Option<Addr>
    requires parts { IsParts p.now }
    requires body { (at : ℕ) × (place_of ((core_of p.now).entries s.0).state ≡ Some at) }
    ensures { IfSome result (λ at. (word : ℕ) × IsAt (core_of p.now) s.0 at.place i word) }
{
    let at = place_of_body(p, s);
    if i < field_total(p, s, at) {
        Some(at)
    } else {
        None
    }
}

/// The long word of field `i` where that is a lambda.
fn lambda(p: &mut Parts, s: Short, buf: &mut RecordBuf, i: u32) -> Option<u32>
    requires parts { IsParts p.old }
    requires light { IsLight (core_of p.old) }
    requires body { (at : ℕ) × (place_of ((core_of p.old).entries s.0).state ≡ Some at) }
    requires record { HasRecord buf.old }
{
    let at = body_with(p, s, i)?;
    if i >= buf.field_count() || field_word(p, s, at, i) != 0 {
        return None;
    }
    Some(resolve(p, s, buf, i))
}

/// Stores the number 3 into field `i`.
fn store(p: &mut Parts, s: Short, i: u32)
    requires parts { IsParts p.old }
    requires light { IsLight (core_of p.old) }
    requires body { (at : ℕ) × (place_of ((core_of p.old).entries s.0).state ≡ Some at) }
    ensures parts { IsParts p.new }
    ensures light { IsLight (core_of p.new) }
    ensures body { (at : ℕ) × (place_of ((core_of p.new).entries s.0).state ≡ Some at) }
{
    if let Some(at) = body_with(p, s, i) {
        put_field(p, s, at, i, THREE);
    }
}

/// Makes the record of an object from its old one. Whether the old one is like it.
fn merge(p: &mut Parts, s: Short, buf: &mut RecordBuf) -> bool
    requires parts { IsParts p.old }
    requires light { IsLight (core_of p.old) }
    requires body { (at : ℕ) × (place_of ((core_of p.old).entries s.0).state ≡ Some at) }
    requires record { HasRecord buf.old }
    ensures parts { IsParts p.new }
    ensures light { IsLight (core_of p.new) }
    ensures body { (at : ℕ) × (place_of ((core_of p.new).entries s.0).state ≡ Some at) }
    ensures record { HasRecord buf.new }
{
    let at = place_of_body(p, s);
    if !is_copy(p, s, at, buf) {
        return false;
    }
    merge_out(p, s, buf);
    true
}

/// Brings an object in under its leaf. How many entries are free before that, and then.
fn bring_in(p: &mut Parts, s: Short, buf: &mut RecordBuf) -> Result<(u16, u16), Fail>
    requires parts { IsParts p.old }
    requires light { IsLight (core_of p.old) }
    requires used { is_used ((core_of p.old).entries s.0).state ≡ true }
    requires record { HasRecord buf.old }
    requires room { body_words (object_in (raw_of buf.old)).body + HEADER ≤ largest_of p.old.segment }
    ensures parts { IsParts p.new }
    ensures light { IsLight (core_of p.new) }
    ensures body { OnOk result ((at : ℕ) × (place_of ((core_of p.new).entries s.0).state ≡ Some at)) }
    ensures same { buf.new ≡ buf.old }
{
    let free = p.names.table.free();
    if free == 0 || !is_leaf(p, s) {
        return Err("a leaf stands there, and an entry is free".into());
    }
    translate_in(p, s, buf);
    Ok((free, p.names.table.free()))
}

/// Whether the record that is made of an object has these bytes.
fn is_as_it_was(p: &mut Parts, s: Short, buf: &mut RecordBuf, record: &[u8]) -> bool
    requires parts { IsParts p.old }
    requires light { IsLight (core_of p.old) }
    requires body { (at : ℕ) × (place_of ((core_of p.old).entries s.0).state ≡ Some at) }
    requires record { HasRecord buf.old }
    ensures parts { IsParts p.new }
    ensures light { IsLight (core_of p.new) }
    ensures body { (at : ℕ) × (place_of ((core_of p.new).entries s.0).state ≡ Some at) }
    ensures record { HasRecord buf.new }
{
    merge(p, s, buf) && buf.bytes() == record
}

/// Whether two records differ in nothing but the long word of field `i`.
fn is_stored_over(new: &[u8], old: &[u8], i: u32) -> bool {
    let at = 20usize.saturating_add((i as usize).saturating_mul(4));
    if new.len() != old.len() || at.saturating_add(4) > old.len() {
        return false;
    }
    new[..at] == old[..at] && new[at + 4..] == old[at + 4..]
}

/// Stores the number 3 into field `i`, and makes the record, which differs from an older one in nothing else. How many fields it has, and
/// the long word of that one.
fn stored(p: &mut Parts, s: Short, buf: &mut RecordBuf, record: &[u8], i: u32) -> Option<(u32, u32)>
    requires parts { IsParts p.old }
    requires light { IsLight (core_of p.old) }
    requires body { (at : ℕ) × (place_of ((core_of p.old).entries s.0).state ≡ Some at) }
    requires record { HasRecord buf.old }
    ensures parts { IsParts p.new }
    ensures light { IsLight (core_of p.new) }
    ensures body { (at : ℕ) × (place_of ((core_of p.new).entries s.0).state ≡ Some at) }
    ensures record { HasRecord buf.new }
{
    store(p, s, i);
    if !merge(p, s, buf) || i >= buf.field_count() || !is_stored_over(buf.bytes(), record, i) {
        return None;
    }
    Some((buf.field_count(), buf.long_field(i)))
}

/// Writes an object back as it was, and then with the number 3 in its last field, as `stored` tells; and resolves the field before that.
fn go_out(
    p: &mut Parts,
    s: Short,
    buf: &mut RecordBuf,
    record: &[u8],
    last: u32,
) -> (bool, Option<(u32, u32)>, Option<u32>)
    requires parts { IsParts p.old }
    requires light { IsLight (core_of p.old) }
    requires body { (at : ℕ) × (place_of ((core_of p.old).entries s.0).state ≡ Some at) }
    requires record { HasRecord buf.old }
{
    let same = is_as_it_was(p, s, buf, record);
    let stored = stored(p, s, buf, record, last);
    let before = lambda(p, s, buf, last.saturating_sub(1));
    (same, stored, before)
}

/// What comes of an object that is brought in and goes out.
#[derive(Drop)]
struct Course {
    /// How many entries are free before it is brought in, and then.
    free: (u16, u16),
    /// How many of its fields are lambdas then.
    lambdas: u32,
    /// What `go_out` answers.
    out: (bool, Option<(u32, u32)>, Option<u32>),
}

/// Brings an object in, and lets it go out.
fn come_and_go(
    alloc: Global,
    p: &mut Parts,
    s: Short,
    buf: &mut RecordBuf,
    last: u32,
) -> Result<Course, Fail>
    requires parts { IsParts p.old }
    requires light { IsLight (core_of p.old) }
    requires used { is_used ((core_of p.old).entries s.0).state ≡ true }
    requires record { HasRecord buf.old }
    requires room { body_words (object_in (raw_of buf.old)).body + HEADER ≤ largest_of p.old.segment }
{
    let record = buf.bytes().to_vec(alloc)?;
    let free = bring_in(p, s, buf)?;
    let lambdas = lambdas(p, s);
    let out = go_out(p, s, buf, &record, last);
    Ok(Course { free, lambdas, out })
}

/// Three pointers, of which the last is 0.
fn name_three(buf: &mut RecordBuf)
    ensures record { HasRecord buf.new }
    ensures pointers { (longs : List ℕ) × ((raw_of buf.new).body ≡ RawPointers longs) × (length longs ≡ 3) }
{
    buf.blank(Name::TRUE, Name::ARRAY, Kind::Pointers, 3, 0);
    buf.set_long_field(0, 1_000);
    buf.set_long_field(1, 1_002);
}

#[test]
fn an_object_comes_and_goes(rt: HostRuntime) -> Result<(), Fail> {
    let mut p = Parts::new(rt.alloc(), 64, RESERVE + 3)?;
    let mut buf = RecordBuf::new(rt.alloc())?;
    name_three(&mut buf);
    let s = known(&mut p, Name::TRUE)?;
    let Course { free, out, .. } = come_and_go(rt.alloc(), &mut p, s, &mut buf, 2)?;
    let back = (true, Some((3, u32::from(THREE))), Some(1_002));
    assert_eq!(rt; (free, out), ((RESERVE + 2, RESERVE), back));
    Ok(())
}

/// 300 pointers, each of them a name of its own, from 10,000 on.
fn name_three_hundred(buf: &mut RecordBuf)
    ensures record { HasRecord buf.new }
    ensures pointers { (longs : List ℕ) × ((raw_of buf.new).body ≡ RawPointers longs) × (length longs ≡ 300) }
{
    buf.blank(Name::TRUE, Name::ARRAY, Kind::Pointers, 300, 0);
    for i in 0..300u32 {
        buf.set_long_field(i, 10_000 + 2 * i);
    }
}

/// Makes leaves until 200 entries are free.
fn leave_two_hundred(p: &mut Parts) -> Result<(), Fail>
    requires parts { IsParts p.old }
    requires light { IsLight (core_of p.old) }
    ensures parts { OnOk result (IsParts p.new) }
    ensures light { OnOk result (IsLight (core_of p.new)) }
    ensures room { largest_of p.new.segment ≡ largest_of p.old.segment }
{
    let used = p.names.table.free().saturating_sub(200);
    for k in 0..u32::from(used) {
        let name = Name::new(20_000 + 2 * k).ok_or("a name is even and above 0")?;
        known(p, name)?;
    }
    Ok(())
}

/// How many fields of an object are lambdas.
fn lambdas(p: &Parts, s: Short) -> u32
    requires parts { IsParts p.now }
    requires body { (at : ℕ) × (place_of ((core_of p.now).entries s.0).state ≡ Some at) }
{
    let mut count = 0u32;
    for i in 0..300 {
        if let Some(at) = body_with(p, s, i) {
            if field_word(p, s, at, i) == 0 {
                count = count.saturating_add(1);
            }
        }
    }
    count
}

/// Gives the object's class and the object itself their entries, and leaves 200 free.
fn crowd(p: &mut Parts) -> Result<Short, Fail>
    requires parts { IsParts p.old }
    requires light { IsLight (core_of p.old) }
    ensures parts { OnOk result (IsParts p.new) }
    ensures light { OnOk result (IsLight (core_of p.new)) }
    ensures used { IfOk result (λ s. is_used ((core_of p.new).entries s.0).state ≡ true) }
    ensures room { largest_of p.new.segment ≡ largest_of p.old.segment }
{
    known(p, Name::ARRAY)?;
    known(p, Name::TRUE)?;
    leave_two_hundred(p)?;
    known(p, Name::TRUE)
}

#[test]
fn three_hundred_pointers_come_and_go(rt: HostRuntime) -> Result<(), Fail> {
    let mut p = Parts::new(rt.alloc(), 512, 512)?;
    let mut buf = RecordBuf::new(rt.alloc())?;
    name_three_hundred(&mut buf);
    let s = crowd(&mut p)?;
    let Course { free, lambdas, out } = come_and_go(rt.alloc(), &mut p, s, &mut buf, 299)?;
    let back = (true, Some((300, u32::from(THREE))), Some(10_596));
    assert_eq!(rt; (free, lambdas, out), ((200, RESERVE), 228, back));
    Ok(())
}
