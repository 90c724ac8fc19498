// New objects in a core: the words that they hold are counted first, and then they get an entry and a body at once.
ghost use Rattle.std.specs.Prelude.{◌≡◌, ◌≢◌, ◌+◌, ◌<◌, ◌≤◌, ◌^◌, ◌++◌, ℕ, [], List, Some, None, true, replicate, is_some, IsTrue, IfSome, IfNone};
ghost use Rattle.long_names.specs.Heap.{count_of};
ghost use Rattle.long_names.specs.declared.limits.TheConstants.{MOST_FIELDS};
ghost use Rattle.long_names.specs.Names.{NIL as NIL_NAME, IsLongName};
ghost use Rattle.long_names.specs.Words.{literal_count};
ghost use Rattle.long_names.specs.declared.value.Value.{Value};
ghost use Rattle.long_names.specs.declared.value.Value.TheVariants.{Ref};
ghost use Rattle.object_table.specs.Entries.{is_used, place_of};
ghost use Rattle.core_segment.specs.declared.segment.TheConstants.{HEADER};
ghost use Rattle.core_segment.specs.Segment.{largest_of, size_of};
ghost use Rattle.core_view.specs.Core.{with_leaf};
ghost use Rattle.core_view.specs.Counts.{IsLight};
ghost use Rattle.core_view.specs.Steps.{IsSpare};
ghost use Rattle.core_view.specs.Words.{int_of_short, most_len, words_for};
ghost use Rattle.leaf_lambda.specs.Making.{fields_new};
ghost use Rattle.leaf_lambda.specs.Parts.{core_of, spare_of, IsLeafStep, IsParts};
ghost use Rattle.core_view.specs.Levels.{Levels, heap_of};
ghost use Rattle.core_view.specs.Counted.{IsSound, words};
ghost use Rattle.core_view.specs.LevelSteps.{made, with_core};
ghost use Rattle.loom_memory.specs.New.{HasFew, IsNew, IsReadied, words_ahead};

use delta_counts::add_change;
use leaf_lambda::Parts;
use leaf_lambda::making::make_body;
use leaf_lambda::numbers::int_short;
use leaf_lambda::steps::leaf;
use long_names::{Kind, Name, literal_count};
use object_table::Short;

// How many nils a new object holds.
#[inline(always)]
fn nils_of(kind: Kind, len: u32, header: u16) -> u32
    requires len { len ≤ most_len kind }
    ensures count { result ≡ fields_new kind len header }
    ensures few { result < MOST_FIELDS + 1 }
{
    match kind {
        Kind::Pointers => len,
        Kind::Method => literal_count(int_short(header)) as u32,
        Kind::Words => 0,
        Kind::Bytes => 0,
    }
}

// A leaf for a name that has no entry, where one is free.
#[inline(always)]
fn new_leaf(p: &mut Parts, name: Name) -> Short
    requires parts { IsParts p.old }
    requires absent { (core_of p.old).find name ≡ None }
    requires spare { 1 ≤ spare_of p.old }
    ensures parts { IsParts p.new }
    ensures leaf { IsSpare (core_of p.old) result.0 name × (core_of p.new ≡ with_leaf (core_of p.old) result.0 name) }
    ensures step { IsLeafStep (core_of p.old) (core_of p.new) }
    ensures spare { spare_of p.new + 1 ≡ spare_of p.old }
    ensures segment { p.new.segment ≡ p.old.segment }
{
    match leaf(p, name) {
        Some(s) => s,
        None => unreachable!(),
    }
}

// The entry of nil, which gets one where it has none.
#[inline(always)]
fn entry_of_nil(p: &mut Parts) -> Short
    requires parts { IsParts p.old }
    requires spare { 1 ≤ spare_of p.old }
    ensures parts { IsParts p.new }
    ensures nil { (is_used ((core_of p.new).entries result.0).state ≡ true) × (((core_of p.new).entries result.0).name ≡ NIL_NAME) }
    ensures readied { IsReadied (core_of p.old) (core_of p.new) }
    ensures sound { (t : Levels) (owed : List Value) → core_of p.old ≡ t.core → IsSound t owed → IsSound (with_core t (core_of p.new)) owed }
    ensures spare { spare_of p.old ≤ spare_of p.new + 1 }
    ensures segment { p.new.segment ≡ p.old.segment }
{
    match p.names.resident.find(Name::NIL) {
        Some(s) => s,
        None => new_leaf(p, Name::NIL),
    }
}

// The count of an entry's name rises.
#[inline(always)]
fn raise(p: &mut Parts, s: Short, n: u32)
    requires parts { IsParts p.old }
    requires used { is_used ((core_of p.old).entries s.0).state ≡ true }
    requires few { n < MOST_FIELDS + 1 }
    ensures parts { IsParts p.new }
    ensures readied { IsReadied (core_of p.old) (core_of p.new) }
    ensures sound { (t : Levels) (owed : List Value) → core_of p.old ≡ t.core → IsSound t owed
        → count_of (heap_of t) ((core_of p.old).entries s.0).name + words owed ((core_of p.old).entries s.0).name + n ≤ 2 ^ 62
        → IsSound (with_core t (core_of p.new)) (replicate n (Ref ((core_of p.old).entries s.0).name) ++ owed) }
    ensures spare { spare_of p.new ≡ spare_of p.old }
    ensures segment { p.new.segment ≡ p.old.segment }
{
    add_change(&mut p.names, s, i64::from(n));
}

// The class and the nils of a new object are counted, and nil has an entry.
#[inline(always)]
fn count_ahead(p: &mut Parts, class: Short, n: u32) -> Short
    requires parts { IsParts p.old }
    requires class { is_used ((core_of p.old).entries class.0).state ≡ true }
    requires few { n < MOST_FIELDS + 1 }
    requires spare { 1 ≤ spare_of p.old }
    ensures parts { IsParts p.new }
    ensures nil { (is_used ((core_of p.new).entries result.0).state ≡ true) × (((core_of p.new).entries result.0).name ≡ NIL_NAME) }
    ensures readied { IsReadied (core_of p.old) (core_of p.new) }
    ensures sound { (t : Levels) → core_of p.old ≡ t.core → IsSound t [] → HasFew t
        → IsSound (with_core t (core_of p.new)) (words_ahead n ((core_of p.old).entries class.0).name) }
    ensures spare { spare_of p.old ≤ spare_of p.new + 1 }
    ensures segment { p.new.segment ≡ p.old.segment }
{
    let nil = entry_of_nil(p);
    raise(p, class, 1);
    raise(p, nil, n);
    nil
}

// A new object gets its entry and its body. None where its name has an entry.
#[inline(always)]
fn put_new(
    p: &mut Parts,
    name: Name,
    class: Short,
    nil: Short,
    kind: Kind,
    len: u32,
    header: u16,
) -> Option<Short>
    requires parts { IsParts p.old }
    requires light { IsLight (core_of p.old) }
    requires long { IsLongName name }
    requires class { is_used ((core_of p.old).entries class.0).state ≡ true }
    requires nil { (is_used ((core_of p.old).entries nil.0).state ≡ true) × (((core_of p.old).entries nil.0).name ≡ NIL_NAME) }
    requires len { len ≤ most_len kind }
    requires room { words_for kind len (literal_count (int_of_short header)) + HEADER ≤ largest_of p.old.segment }
    requires spare { 1 ≤ spare_of p.old }
    ensures parts { IsParts p.new }
    ensures made { IfSome result (λ s. IsNew (core_of p.old) (core_of p.new) name class.0 kind len header s.0) }
    ensures body { IfSome result (λ s. IsTrue (is_some (place_of ((core_of p.new).entries s.0).state))) }
    ensures sound { IfSome result (λ s. (t : Levels) → core_of p.old ≡ t.core
        → IsSound t (words_ahead (fields_new kind len header) ((core_of p.old).entries class.0).name) → t.next ≡ name → IsSound (made t (core_of p.new)) []) }
    ensures none { IfNone result ((core_of p.old).find name ≡ None → ⊥) }
    ensures still { IfNone result (p.new ≡ p.old) }
    ensures size { size_of p.new.segment ≡ size_of p.old.segment }
{
    match p.names.resident.find(name) {
        Some(_) => None,
        None => {
            let s = new_leaf(p, name);
            make_body(p, s, class, kind, len, header, nil.0);
            Some(s)
        }
    }
}

// A new object of so many values, words or bytes, under a name that has no entry. None where it has one, or is nil's.
#[inline(always)]
pub(crate) fn make_object(
    p: &mut Parts,
    name: Name,
    class: Short,
    kind: Kind,
    len: u32,
    header: u16,
) -> Option<Short>
    requires parts { IsParts p.old }
    requires light { IsLight (core_of p.old) }
    requires long { IsLongName name }
    requires class { is_used ((core_of p.old).entries class.0).state ≡ true }
    requires len { len ≤ most_len kind }
    requires room { words_for kind len (literal_count (int_of_short header)) + HEADER ≤ largest_of p.old.segment }
    requires spare { 2 ≤ spare_of p.old }
    ensures parts { IsParts p.new }
    ensures made { IfSome result (λ s. IsNew (core_of p.old) (core_of p.new) name class.0 kind len header s.0) }
    ensures body { IfSome result (λ s. IsTrue (is_some (place_of ((core_of p.new).entries s.0).state))) }
    ensures sound { IfSome result (λ s. (t : Levels) → core_of p.old ≡ t.core → IsSound t [] → HasFew t → t.next ≡ name → IsSound (made t (core_of p.new)) []) }
    ensures none { IfNone result ((core_of p.old).find name ≡ None → name ≢ NIL_NAME → ⊥) }
    ensures readied { IfNone result (IsReadied (core_of p.old) (core_of p.new)) }
    ensures size { size_of p.new.segment ≡ size_of p.old.segment }
{
    let n = nils_of(kind, len, header);
    let nil = count_ahead(p, class, n);
    put_new(p, name, class, nil, kind, len, header)
}
