// Single steps on the parts: references, leaves, the word of a field and the mark of a change. Each says the core that it makes.
ghost use Rattle.std.specs.Prelude.{◌≡◌, ◌+◌, ◌-◌, ◌<◌, ◌≤◌, ◌^◌, ℕ, Option, Some, None, true, false, IfSome, IfNone, min};
ghost use Rattle.object_table.specs.Entries.{is_short, is_used, place_of};
ghost use Rattle.core_segment.specs.Segment.{SameRoom};
ghost use Rattle.core_view.specs.Core.{with_leaf, without_leaf};
ghost use Rattle.core_view.specs.Words.{spot};
ghost use Rattle.core_view.specs.Held.{held};
ghost use Rattle.core_view.specs.Counts.{outside, one};
ghost use Rattle.core_view.specs.Kept.{Stays};
ghost use Rattle.core_view.specs.Steps.{IsSpare, IsIdle, IsAt, IsRefStep, with_refs_of, with_mark, with_field_word};
ghost use Rattle.leaf_lambda.specs.Parts.{core_of, spare_of, leaves_for, IsParts, IsLeafStep};

use crate::parts::Parts;
use core_segment::Addr;
use long_names::{Kind, Name};
use object_table::Short;

/// One more reference from outside.
#[inline(always)]
pub fn grip(p: &mut Parts, s: Short)
    requires parts { IsParts p.old }
    requires used { is_used ((core_of p.old).entries s.0).state ≡ true }
    requires light { outside (core_of p.old) s.0 < 2 ^ 31 }
    ensures parts { IsParts p.new }
    ensures core { core_of p.new ≡ with_refs_of (core_of p.old) s.0 (((core_of p.old).entries s.0).refs + 1) }
    ensures stays { Stays (core_of p.old) (core_of p.new) }
    ensures outside { (t : ℕ) → outside (core_of p.new) t ≡ outside (core_of p.old) t + one t s.0 }
    ensures step { IsRefStep (core_of p.old) (core_of p.new) }
    ensures spare { spare_of p.new ≡ spare_of p.old }
    ensures segment { p.new.segment ≡ p.old.segment }
{
    p.names.table.add_ref(s);
}

/// One reference from outside less. A leaf to which nothing refers then stays in use.
#[inline(always)]
pub fn let_go(p: &mut Parts, s: Short)
    requires parts { IsParts p.old }
    requires held { 1 ≤ outside (core_of p.old) s.0 }
    ensures parts { IsParts p.new }
    ensures core { core_of p.new ≡ with_refs_of (core_of p.old) s.0 (((core_of p.old).entries s.0).refs - 1) }
    ensures stays { Stays (core_of p.old) (core_of p.new) }
    ensures outside { (t : ℕ) → outside (core_of p.new) t + one t s.0 ≡ outside (core_of p.old) t }
    ensures step { IsRefStep (core_of p.old) (core_of p.new) }
    ensures spare { spare_of p.new ≡ spare_of p.old }
    ensures segment { p.new.segment ≡ p.old.segment }
{
    p.names.table.drop_ref(s);
}

/// A leaf for a name that has no entry. None exactly where all entries are in use.
#[inline(always)]
pub fn leaf(p: &mut Parts, name: Name) -> Option<Short>
    requires parts { IsParts p.old }
    requires absent { (core_of p.old).find name ≡ None }
    ensures parts { IsParts p.new }
    ensures leaf { IfSome result (λ s. IsSpare (core_of p.old) s.0 name × (core_of p.new ≡ with_leaf (core_of p.old) s.0 name)) }
    ensures step { IsLeafStep (core_of p.old) (core_of p.new) }
    ensures full { IfNone result (spare_of p.old ≡ 0) }
    ensures spare { IfSome result (λ s. spare_of p.new + 1 ≡ spare_of p.old) }
    ensures same { IfNone result (p.new ≡ p.old) }
    ensures segment { p.new.segment ≡ p.old.segment }
{
    match p.names.table.take(name) {
        Some(s) => {
            p.names.resident.insert(name, s);
            Some(s)
        }
        None => None,
    }
}

/// The entry of a name: the one that it has, or a new leaf while more than so many entries are free.
#[inline(always)]
pub fn find_or_leaf(p: &mut Parts, name: Name, spare: u16) -> Option<Short>
    requires parts { IsParts p.old }
    ensures parts { IsParts p.new }
    ensures found { IfSome result (λ s. (is_used ((core_of p.new).entries s.0).state ≡ true)
        × (((core_of p.new).entries s.0).name ≡ name)) }
    ensures step { IsLeafStep (core_of p.old) (core_of p.new) }
    ensures only { IfSome result (λ s. (q : ℕ) → is_used ((core_of p.old).entries q).state ≡ false
        → is_used ((core_of p.new).entries q).state ≡ true → q ≡ s.0) }
    ensures none { IfNone result (((core_of p.old).find name ≡ None) × (spare_of p.old ≤ spare)) }
    ensures few { spare_of p.old ≤ spare → core_of p.new ≡ core_of p.old }
    ensures cost { spare_of p.new ≤ spare_of p.old × (spare_of p.old ≤ spare_of p.new + leaves_for ((core_of p.old).find name)) }
    ensures least { min (spare_of p.old) spare ≤ spare_of p.new }
    ensures segment { p.new.segment ≡ p.old.segment }
{
    match p.names.resident.find(name) {
        Some(s) => Some(s),
        None => {
            if p.names.table.free() > spare {
                leaf(p, name)
            } else {
                None
            }
        }
    }
}

/// Frees a leaf to which nothing refers.
pub fn free_leaf(p: &mut Parts, s: Short)
    requires parts { IsParts p.old }
    requires idle { IsIdle (core_of p.old) s.0 ((core_of p.old).entries s.0).name }
    ensures parts { IsParts p.new }
    ensures core { core_of p.new ≡ without_leaf (core_of p.old) s.0 ((core_of p.old).entries s.0).name }
    ensures stays { Stays (core_of p.old) (core_of p.new) }
    ensures outside { (t : ℕ) → outside (core_of p.new) t ≡ outside (core_of p.old) t }
    ensures step { IsRefStep (core_of p.old) (core_of p.new) }
    ensures spare { spare_of p.new ≡ spare_of p.old + 1 }
    ensures segment { p.new.segment ≡ p.old.segment }
{
    let name = p.names.table.used_entry(s).name;
    p.names.resident.remove(name);
    p.names.table.give(s);
}

/// Where field `i` stands among the words of a body.
#[inline(always)]
pub fn spot_of(kind: Kind, i: u32) -> u32
    requires { i < 2 ^ 31 }
    ensures { result ≡ spot kind i }
{
    match kind {
        Kind::Method => i + 1,
        _ => i,
    }
}

/// The word of field `i` of a body.
#[inline(always)]
pub fn field_word(p: &Parts, s: Short, at: Addr, i: u32) -> u16
    requires parts { IsParts p.now }
    requires there { (old : ℕ) × IsAt (core_of p.now) s.0 at.place i old }
    ensures { IsAt (core_of p.now) s.0 at.place i result }
{
    let kind = p.names.table.used_entry(s).kind;
    p.segment.word(at, spot_of(kind, i))
}

/// Writes a word for field `i` of a body. A short name must be held from outside, and belongs to the body then.
#[inline(always)]
pub fn store_word(p: &mut Parts, s: Short, at: Addr, i: u32, w: u16)
    requires parts { IsParts p.old }
    requires there { (old : ℕ) × IsAt (core_of p.old) s.0 at.place i old }
    requires held { is_short w ≡ true → 1 ≤ outside (core_of p.old) w }
    ensures parts { IsParts p.new }
    ensures core { core_of p.new ≡ with_field_word (core_of p.old) s.0 at.place i w }
    ensures same_names { p.new.names ≡ p.old.names }
    ensures room { SameRoom p.old.segment p.new.segment }
{
    let kind = p.names.table.used_entry(s).kind;
    p.segment.set_word(at, spot_of(kind, i), w);
}

/// Marks an object with a body as changed.
#[inline(always)]
pub fn mark_changed(p: &mut Parts, s: Short)
    requires parts { IsParts p.old }
    requires used { is_used ((core_of p.old).entries s.0).state ≡ true }
    ensures parts { IsParts p.new }
    ensures core { core_of p.new ≡ with_mark (core_of p.old) s.0 }
    ensures stays { Stays (core_of p.old) (core_of p.new) }
    ensures outside { (t : ℕ) → outside (core_of p.new) t ≡ outside (core_of p.old) t }
    ensures spare { spare_of p.new ≡ spare_of p.old }
    ensures segment { p.new.segment ≡ p.old.segment }
{
    p.names.table.set_changed(s, true);
}

/// Where the body of an object lies.
#[inline(always)]
pub fn place_of_body(p: &Parts, s: Short) -> Addr
    requires parts { IsParts p.now }
    requires there { (at : ℕ) × (place_of ((core_of p.now).entries s.0).state ≡ Some at) }
    ensures { place_of ((core_of p.now).entries s.0).state ≡ Some result.place }
{
    match p.names.table.used_entry(s).place() {
        Some(place) => Addr { place },
        None => unreachable!(),
    }
}
