// A store into a field of a body: the held heap changes at this field alone.
ghost use Rattle.std.specs.Prelude.{◌≡◌, ◌≢◌, ◌<◌, ◌≤◌, ◌^◌, ℕ, [], Some, true};
ghost use Rattle.long_names.specs.declared.object.Object.{Object as Item};
ghost use Rattle.long_names.specs.Objects.{with_field};
ghost use Rattle.long_names.specs.Words.{IsValue};
ghost use Rattle.object_table.specs.Entries.{put, is_short, is_used, with_refs};
ghost use Rattle.core_segment.specs.Segment.{size_of, SameRoom};
ghost use Rattle.core_view.specs.Words.{meant};
ghost use Rattle.core_view.specs.Held.{Disk as Store, held};
ghost use Rattle.core_view.specs.Counts.{outside, IsLight};
ghost use Rattle.core_view.specs.Kept.{IsBacked, IsValued};
ghost use Rattle.core_view.specs.Steps.{IsAt, marked_changed};
ghost use Rattle.leaf_lambda.specs.Parts.{core_of, spare_of, IsParts, IsHolding, IsDropping, IsWithin};

use crate::parts::Parts;
use crate::steps::{field_word, grip, let_go, mark_changed, store_word};
use core_segment::Addr;
use long_names::Value;
use object_table::Short;

/// Whether a word names an entry.
#[inline(always)]
pub fn is_name(w: u16) -> bool
    ensures { result ≡ is_short w }
{
    w % 2 == 0 && w > 0
}

/// One more reference from outside to what a word names, if it names an entry.
#[inline(always)]
pub fn hold_word(p: &mut Parts, w: u16)
    requires parts { IsParts p.old }
    requires used { is_short w ≡ true → is_used ((core_of p.old).entries w).state ≡ true }
    requires light { outside (core_of p.old) w < 2 ^ 31 }
    ensures parts { IsParts p.new }
    ensures held { IsHolding w (core_of p.old) (core_of p.new) }
    ensures find { (core_of p.new).find ≡ (core_of p.old).find }
    ensures spare { spare_of p.new ≡ spare_of p.old }
    ensures segment { p.new.segment ≡ p.old.segment }
{
    if is_name(w) {
        grip(p, Short(w));
    }
}

/// One reference from outside less to what a word names, if it names an entry.
#[inline(always)]
pub fn drop_word(p: &mut Parts, w: u16)
    requires parts { IsParts p.old }
    requires held { is_short w ≡ true → 1 ≤ outside (core_of p.old) w }
    ensures parts { IsParts p.new }
    ensures dropped { IsDropping w (core_of p.old) (core_of p.new) }
    ensures spare { spare_of p.new ≡ spare_of p.old }
    ensures segment { p.new.segment ≡ p.old.segment }
{
    if is_name(w) {
        let_go(p, Short(w));
    }
}

// What a word means that is no lambda is a value.
#[inline(always)]
pub(crate) fn words_mean_values(p: &Parts, w: u16)
    requires parts { IsParts p.now }
    requires used { is_short w ≡ true → is_used ((core_of p.now).entries w).state ≡ true }
    requires some { w ≢ 0 }
    ensures { IsValue (meant (core_of p.now).entries [] 0 w) }
{
    if is_name(w) {
        let _value = Value::from(p.names.table.used_entry(Short(w)).name);
    }
}

/// Stores a word that is no lambda into field `i` of a body. A short name must be held from outside, and stays so. The object is marked
/// as changed. The count of what the field held before is the caller's to lower.
#[inline(always)]
pub fn put_field(p: &mut Parts, s: Short, at: Addr, i: u32, w: u16)
    requires parts { IsParts p.old }
    requires light { IsLight (core_of p.old) }
    requires there { (old : ℕ) × IsAt (core_of p.old) s.0 at.place i old }
    requires held { is_short w ≡ true → 1 ≤ outside (core_of p.old) w }
    requires some { w ≢ 0 }
    ensures parts { IsParts p.new }
    ensures within { IsWithin s.0 (core_of p.old) (core_of p.new) }
    ensures find { (core_of p.new).find ≡ (core_of p.old).find }
    ensures entry { (core_of p.new).entries s.0
        ≡ with_refs (marked_changed ((core_of p.old).entries s.0)) ((core_of p.new).entries s.0).refs }
    ensures backed { (disk : Store) → IsBacked (core_of p.old) disk → IsBacked (core_of p.new) disk }
    ensures held { (disk : Store) (o : Item) → IsBacked (core_of p.old) disk
        → held (core_of p.old) disk ((core_of p.old).entries s.0).name ≡ Some o →
        held (core_of p.new) disk
        ≡ put (held (core_of p.old) disk) ((core_of p.old).entries s.0).name
        (Some (record { class = o.class; body = with_field o.body i (meant (core_of p.old).entries [] 0 w) })) }
    ensures valued { (disk : Store) → IsBacked (core_of p.old) disk → IsValued (held (core_of p.old) disk) → IsValued (held (core_of p.new) disk) }
    ensures spare { spare_of p.new ≡ spare_of p.old }
    ensures size { size_of p.new.segment ≡ size_of p.old.segment }
    ensures room { SameRoom p.old.segment p.new.segment }
{
    // What it means is a value, for `valued`.
    words_mean_values(p, w);
    mark_changed(p, s);
    let old = field_word(p, s, at, i);
    hold_word(p, w);
    store_word(p, s, at, i, w);
    drop_word(p, old);
}
