// The parts of a core, made and asked.
ghost use Rattle.std.specs.Prelude.{◌≡◌, ◌↔◌, ◌<◌, ◌≤◌, ℕ, IfOk, IsTrue, Some, None, true};
ghost use Rattle.long_names.specs.Record.{kind_number};
ghost use Rattle.object_record.specs.Buffer.{HasRecord};
ghost use Rattle.object_table.specs.declared.table.TheConstants.{MOST_ENTRIES};
ghost use Rattle.object_table.specs.Entries.{is_used, place_of};
ghost use Rattle.object_table.specs.Table.{entries_of};
ghost use Rattle.core_segment.specs.declared.segment.TheConstants.{HEADER, MOST_WORDS};
ghost use Rattle.core_segment.specs.Segment.{size_of, free_of, largest_of};
ghost use Rattle.core_view.specs.Held.{Disk as Store, held};
ghost use Rattle.core_view.specs.Counts.{outside};
ghost use Rattle.core_view.specs.Kept.{IsTight, IsBacked};
ghost use Rattle.leaf_lambda.specs.Parts.{core_of, spare_of, IsParts};
ghost use Rattle.leaf_lambda.specs.Records.{IsCopy};

use crate::leaving::field_total;
use core_segment::{Addr, Segment};
use long_names::Kind;
use object_record::RecordBuf;
use object_table::{Short, Table};
use resident_table::{Parts2, Resident};
use std::alloc::{AllocError, Global};

/// Bodies in a segment, and the entries of the objects that are known here.
#[derive(Drop)]
pub struct Parts {
    pub segment: Segment,
    pub names: Parts2,
}

impl Parts {
    /// A core of so many words and entries, which knows no object.
    pub fn new(alloc: Global, words: u32, entries: u16) -> Result<Parts, AllocError>
        requires some { HEADER ≤ words }
        requires most { words ≤ MOST_WORDS }
        requires few { entries ≤ MOST_ENTRIES }
        ensures parts { IfOk result IsParts }
        ensures held { IfOk result (λ p. (disk : Store) → IsBacked (core_of p) disk × (held (core_of p) disk ≡ disk)) }
        ensures outside { IfOk result (λ p. (t : ℕ) → outside (core_of p) t ≡ 0) }
        ensures spare { IfOk result (λ p. spare_of p ≡ entries) }
        ensures size { IfOk result (λ p. size_of p.segment ≡ words) }
        ensures room { IfOk result (λ p. (free_of p.segment ≡ words) × (largest_of p.segment ≡ words)) }
        ensures entries { IfOk result (λ p. entries_of p.names.table ≡ entries) }
        ensures tight { IfOk result (λ p. IsTight (core_of p)) }
    {
        Ok(Parts {
            segment: Segment::new(alloc, words)?,
            names: Parts2 {
                table: Table::new(alloc, entries)?,
                resident: Resident::new(alloc, entries)?,
            },
        })
    }
}

/// Whether an entry in use is a leaf.
pub fn is_leaf(p: &Parts, s: Short) -> bool
    requires parts { IsParts p.now }
    requires used { is_used ((core_of p.now).entries s.0).state ≡ true }
    ensures { IsTrue result ↔ (place_of ((core_of p.now).entries s.0).state ≡ None) }
{
    p.names.table.used_entry(s).place().is_none()
}

// The number of a kind in a record.
#[inline(always)]
fn number_of(kind: Kind) -> u16
    ensures { result ≡ kind_number kind }
{
    kind as u16
}

/// Whether a record is like an object with a body: of its name, its kind and its length, and with as many fields.
pub fn is_copy(p: &Parts, s: Short, at: Addr, buf: &RecordBuf) -> bool
    requires parts { IsParts p.now }
    requires place { place_of ((core_of p.now).entries s.0).state ≡ Some at.place }
    requires record { HasRecord buf.now }
    ensures { IsTrue result ↔ IsCopy buf.now ((core_of p.now).entries s.0) ((core_of p.now).chunks at.place).words }
{
    let e = p.names.table.used_entry(s);
    if buf.name() != e.name {
        return false;
    }
    if number_of(buf.kind()) != number_of(e.kind) {
        return false;
    }
    if buf.len() != e.len {
        return false;
    }
    buf.field_count() == field_total(p, s, at)
}
