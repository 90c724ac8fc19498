// One step of compaction, of the segment and the table together: a body moves down, and its entry says so.
ghost use Rattle.std.specs.Prelude.{◌≡◌, ◌<◌, true, false};
ghost use Rattle.core_segment.specs.Segment.{size_of, free_of, largest_of, work_of};
ghost use Rattle.core_view.specs.Kept.{IsTight, Stays};
ghost use Rattle.core_view.specs.Steps.{IsMove};
ghost use Rattle.leaf_lambda.specs.Parts.{core_of, spare_of, IsParts};

use crate::parts::Parts;
use object_table::{EntryState, Short};

/// Moves one body down, with its entry. False exactly where all free words are one chunk, or none: then nothing moved.
pub fn compact_one(p: &mut Parts) -> bool
    requires parts { IsParts p.old }
    requires tight { IsTight (core_of p.old) }
    ensures parts { IsParts p.new }
    ensures tight { IsTight (core_of p.new) }
    ensures moves { IsMove (core_of p.old) (core_of p.new) }
    ensures stays { Stays (core_of p.old) (core_of p.new) }
    ensures done { result ≡ false → largest_of p.new.segment ≡ free_of p.new.segment }
    ensures same { result ≡ false → core_of p.new ≡ core_of p.old }
    ensures many { result ≡ true → largest_of p.old.segment < free_of p.old.segment }
    ensures less { result ≡ true → work_of p.new.segment < work_of p.old.segment }
    ensures free { free_of p.new.segment ≡ free_of p.old.segment }
    ensures size { size_of p.new.segment ≡ size_of p.old.segment }
    ensures spare { spare_of p.new ≡ spare_of p.old }
{
    match p.segment.compact_step() {
        None => false,
        Some(moved) => {
            let s = Short(moved.owner);
            let mut e = p.names.table.used_entry(s);
            e.state = EntryState::Resident(moved.to.place);
            p.names.table.set(s, e);
            true
        }
    }
}
