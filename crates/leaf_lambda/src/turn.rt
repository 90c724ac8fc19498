// One fault, one store over what was a lambda or not, and one eviction: what these calls promise is enough to follow the held heap.
ghost use Rattle.std.specs.Prelude.{◌≡◌, ◌+◌, ◌%◌, ◌<◌, ◌≤◌, Some, None, true, length};
ghost use Rattle.long_names.specs.Objects.{body_words};
ghost use Rattle.object_record.specs.Raw.{longs_of};
ghost use Rattle.object_record.specs.Buffer.{raw_of};
ghost use Rattle.object_record.specs.Objects.{object_in};
ghost use Rattle.object_table.specs.Entries.{is_used, place_of};
ghost use Rattle.core_segment.specs.declared.segment.TheConstants.{HEADER};
ghost use Rattle.core_segment.specs.Segment.{largest_of};
ghost use Rattle.core_view.specs.Held.{Disk as Store, held};
ghost use Rattle.core_view.specs.Counts.{IsLight};
ghost use Rattle.core_view.specs.Kept.{IsBacked};
ghost use Rattle.leaf_lambda.specs.Parts.{core_of, spare_of, leaves_for, IsParts};
ghost use Rattle.leaf_lambda.specs.Turn.{IsTold, IsStored};

use crate::fields::put_field;
use crate::leaving::{drop_body, set_written};
use crate::merge::merge_out;
use crate::parts::Parts;
use crate::steps::place_of_body;
use crate::translate::translate_in;
use object_record::RecordBuf;
use object_table::Short;

// An object is brought in from its record, a number is stored into one of its fields, and it is evicted with its new record written:
// over the new disk the held heap differs from the old one in that field alone.
fn one_turn(p: &mut Parts, s: Short, buf: &mut RecordBuf, i: u32, w: u16)
    requires parts { IsParts p.old }
    requires light { IsLight (core_of p.old) }
    requires leaf { (is_used ((core_of p.old).entries s.0).state ≡ true) × (place_of ((core_of p.old).entries s.0).state ≡ None) }
    requires class { leaves_for ((core_of p.old).find (raw_of buf.old).class) ≤ spare_of p.old }
    requires room { body_words (object_in (raw_of buf.old)).body + HEADER ≤ largest_of p.old.segment }
    requires told { IsTold (core_of p.old) s.0 buf.old }
    requires field { i < length (longs_of (raw_of buf.old).body) }
    requires number { w % 2 ≡ 1 }
    ensures parts { IsParts p.new }
    ensures gone { place_of ((core_of p.new).entries s.0).state ≡ None }
    ensures stored { (disk : Store) → IsBacked (core_of p.old) disk
        → disk ((core_of p.old).entries s.0).name ≡ Some (object_in (raw_of buf.old))
        → IsStored (core_of p.old) disk (core_of p.new) s.0 i w (object_in (raw_of buf.old)) (object_in (raw_of buf.new)) }
{
    translate_in(p, s, buf);
    let at = place_of_body(p, s);
    put_field(p, s, at, i, w);
    merge_out(p, s, buf);
    set_written(p, s);
    drop_body(p, s);
}
