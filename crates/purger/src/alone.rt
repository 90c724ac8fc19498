// Objects that die alone: what they hold is named elsewhere too, so nothing goes with them. No record is made of them: their short words give
// the entries in which counts are lowered.
ghost use Rattle.std.specs.Prelude.{◌≡◌, ◌≢◌, ◌≤◌, ◌<◌, Some, None, true, false, IsTrue, IfSome, take};
ghost use Rattle.object_table.specs.Entries.{is_short, is_used, place_of};
ghost use Rattle.core_view.specs.Words.{pointers};
ghost use Rattle.leaf_lambda.specs.Parts.{core_of, IsParts};
ghost use Rattle.purger.specs.Alone.{NoneIsZero};

use core_segment::Addr;
use leaf_lambda::Parts;
use leaf_lambda::fields::is_name;
use leaf_lambda::leaving::field_total;
use leaf_lambda::steps::field_word;
use object_table::Short;

/// The most fields of an object that goes so.
pub const MOST_ALONE: usize = 64;

// Whether a field isn't left on the disk, and what it names is named elsewhere too, as far as its references tell.
#[inline(always)]
fn stays_named(p: &Parts, w: u16) -> bool
    requires parts { IsParts p.now }
    requires used { is_short w ≡ true → is_used ((core_of p.now).entries w).state ≡ true }
    ensures some { IsTrue result → w ≢ 0 }
{
    if w == 0 {
        return false;
    }
    if !is_name(w) {
        return true;
    }
    let e = p.names.table.used_entry(Short(w));
    e.refs > 1
}

/// Copies the words of the fields of a body, and tells how many there are. None where there are too many, or where something may go with the
/// object, or one is left on the disk.
pub(crate) fn copy_fields(
    p: &Parts,
    s: Short,
    at: Addr,
    out: &mut [u16; MOST_ALONE],
) -> Option<usize>
    requires parts { IsParts p.now }
    requires place { place_of ((core_of p.now).entries s.0).state ≡ Some at.place }
    ensures most { IfSome result (λ n. n ≤ 64) }
    ensures fields { IfSome result (λ n. take n out.new ≡ pointers ((core_of p.now).entries s.0).kind ((core_of p.now).chunks at.place).words) }
    ensures none { IfSome result (λ n. NoneIsZero (pointers ((core_of p.now).entries s.0).kind ((core_of p.now).chunks at.place).words)) }
{
    let count = field_total(p, s, at) as usize;
    if count > MOST_ALONE {
        return None;
    }
    for i in 0..count {
        let w = field_word(p, s, at, i as u32);
        if !stays_named(p, w) {
            return None;
        }
        out[i] = w;
    }
    Some(count)
}
