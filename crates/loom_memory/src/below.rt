// Whether what is read in a record names nothing at the next name or above.
ghost use Rattle.std.specs.Prelude.{◌≡◌, ◌↔◌, IsTrue};
ghost use Rattle.object_record.specs.Buffer.{raw_of, HasRecord};
ghost use Rattle.object_record.specs.Objects.{value_in, object_in};
ghost use Rattle.loom_memory.specs.Below.{IsBelow, HoldsBelow};

use crate::load::either;
use object_record::RecordBuf;

// Whether a long word is no name at the next one or above.
#[inline(always)]
pub(crate) fn is_below(long: u32, next: u32) -> bool
    ensures { IsTrue result ↔ IsBelow next (value_in long) }
{
    either(long % 2 == 1, long < next)
}

/// Whether each name in the buffer's record, its class and those of its fields, is below the next one.
pub fn holds_below(buf: &RecordBuf, next: u32) -> bool
    requires record { HasRecord buf.now }
    ensures { IsTrue result ↔ HoldsBelow next (object_in (raw_of buf.now)) }
{
    if buf.class().get() >= next {
        return false;
    }
    for i in 0..buf.field_count() {
        if !is_below(buf.long_field(i), next) {
            return false;
        }
    }
    true
}
