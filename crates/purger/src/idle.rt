// How many leaves nothing refers to once an object has left. Sweeps of the table are put off by this number, and no clause rests on it.
ghost use Rattle.std.specs.Prelude.{◌≡◌, ℕ, Some, true};
ghost use Rattle.object_table.specs.Entries.{is_short, is_used, place_of};
ghost use Rattle.leaf_lambda.specs.Parts.{core_of, IsParts};

use leaf_lambda::Parts;
use leaf_lambda::fields::is_name;
use leaf_lambda::leaving::field_total;
use leaf_lambda::steps::{field_word, place_of_body};
use object_table::Short;

// Whether a word names a leaf to which nothing else refers.
#[inline(always)]
fn is_last(p: &Parts, w: u16) -> bool
    requires parts { IsParts p.now }
    requires used { is_short w ≡ true → is_used ((core_of p.now).entries w).state ≡ true }
{
    if !is_name(w) {
        return false;
    }
    let e = p.names.table.used_entry(Short(w));
    if e.place().is_some() {
        return false;
    }
    e.refs == 1
}

/// How many leaves only the class and the fields of an object name, each by one word.
pub fn idle_behind(p: &Parts, s: Short) -> u32
    requires parts { IsParts p.now }
    requires body { (at : ℕ) × (place_of ((core_of p.now).entries s.0).state ≡ Some at) }
{
    let at = place_of_body(p, s);
    let class = p.names.table.used_entry(s).class;
    let mut idle = u32::from(is_last(p, class.0));
    for i in 0..field_total(p, s, at) {
        let w = field_word(p, s, at, i);
        idle = idle.saturating_add(u32::from(is_last(p, w)));
    }
    idle
}
