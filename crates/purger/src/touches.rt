//! What was used: an entry that came into a register has the flag TOUCHED until the hand passes over it.
ghost use Rattle.std.specs.Prelude.{◌≡◌, ℕ, true, false};
ghost use Rattle.object_table.specs.Entries.{is_short, is_used};
ghost use Rattle.core_view.specs.Counts.{outside};
ghost use Rattle.core_view.specs.Kept.{Stays};
ghost use Rattle.leaf_lambda.specs.Parts.{core_of, spare_of, IsParts};
ghost use Rattle.purger.specs.Touches.{IsTouching};

use leaf_lambda::Parts;
use leaf_lambda::fields::is_name;
use object_table::Short;

// Gives or takes the flag of an entry.
#[inline(always)]
fn set_touched(p: &mut Parts, s: Short, touched: bool)
    requires parts { IsParts p.old }
    requires used { is_used ((core_of p.old).entries s.0).state ≡ true }
    ensures parts { IsParts p.new }
    ensures flag { ((core_of p.new).entries s.0).flags.touched ≡ touched }
    ensures step { IsTouching (core_of p.old) (core_of p.new) }
    ensures stays { Stays (core_of p.old) (core_of p.new) }
    ensures outside { (t : ℕ) → outside (core_of p.new) t ≡ outside (core_of p.old) t }
    ensures spare { spare_of p.new ≡ spare_of p.old }
    ensures segment { p.new.segment ≡ p.old.segment }
{
    p.names.table.set_touched(s, touched);
}

/// The entry that a word names was used: the hand passes over it once. Written only where it doesn't say so already.
#[inline(always)]
pub fn touch(p: &mut Parts, w: u16)
    requires parts { IsParts p.old }
    requires used { is_short w ≡ true → is_used ((core_of p.old).entries w).state ≡ true }
    ensures parts { IsParts p.new }
    ensures step { IsTouching (core_of p.old) (core_of p.new) }
    ensures flag { is_short w ≡ true → ((core_of p.new).entries w).flags.touched ≡ true }
    ensures stays { Stays (core_of p.old) (core_of p.new) }
    ensures outside { (t : ℕ) → outside (core_of p.new) t ≡ outside (core_of p.old) t }
    ensures spare { spare_of p.new ≡ spare_of p.old }
    ensures segment { p.new.segment ≡ p.old.segment }
{
    if !is_name(w) {
        return;
    }
    if is_touched(p, Short(w)) {
        return;
    }
    set_touched(p, Short(w), true);
}

/// Whether an entry in use was used since the hand passed over it.
#[inline(always)]
pub fn is_touched(p: &Parts, s: Short) -> bool
    requires parts { IsParts p.now }
    requires used { is_used ((core_of p.now).entries s.0).state ≡ true }
    ensures { result ≡ ((core_of p.now).entries s.0).flags.touched }
{
    p.names.table.used_entry(s).flags.touched
}

/// The hand passed over this entry.
pub fn untouch(p: &mut Parts, s: Short)
    requires parts { IsParts p.old }
    requires used { is_used ((core_of p.old).entries s.0).state ≡ true }
    ensures parts { IsParts p.new }
    ensures step { IsTouching (core_of p.old) (core_of p.new) }
    ensures gone { ((core_of p.new).entries s.0).flags.touched ≡ false }
    ensures stays { Stays (core_of p.old) (core_of p.new) }
    ensures outside { (t : ℕ) → outside (core_of p.new) t ≡ outside (core_of p.old) t }
    ensures spare { spare_of p.new ≡ spare_of p.old }
    ensures segment { p.new.segment ≡ p.old.segment }
{
    set_touched(p, s, false);
}
