// Marks go: all at once.
ghost use Rattle.std.specs.Prelude.{◌≡◌, ℕ, true, false};
ghost use Rattle.object_table.specs.Entries.{is_used};
ghost use Rattle.core_view.specs.Counts.{outside, marked_of};
ghost use Rattle.core_view.specs.Kept.{Stays};
ghost use Rattle.leaf_lambda.specs.Parts.{core_of, spare_of, IsParts};
ghost use Rattle.purger.specs.Marks.{IsUnmarking, LeavesMarks};

use leaf_lambda::Parts;
use object_table::Short;

/// Takes all marks away.
pub fn unmark_all(p: &mut Parts)
    requires parts { IsParts p.old }
    ensures parts { IsParts p.new }
    ensures step { IsUnmarking (core_of p.old) (core_of p.new) }
    ensures stays { Stays (core_of p.old) (core_of p.new) }
    ensures outside { (t : ℕ) → outside (core_of p.new) t ≡ outside (core_of p.old) t }
    ensures none { (n : ℕ) → marked_of (core_of p.new) n ≡ false }
    ensures spare { spare_of p.new ≡ spare_of p.old }
    ensures segment { p.new.segment ≡ p.old.segment }
{
    p.names.table.unmark_all();
}

/// Takes all marks away where this object is marked.
#[inline(always)]
pub fn unmark_for(p: &mut Parts, s: Short)
    requires parts { IsParts p.old }
    requires used { is_used ((core_of p.old).entries s.0).state ≡ true }
    ensures parts { IsParts p.new }
    ensures step { IsUnmarking (core_of p.old) (core_of p.new) }
    ensures stays { Stays (core_of p.old) (core_of p.new) }
    ensures outside { (t : ℕ) → outside (core_of p.new) t ≡ outside (core_of p.old) t }
    ensures marks { LeavesMarks (core_of p.old) (core_of p.new) }
    ensures gone { ((core_of p.new).entries s.0).flags.marked ≡ false }
    ensures idle { ((core_of p.old).entries s.0).flags.marked ≡ false → p.new ≡ p.old }
    ensures spare { spare_of p.new ≡ spare_of p.old }
    ensures segment { p.new.segment ≡ p.old.segment }
{
    let e = p.names.table.used_entry(s);
    if e.flags.marked {
        unmark_all(p);
    }
}
