// The short words of an object that is freed: each gives its entry, so nothing is searched.
ghost use Rattle.std.specs.Prelude.{◌%◌, ◌==◌, [], ◌∷◌, map};
ghost use Rattle.object_table.specs.Table.{entry_at};
ghost use Rattle.delta_counts.specs.Parts.{IsNames, IsCounting};
ghost use Rattle.delta_counts.specs.Shorts.{AreAtHand, IsAtHand, Lowers, short_value};

use crate::changes::add_change;
use object_table::Short;
use resident_table::Parts2;

/// One word less is what this short word names, which is no lambda.
#[inline(always)]
pub fn lower_short(p: &mut Parts2, w: u16)
    requires names { IsNames p.old }
    requires used { IsAtHand p.old w }
    ensures lowered { Lowers p.old p.new (short_value (entry_at p.old.table) w ∷ []) }
    ensures counting { IsCounting p.old p.new }
{
    if w % 2 == 1 {
        return;
    }
    add_change(p, Short(w), -1);
}

/// One word less for each of these short words, none of which is a lambda.
pub fn lower_shorts(p: &mut Parts2, words: &[u16])
    requires names { IsNames p.old }
    requires used { AreAtHand p.old words.now }
    ensures lowered { Lowers p.old p.new (map (short_value (entry_at p.old.table)) words.now) }
    ensures counting { IsCounting p.old p.new }
{
    for i in 0..words.len() {
        lower_short(p, words[i]);
    }
}
