// Whether anything can be dead. Behind a sweep nothing is; and then a word that goes leaves it so, where the core still names its object. So
// settling at a full disk looks for what is dead only where something may have died.
ghost use Rattle.std.specs.Prelude.{◌≡◌, ◌≤◌, ℕ, None, true, IsTrue, OnOk, IfErr};
ghost use Rattle.core_segment.specs.Segment.{free_of};
ghost use Rattle.disk_objects.specs.Disk.{disk_room};
ghost use Rattle.leaf_lambda.specs.Parts.{core_of, spare_of, IsParts};
ghost use Rattle.loom_memory.specs.Memory.{IsNamedIn};
ghost use Rattle.object_table.specs.Entries.{is_short, is_used};

use crate::memory::LoomMemory;
use leaf_lambda::Parts;
use leaf_lambda::fields::is_name;
use loom_host::{Host, Role};
use object_memory::MemFault;
use object_table::Short;

// Whether a word names a known object, or one that the core still names, or none.
#[inline(never)]
fn is_named(p: &Parts, w: u16) -> bool
    requires parts { IsParts p.now }
    requires used { is_short w ≡ true → is_used ((core_of p.now).entries w).state ≡ true }
    ensures yes { IsTrue result → is_short w ≡ true → IsNamedIn (core_of p.now) w }
    ensures no { (is_short w ≡ true → IsNamedIn (core_of p.now) w) → IsTrue result }
{
    if !is_name(w) {
        return true;
    }
    let e = p.names.table.used_entry(Short(w));
    if e.refs > 0 {
        return true;
    }
    e.name.is_known()
}

// A word went: it is said no more that nothing is dead just where its object may be.
#[inline(always)]
pub(crate) fn note_gone(p: &Parts, thinned: &mut bool, w: u16)
    requires parts { IsParts p.now }
    requires used { is_short w ≡ true → is_used ((core_of p.now).entries w).state ≡ true }
    ensures was { thinned.new ≡ true → thinned.old ≡ true }
    ensures named { thinned.new ≡ true → is_short w ≡ true → IsNamedIn (core_of p.now) w }
    ensures stays { thinned.old ≡ true → (is_short w ≡ true → IsNamedIn (core_of p.now) w) → thinned.new ≡ true }
{
    if *thinned {
        *thinned = is_named(p, w);
    }
}

impl<'h, H: Host> LoomMemory<'h, H> {
    ghost use Rattle.loom_memory.specs.Effects.{Frees, HasSwept, IsFaulted, Leaves};
    ghost use Rattle.object_memory.specs.Fit.{MayCall};
    ghost use Rattle.long_names.specs.Heap.{object_count};
    ghost use Rattle.long_names.specs.Kept.{kept};
    ghost use Rattle.object_memory.specs.Told.{IsReady, is_root};
    ghost use Rattle.object_memory.specs.Contract.{KeepsSound, Settles};
    ghost use Rattle.purger.specs.Draining.{KeepsHeld};
    ghost use Rattle.std.specs.Prelude.{Ok};
    ghost use Rattle.loom_memory.specs.Memory.{loom_told, loom_outside, loom_core, loom_lender, loom_parts, loom_rest, IsSound};
    ghost use Rattle.loom_memory.specs.Own.{MindsCache};
    ghost use Rattle.loom_memory.specs.Makings.{HasThinned, IsRefusedCall};
    ghost use Rattle.loom_memory.specs.Residents.{fetched};
    ghost use Rattle.loom_memory.specs.Thinned.{is_thinned};

    /// Whether nothing is dead, as far as it says.
    #[tactic(auto, unfolding(crate::specs::Thinned::is_thinned))]
    #[inline(always)]
    pub fn is_thinned(&self) -> bool
        ensures { result ≡ is_thinned self.now }
    {
        self.thinned
    }

    // Frees dead objects until none is dead, and looks for none where none can be.
    pub(crate) fn thin_once(&mut self) -> Result<(), MemFault>
        requires fit { MayCall (IsSound H.Host) (loom_told H.Host) self.old }
        ensures frees { OnOk result (Frees H.Host self.old self.new) }
        ensures swept { OnOk result (HasSwept H.Host self.old self.new) }
        ensures lasts { is_thinned self.old ≡ true → (result ≡ Ok tt) × (self.new ≡ self.old) }
        ensures leaves { Leaves H.Host self.old self.new result }
        ensures faulted { IfErr result (IsFaulted (loom_told H.Host self.old) (loom_told H.Host self.new)) }
    {
        if self.thinned {
            return Ok(());
        }
        self.thin()
    }
}
