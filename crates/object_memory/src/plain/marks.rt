// Marks of a lookup path.
ghost use Rattle.std.specs.Prelude.{◌≡◌, ◌==◌, ℕ, true, false, OnOk, OnErr, Some, None};
ghost use Rattle.object_memory.specs.Contract.{LeavesCache, with_mark};
ghost use Rattle.object_memory.specs.Plain.{cache_of};

use long_names::Name;
use std::alloc::{AllocError, Global};
use std::collections::BTreeSet;

/// The marked names, and whether the path is whole. No rows are kept.
#[derive(Drop)]
pub(crate) struct Marks {
    pub(crate) names: BTreeSet<Name>,
    pub(crate) path: bool,
}

impl Marks {
    /// No mark, and no path. It takes no memory.
    pub(crate) fn new(alloc: Global) -> Marks
        ensures { cache_of result ≡ (record { rows = λ c s m. false; marks = λ n. false; path = false }) }
    {
        Marks {
            names: BTreeSet::new(alloc),
            path: false,
        }
    }

    pub(crate) fn begin_path(&mut self)
        ensures { cache_of self.new ≡ record (cache_of self.old) { path = true } }
    {
        self.path = true;
    }

    /// Without memory the marks are as before.
    pub(crate) fn add(&mut self, name: Name) -> Result<(), AllocError>
        ensures ok { OnOk result (cache_of self.new ≡ with_mark (cache_of self.old) (Some name)) }
        ensures err { OnErr result (cache_of self.new ≡ cache_of self.old) }
    {
        self.names.insert(name)?;
        Ok(())
    }

    /// The object of this name was stored into: where it is marked, all marks go, and the path is not whole any more.
    pub(crate) fn touch(&mut self, name: Name)
        ensures leaves { LeavesCache (λ n. name == n) None (cache_of self.old) (cache_of self.old) (cache_of self.new) }
        ensures fewer { (n : ℕ) → (cache_of self.new).marks n ≡ true → (cache_of self.old).marks n ≡ true }
    {
        if self.names.contains(&name) {
            self.names.clear();
            self.path = false;
        }
    }
}
