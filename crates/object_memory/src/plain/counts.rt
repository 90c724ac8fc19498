// How many words hold each name.
ghost use Rattle.std.specs.Prelude.{◌≡◌, ◌+◌, ◌<◌, ◌^◌, ◌==◌, ℕ, OnOk, if◌then◌else◌};
ghost use Rattle.std.specs.Ordering.{nat_cmp};
ghost use Rattle.std.specs.BTreeMap.{get};
ghost use Rattle.std.specs.Map.{count_at};
ghost use Rattle.long_names.specs.Need.{is_pinned};

use long_names::Name;
use std::alloc::{AllocError, Global};
use std::collections::BTreeMap;

/// A count for each name, 0 for those that were never added.
#[derive(Drop)]
pub(crate) struct Counts {
    pub(crate) words: BTreeMap<Name, u64>,
    ghost small: { (q : ℕ) → count_at (get nat_cmp words) q < 2 ^ 64 },
}

impl Counts {
    ghost use Rattle.object_memory.specs.Counts.{count_in};

    pub(crate) fn new(alloc: Global) -> Counts
        ensures { (q : ℕ) → count_in result q ≡ 0 }
    {
        Counts {
            words: BTreeMap::new(alloc),
        }
    }

    pub(crate) fn of(&self, name: Name) -> u64
        ensures { result ≡ count_in self.now name }
    {
        self.words.get(&name).copied().unwrap_or(0)
    }

    fn put(&mut self, name: Name, count: u64) -> Result<(), AllocError>
        ensures { OnOk result ((q : ℕ) → count_in self.new q ≡ (if name == q then count else count_in self.old q)) }
    {
        self.words.insert(name, count)?;
        Ok(())
    }

    /// One more for this name.
    pub(crate) fn add(&mut self, name: Name) -> Result<(), AllocError>
        requires { count_in self.old name + 1 < 2 ^ 64 }
        ensures { OnOk result ((q : ℕ) → count_in self.new q ≡ count_in self.old q + (if name == q then 1 else 0)) }
    {
        self.put(name, self.of(name) + 1)
    }

    /// One more for this name, if there is one.
    pub(crate) fn add_some(&mut self, name: Option<Name>) -> Result<(), AllocError>
        requires { (q : ℕ) → count_in self.old q + 1 < 2 ^ 64 }
        ensures { OnOk result ((q : ℕ) → count_in self.new q ≡ count_in self.old q + (if is_pinned q name then 1 else 0)) }
    {
        match name {
            Some(name) => self.add(name),
            None => Ok(()),
        }
    }

    /// One less for this name. Gives its count then.
    pub(crate) fn lower(&mut self, name: Name) -> u64
        requires { 0 < count_in self.old name }
        ensures value { result ≡ count_in self.new name }
        ensures lower { (q : ℕ) → count_in self.new q + (if name == q then 1 else 0) ≡ count_in self.old q }
    {
        let Some(count) = self.words.get_mut(&name) else {
            unreachable!()
        };
        *count -= 1;
        *count
    }
}
