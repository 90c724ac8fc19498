// How many words hold each name.
ghost use Rattle.std.specs.Prelude.{◌≡◌, ◌+◌, ◌<◌, ◌^◌, ◌==◌, ℕ, OnOk, count_by, length, if◌then◌else◌};
ghost use Rattle.std.specs.Ordering.{nat_cmp};
ghost use Rattle.std.specs.BTreeMap.{get};
ghost use Rattle.std.specs.Map.{count_at};
ghost use Rattle.long_names.specs.declared.limits.TheConstants.{MOST_FIELDS};

use long_names::{Body, Name, Object, Value, Values};
use std::alloc::{AllocError, Global};
use std::collections::BTreeMap;

/// A count for each name, 0 for those that no word holds.
#[derive(Drop)]
pub(crate) struct Counts {
    words: BTreeMap<Name, u64>,
    ghost small: { (q : ℕ) → count_at (get nat_cmp words) q < 2 ^ 64 },
}

impl Counts {
    ghost use Rattle.long_names.specs.Objects.{is_ref, holdings, IsBody};
    ghost use Rattle.image_builder.specs.Parts.{count_in};

    pub(crate) fn new(alloc: Global) -> Counts
        ensures { (q : ℕ) → count_in result q ≡ 0 }
    {
        Counts {
            words: BTreeMap::new(alloc),
        }
    }

    pub(crate) fn of(&self, name: Name) -> u64
        ensures { result ≡ count_in self.now name }
    {
        self.words.get(&name).copied().unwrap_or(0)
    }

    fn put(&mut self, name: Name, count: u64) -> Result<(), AllocError>
        ensures { OnOk result ((q : ℕ) → count_in self.new q ≡ (if name == q then count else count_in self.old q)) }
    {
        self.words.insert(name, count)?;
        Ok(())
    }

    /// One more for this name.
    fn add(&mut self, name: Name) -> Result<(), AllocError>
        requires { count_in self.old name + 1 < 2 ^ 64 }
        ensures { OnOk result ((q : ℕ) → count_in self.new q ≡ count_in self.old q + (if name == q then 1 else 0)) }
    {
        self.put(name, self.of(name) + 1)
    }

    /// Counts the names among values.
    fn add_values(&mut self, values: &Values) -> Result<(), AllocError>
        requires { (q : ℕ) → count_in self.old q + length values.now < 2 ^ 64 }
        ensures { OnOk result ((q : ℕ) → count_in self.new q ≡ count_in self.old q + count_by (is_ref q) values.now) }
    {
        for i in 0..values.len() {
            if let Value::Ref(name) = *values.item(i) {
                self.add(name)?;
            }
        }
        Ok(())
    }

    /// Counts the words of an object: its class word, and its fields.
    pub(crate) fn add_object(&mut self, object: &Object) -> Result<(), AllocError>
        requires room { (q : ℕ) → count_in self.old q + (MOST_FIELDS + 1) < 2 ^ 64 }
        requires body { IsBody object.now.body }
        ensures { OnOk result ((q : ℕ) → count_in self.new q ≡ count_in self.old q + holdings object.now q) }
    {
        self.add(object.class)?;
        match &object.body {
            Body::Pointers(values) => self.add_values(values),
            Body::Method { literals, .. } => self.add_values(literals),
            Body::Words(_) | Body::Bytes(_) => Ok(()),
        }
    }
}
