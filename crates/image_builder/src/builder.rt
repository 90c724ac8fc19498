// A builder of images.
ghost use Rattle.std.specs.Prelude.{◌≡◌, ◌<◌, ◌^◌, ◌==◌, ◌++◌, ℕ, [], All, IsOkAnd, IfOk, OnOk, OnErr, Some, None, if◌then◌else◌, length, is_some, map};
ghost use Rattle.std.specs.BTreeMap.{insert_entry};
ghost use Rattle.std.specs.List.{list_all, sum_by};
ghost use Rattle.std.specs.Ordering.{nat_cmp};
ghost use Rattle.long_names.specs.Objects.{IsBody};
ghost use Rattle.long_names.specs.Heap.{count_of};
ghost use Rattle.image_format.specs.Text.{head_text, image_text};
ghost use Rattle.image_format.specs.Valid.{IsImageHeap};
ghost use Rattle.object_memory.specs.Records.{AreWhole, heap_of_recs, recs_of};
ghost use Rattle.image_builder.specs.Rules.{is_there, held_breaks, count_breaks, missing, first_of, reading_breaks, whole_breaks, first_broken};
ghost use Rattle.image_builder.specs.Sizes.{Fits, IsKept, IsKept-prop};

use crate::counts::Counts;
use crate::fault::{Broken, BuildFault};
use crate::rules::{is_head, judge_record};
use image_format::{Head, encode_object};
use long_names::{Body, Name, Object, Octets, Rec, RecList, Value, Values};
use std::alloc::{AllocError, Global};
use std::collections::BTreeMap;

/// The objects of an image that is being made, under their names. They are added in any order.
#[derive(Drop)]
pub struct Builder {
    objects: BTreeMap<Name, Object>,
    ghost kept: { IsKept objects } by { IsKept-prop objects },
}

impl Builder {
    ghost use Rattle.image_builder.specs.Builder.{objects_of, object_at, built_heap, Tells, IsRefused};
    ghost use Rattle.image_builder.specs.Parts.{IsEntry, found_by, count_in, words_of, rec_with, texts_with};

    /// A builder to which nothing was added. It takes no memory.
    pub fn new(alloc: Global) -> Result<Builder, AllocError>
        ensures { IsOkAnd result (λ builder. objects_of builder ≡ []) }
    {
        Ok(Builder {
            objects: BTreeMap::new(alloc),
        })
    }

    /// Adds an object under its name, in place of the one that the name has. Without memory the builder is as before.
    ///
    /// The condition is that a body of pointers, words or bytes has at most 65,535 of them.
    pub fn add(&mut self, name: Name, class: Name, body: Body) -> Result<(), AllocError>
        requires { Fits body }
        ensures ok { OnOk result ((n : ℕ) → object_at self.new n ≡ (if n == name then Some record { class = class; body = body } else object_at self.old n)) }
        // It stands where its name has its place among the others.
        ensures placed { OnOk result (objects_of self.new ≡ insert_entry nat_cmp (objects_of self.old) name record { class = class; body = body }) }
        ensures err { OnErr result (objects_of self.new ≡ objects_of self.old) }
    {
        self.objects.insert(name, Object { class, body })?;
        Ok(())
    }

    /// Judges the head, and each record as it is read.
    fn judge_reading(&self, next: u32) -> Result<(), Broken>
        ensures broken { found_by result ≡ reading_breaks (objects_of self.now) next }
        ensures entries { OnOk result (All IsEntry (objects_of self.now)) }
    {
        if !is_head(self.objects.len(), next) {
            return Err(Broken { rule: 3, name: 0 });
        }
        for (name, object) in &self.objects {
            if let Some(rule) = judge_record(*name, object, next) {
                return Err(Broken {
                    rule,
                    name: name.get(),
                });
            }
        }
        Ok(())
    }

    fn has(&self, name: Name) -> bool
        ensures { result ≡ is_some (object_at self.now name) }
    {
        self.objects.contains_key(&name)
    }

    /// Whether each name among values has its object.
    fn has_values(&self, values: &Values) -> bool
        ensures { result ≡ list_all (is_there (object_at self.now)) values.now }
    {
        for i in 0..values.len() {
            if let Value::Ref(name) = *values.item(i) {
                if !self.has(name) {
                    return false;
                }
            }
        }
        true
    }

    /// Whether each name that the object holds has its object.
    fn has_held(&self, object: &Object) -> bool
        ensures { (n : ℕ) → held_breaks (object_at self.now) n object.now ≡ (if result then None else Some 10) }
    {
        if !self.has(object.class) {
            return false;
        }
        match &object.body {
            Body::Pointers(values) => self.has_values(values),
            Body::Method { literals, .. } => self.has_values(literals),
            Body::Words(_) | Body::Bytes(_) => true,
        }
    }

    /// Judges that each name that an object holds has its object.
    fn judge_held(&self) -> Result<(), Broken>
        ensures { found_by result ≡ first_of (held_breaks (object_at self.now)) (objects_of self.now) }
    {
        for (name, object) in &self.objects {
            if !self.has_held(object) {
                return Err(Broken {
                    rule: 10,
                    name: name.get(),
                });
            }
        }
        Ok(())
    }

    /// Judges that only known objects are held by nothing.
    fn judge_counts(&self, counts: &Counts) -> Result<(), Broken>
        ensures { found_by result ≡ first_of (count_breaks (count_in counts.now)) (objects_of self.now) }
    {
        for (name, _) in &self.objects {
            if !name.is_known() && counts.of(*name) == 0 {
                return Err(Broken {
                    rule: 11,
                    name: name.get(),
                });
            }
        }
        Ok(())
    }

    /// Judges that the objects of these names are there.
    fn judge_there(&self, names: &[Name]) -> Result<(), Broken>
        ensures { found_by result ≡ missing (object_at self.now) names.now }
    {
        for name in names {
            if !self.has(*name) {
                return Err(Broken {
                    rule: 12,
                    name: name.get(),
                });
            }
        }
        Ok(())
    }

    /// Judges the whole image, with these counts.
    fn judge_whole(&self, counts: &Counts) -> Result<(), Broken>
        ensures { found_by result ≡ whole_breaks (objects_of self.now) (object_at self.now) (count_in counts.now) }
    {
        self.judge_held()?;
        self.judge_counts(counts)?;
        self.judge_there(&Name::known())
    }

    /// How many words of the objects hold each name.
    fn count_words(&self, alloc: Global) -> Result<Counts, AllocError>
        requires bodies { All (λ e. IsBody e.1.body) (objects_of self.now) }
        requires few { length (objects_of self.now) < 2 ^ 32 }
        ensures { IfOk result (λ counts. (q : ℕ) → count_in counts q ≡ sum_by (words_of q) (objects_of self.now)) }
    {
        let mut counts = Counts::new(alloc);
        for (_, object) in &self.objects {
            counts.add_object(object)?;
        }
        Ok(counts)
    }

    /// Judges the objects as an image with this next name, and counts their words.
    fn judge(&self, alloc: Global, next: u32) -> Result<Counts, BuildFault>
        ensures image { OnOk result (IsImageHeap (built_heap self.now next)) }
        ensures counts { IfOk result (λ counts. (q : ℕ) → count_in counts q ≡ count_of (built_heap self.now next) q) }
        ensures broken { Tells result (first_broken (objects_of self.now) (built_heap self.now next)) }
        ensures refused { IsRefused result → IsImageHeap (built_heap self.now next) → ⊥ }
    {
        self.judge_reading(next)?;
        let counts = self.count_words(alloc)?;
        self.judge_whole(&counts)?;
        Ok(counts)
    }

    /// The head, and the texts of the records with these counts.
    fn text(&self, alloc: Global, next: u32, counts: &Counts) -> Result<Octets, AllocError>
        requires bodies { All (λ e. IsBody e.1.body) (objects_of self.now) }
        requires few { length (objects_of self.now) < 2 ^ 32 }
        ensures { IfOk result (λ out. out ≡ head_text (length (objects_of self.now)) next ++ texts_with (count_in counts.now) (objects_of self.now)) }
    {
        let head = Head {
            objects: self.objects.len() as u32,
            next,
        };
        let mut out = Octets::from_slice(alloc, &head.bytes())?;
        for (name, object) in &self.objects {
            encode_object(*name, counts.of(*name), object, &mut out)?;
        }
        Ok(out)
    }

    /// The records with these counts, by rising name.
    fn recs(&self, alloc: Global, counts: &Counts) -> Result<RecList, AllocError>
        ensures { IfOk result (λ recs. recs ≡ map (rec_with (count_in counts.now)) (objects_of self.now)) }
    {
        let mut recs = RecList::new(alloc);
        for (name, object) in &self.objects {
            recs.push(Rec {
                name: *name,
                class: object.class,
                count: counts.of(*name),
                body: object.body.clone()?,
            })?;
        }
        Ok(recs)
    }

    /// The image of the objects that were added, with this next name. The counts are computed.
    ///
    /// `Rule` comes exactly where these objects are no image: it is the first rule that would break in it, as images are read, with the
    /// name of the object that breaks it, of the known object that is missing (rule 12), or 0 where it is the head (rule 3). The builder stays as it is.
    pub fn finish(&self, alloc: Global, next: u32) -> Result<Octets, BuildFault>
        ensures text { IfOk result (λ bytes. bytes ≡ image_text (built_heap self.now next)) }
        ensures image { OnOk result (IsImageHeap (built_heap self.now next)) }
        // It is the first rule that is broken, where one is.
        ensures broken { Tells result (first_broken (objects_of self.now) (built_heap self.now next)) }
        ensures refused { IsRefused result → IsImageHeap (built_heap self.now next) → ⊥ }
    {
        let counts = self.judge(alloc, next)?;
        let text = self.text(alloc, next, &counts)?;
        Ok(text)
    }

    /// The records of that image, for a memory that is made without a file. It is refused as `finish` is.
    pub fn records(&self, alloc: Global, next: u32) -> Result<RecList, BuildFault>
        ensures recs { IfOk result (λ recs. recs ≡ recs_of (built_heap self.now next)) }
        ensures whole { IfOk result (λ recs. AreWhole recs next) }
        ensures heap { IfOk result (λ recs. heap_of_recs recs next ≡ built_heap self.now next) }
        ensures image { OnOk result (IsImageHeap (built_heap self.now next)) }
        ensures broken { Tells result (first_broken (objects_of self.now) (built_heap self.now next)) }
        ensures refused { IsRefused result → IsImageHeap (built_heap self.now next) → ⊥ }
    {
        let counts = self.judge(alloc, next)?;
        let recs = self.recs(alloc, &counts)?;
        Ok(recs)
    }
}
