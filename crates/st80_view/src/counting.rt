// What holds what, and how much there is of it.
use crate::view::View;
use long_names::{Body, Name, Rec, Value, Values};
use std::alloc::{AllocError, Global};

/// The part of an object that holds another.
#[derive(Clone, Copy, Debug, PartialEq, Eq)]
pub enum Part {
    Class,
    Field(usize),
    Literal(usize),
}

/// A word of an image that holds an object.
#[derive(Clone, Copy, Debug, PartialEq, Eq)]
pub struct Hold {
    pub holder: Name,
    pub part: Part,
}

/// How many objects a class has, and how many bytes of the image they take.
#[derive(Clone, Copy, Debug, PartialEq, Eq)]
pub struct ClassCount {
    pub class: Name,
    pub objects: u64,
    pub bytes: u64,
}

/// How many bytes the record of an object takes in an image.
pub fn record_size(rec: &Rec) -> u64 {
    let contents = match &rec.body {
        Body::Pointers(values) => (values.len() as u64).saturating_mul(4),
        Body::Words(words) => (words.len() as u64).saturating_mul(2),
        Body::Bytes(octets) => octets.len() as u64,
        Body::Method { literals, code, .. } => (literals.len() as u64)
            .saturating_mul(4)
            .saturating_add(8)
            .saturating_add(code.len() as u64),
    };
    contents.saturating_add(23) / 4 * 4
}

/// The part that field or literal i is.
pub(crate) fn part_of(body: &Body, i: usize) -> Part {
    match body {
        Body::Method { .. } => Part::Literal(i),
        Body::Pointers(_) | Body::Words(_) | Body::Bytes(_) => Part::Field(i),
    }
}

/// The fields of an object, or its literals, if it has any.
pub(crate) fn fields_of(body: &Body) -> Option<&Values> {
    match body {
        Body::Pointers(values) => Some(values),
        Body::Method { literals, .. } => Some(literals),
        Body::Words(_) | Body::Bytes(_) => None,
    }
}

/// Adds the words of an object that hold another.
fn add_holds(holds: &mut Vec<Hold>, rec: &Rec, held: Name) -> Result<(), AllocError> {
    if rec.class == held {
        holds.push(Hold {
            holder: rec.name,
            part: Part::Class,
        })?;
    }
    let Some(fields) = fields_of(&rec.body) else {
        return Ok(());
    };
    for i in 0..fields.len() {
        if *fields.item(i) == Value::Ref(held) {
            holds.push(Hold {
                holder: rec.name,
                part: part_of(&rec.body, i),
            })?;
        }
    }
    Ok(())
}

impl View {
    /// The words that hold an object, by rising name of the holder.
    pub fn holders(&self, alloc: Global, held: Name) -> Result<Vec<Hold>, AllocError> {
        let mut holds = Vec::new(alloc);
        for rec in self.image.objects.all() {
            add_holds(&mut holds, rec, held)?;
        }
        Ok(holds)
    }

    /// How many words hold each object, by its place. A name that no object has isn't counted.
    pub fn words_held(&self, alloc: Global) -> Result<Vec<u64>, AllocError> {
        let mut counts = vec![in alloc; 0u64; self.image.objects.len()]?;
        for rec in self.image.objects.all() {
            self.count_name(&mut counts, rec.class);
            if let Some(fields) = fields_of(&rec.body) {
                self.count_fields(&mut counts, fields);
            }
        }
        Ok(counts)
    }

    fn count_fields(&self, counts: &mut Vec<u64>, fields: &Values) {
        for i in 0..fields.len() {
            if let Value::Ref(name) = *fields.item(i) {
                self.count_name(counts, name);
            }
        }
    }

    fn count_name(&self, counts: &mut Vec<u64>, name: Name) {
        if let Some(place) = self.image.objects.place(name) {
            if let Some(count) = counts.get_mut(place) {
                *count = count.saturating_add(1);
            }
        }
    }

    /// The classes that objects have, with how many: those with most objects first, and of equal ones by rising name.
    pub fn class_counts(&self, alloc: Global) -> Result<Vec<ClassCount>, AllocError> {
        let mut sums = vec![in alloc; (0u64, 0u64); self.image.objects.len()]?;
        for rec in self.image.objects.all() {
            if let Some(place) = self.image.objects.place(rec.class) {
                add_sum(&mut sums, place, record_size(rec));
            }
        }
        let mut counts = Vec::new(alloc);
        for (i, (objects, bytes)) in sums.iter().enumerate() {
            if let Some(rec) = self.image.objects.at(i) {
                if *objects > 0 {
                    counts.push(ClassCount {
                        class: rec.name,
                        objects: *objects,
                        bytes: *bytes,
                    })?;
                }
            }
        }
        counts.sort_by_key(|count| u64::MAX - count.objects)?;
        Ok(counts)
    }

    /// The objects whose records are longest, at most so many, the longest first, and of equal ones by rising name.
    pub fn largest(&self, alloc: Global, most: usize) -> Result<Vec<(Name, u64)>, AllocError> {
        let mut sizes = Vec::new(alloc);
        for rec in self.image.objects.all() {
            sizes.push((rec.name, record_size(rec)))?;
        }
        sizes.sort_by_key(|size| u64::MAX - size.1)?;
        sizes.truncate(most);
        Ok(sizes)
    }
}

/// Adds an object of so many bytes at a place.
fn add_sum(sums: &mut Vec<(u64, u64)>, place: usize, bytes: u64) {
    if let Some(sum) = sums.get_mut(place) {
        sum.0 = sum.0.saturating_add(1);
        sum.1 = sum.1.saturating_add(bytes);
    }
}
