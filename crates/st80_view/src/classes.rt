// Which objects are classes, and whose each method is.
ghost use Rattle.std.specs.Prelude.{◌≡◌, ◌↔◌, IfSome, IsNone, IsTrue};
ghost use Rattle.st80_view.specs.Homes.{IsOwn, IsUnder, homes_of};
ghost use Rattle.st80_view.specs.declared.classes.MethodHome.{MethodHome};
ghost use Rattle.st80_view.specs.Names.{superclass};
ghost use Rattle.st80_view.specs.Viewed.{recs_of};

use crate::view::View;
use long_names::{Body, Name, Rec, Value, Values};
use st80_objects::{Objects, item_of};
use std::alloc::{AllocError, Global};

/// How many superclasses are followed, as a lookup does.
const LONGEST_CHAIN: usize = 1024;

/// The fields of a class: its superclass, its method dictionary, its instance specification, and its name.
pub(crate) const SUPERCLASS: usize = 0;

pub(crate) const DICTIONARY: usize = 1;

pub(crate) const SPECIFICATION: usize = 2;

pub(crate) const CLASS_NAME: usize = 6;

/// The fields of a dictionary that are its tally and its method array, and the first of its slots.
const TALLY: usize = 0;

const METHOD_ARRAY: usize = 1;

const FIRST_SLOT: usize = 2;

/// The classes that every image has.
const KNOWN_CLASSES: [Name; 13] = [
    Name::SMALL_INTEGER,
    Name::STRING,
    Name::ARRAY,
    Name::METHOD_CONTEXT,
    Name::BLOCK_CONTEXT,
    Name::POINT,
    Name::LARGE_POSITIVE_INTEGER,
    Name::DISPLAY_BITMAP,
    Name::MESSAGE,
    Name::COMPILED_METHOD,
    Name::SEMAPHORE,
    Name::CHARACTER,
    Name::LARGE_NEGATIVE_INTEGER,
];

/// Where a method is found: the class in whose dictionary it stands, and under which selector.
#[derive(Clone, Copy, Debug, PartialEq, Eq)]
pub struct MethodHome {
    pub method: Name,
    pub class: Name,
    pub selector: Value,
}

fn pointers_of(objects: &Objects, name: Name) -> Option<&Values> {
    match &objects.find(name)?.body {
        Body::Pointers(values) => Some(values),
        Body::Words(_) | Body::Bytes(_) | Body::Method { .. } => None,
    }
}

fn name_at(objects: &Objects, name: Name, i: usize) -> Option<Name> {
    item_of(pointers_of(objects, name)?, i)?.name()
}

fn is_method(objects: &Objects, name: Name) -> bool {
    match objects.find(name) {
        Some(rec) => matches!(&rec.body, Body::Method { .. }),
        None => false,
    }
}

/// The method in slot i of a dictionary, and its selector, where the slot has both.
fn slot(
    objects: &Objects,
    class: Name,
    slots: &Values,
    array: &Values,
    i: usize,
) -> Option<MethodHome> {
    let selector = item_of(slots, i.saturating_add(FIRST_SLOT))?;
    let method = item_of(array, i)?.name()?;
    if selector == Value::Ref(Name::NIL) || !is_method(objects, method) {
        return None;
    }
    Some(MethodHome {
        method,
        class,
        selector,
    })
}

/// The dictionary of a class, and its method array, where both are pointers and the dictionary has a tally. So no semaphore on which a
/// process waits is taken for a class.
fn dictionary(objects: &Objects, class: Name) -> Option<(&Values, &Values)> {
    let name = name_at(objects, class, DICTIONARY)?;
    let slots = pointers_of(objects, name)?;
    item_of(slots, TALLY)?.number()?;
    let array = item_of(slots, METHOD_ARRAY)?.name()?;
    Some((slots, pointers_of(objects, array)?))
}

/// Adds the methods of an object that has a method dictionary.
fn add_homes(
    objects: &Objects,
    class: Name,
    homes: &mut Vec<MethodHome>,
) -> Result<(), AllocError> {
    let Some((slots, array)) = dictionary(objects, class) else {
        return Ok(());
    };
    for i in 0..array.len() {
        if let Some(home) = slot(objects, class, slots, array, i) {
            homes.push(home)?;
        }
    }
    Ok(())
}

/// Whether an object has the shape of a class: pointers, with a superclass or nil, a dictionary with its method array, and a number.
fn has_class_shape(objects: &Objects, rec: &Rec) -> bool {
    match &rec.body {
        Body::Pointers(values) => {
            matches!(item_of(values, SUPERCLASS), Some(Value::Ref(_)))
                && matches!(item_of(values, SPECIFICATION), Some(Value::Int(_)))
                && dictionary(objects, rec.name).is_some()
        }
        Body::Words(_) | Body::Bytes(_) | Body::Method { .. } => false,
    }
}

/// The methods of all classes, by rising name of the method. One that stands in several dictionaries is there as often.
pub(crate) fn method_homes(
    alloc: Global,
    objects: &Objects,
) -> Result<Vec<MethodHome>, AllocError> {
    let mut homes = Vec::new(alloc);
    for rec in objects.all() {
        if has_class_shape(objects, rec) {
            add_homes(objects, rec.name, &mut homes)?;
        }
    }
    homes.sort_by_key(|home| home.method)?;
    Ok(homes)
}

/// Marks the object of a name.
fn mark(objects: &Objects, marks: &mut Vec<bool>, name: Name) {
    if let Some(place) = objects.place(name) {
        if let Some(is_class) = marks.get_mut(place) {
            *is_class = true;
        }
    }
}

/// Which objects are classes, by their places: those that the machine knows as classes, those that objects have as class, those that such
/// a class has as superclass, and those that have the shape of one.
pub(crate) fn class_marks(alloc: Global, objects: &Objects) -> Result<Vec<bool>, AllocError> {
    let mut marks = vec![in alloc; false; objects.len()]?;
    for class in KNOWN_CLASSES {
        mark(objects, &mut marks, class);
    }
    for rec in objects.all() {
        mark(objects, &mut marks, rec.class);
        if has_class_shape(objects, rec) {
            mark(objects, &mut marks, rec.name);
            if let Some(superclass) = name_at(objects, rec.name, SUPERCLASS) {
                mark(objects, &mut marks, superclass);
            }
        }
    }
    mark_not(objects, &mut marks, Name::NIL);
    Ok(marks)
}

/// Takes the mark of the object of a name away.
fn mark_not(objects: &Objects, marks: &mut Vec<bool>, name: Name) {
    if let Some(place) = objects.place(name) {
        if let Some(is_class) = marks.get_mut(place) {
            *is_class = false;
        }
    }
}

fn is_own(home: &MethodHome, class: Name, selector: &Value) -> bool
    ensures { IsTrue result ↔ IsUnder class selector.now home.now }
{
    home.class == class && home.selector == *selector
}

/// The first of these that a class has under a selector.
fn own_of(homes: &[MethodHome], class: Name, selector: &Value) -> Option<MethodHome>
    ensures home { IfSome result (IsOwn homes.now class selector.now) }
    ensures none { IsNone result → (home : MethodHome) → IsOwn homes.now class selector.now home → ⊥ }
{
    for home in homes {
        if is_own(home, class, selector) {
            return Some(*home);
        }
    }
    None
}

impl View {
    /// Whether an object is a class: known as one, the class of an object or the superclass of a class, or of the shape of one: a superclass or nil, a method dictionary, an instance specification. nil is none.
    pub fn is_class(&self, name: Name) -> bool {
        match self.image.objects.place(name) {
            Some(place) => self.classes.get(place).copied().unwrap_or(false),
            None => false,
        }
    }

    /// The superclass of a class, unless it is nil.
    #[tactic(auto, unfolding(crate::specs::Viewed::image_of))]
    pub fn superclass(&self, class: Name) -> Option<Name>
        ensures { result ≡ superclass (recs_of self.now) class }
    {
        let name = self.image.name_in(class, SUPERCLASS)?;
        if name == Name::NIL { None } else { Some(name) }
    }

    /// The methods of all classes, by rising name of the method.
    #[tactic(auto, unfolding(crate::specs::Homes::homes_of))]
    pub fn methods(&self) -> &[MethodHome]
        ensures { result.now ≡ homes_of self.now }
    {
        &self.methods
    }

    /// Where a method is found first, by rising name of the class.
    pub fn method_home(&self, method: Name) -> Option<MethodHome>
        ensures { IfSome result (λ home. home.method ≡ method) }
    {
        let place = self.methods.partition_point(|home| home.method < method);
        let home = *self.methods.get(place)?;
        if home.method == method {
            Some(home)
        } else {
            None
        }
    }

    /// The method that a class has in its own dictionary under a selector.
    pub fn own_method(&self, class: Name, selector: Value) -> Option<MethodHome>
        ensures home { IfSome result (IsOwn (homes_of self.now) class selector) }
        ensures none { IsNone result → (home : MethodHome) → IsOwn (homes_of self.now) class selector home → ⊥ }
    {
        own_of(self.methods(), class, &selector)
    }

    /// The method that a lookup from a class on finds under a selector whose text is this, or of this number.
    pub fn find_method(&self, class: Name, selector: &[u8]) -> Option<MethodHome> {
        let mut at = class;
        for _ in 0..LONGEST_CHAIN {
            if let Some(home) = self.own_method_named(at, selector) {
                return Some(home);
            }
            at = self.superclass(at)?;
        }
        None
    }

    fn own_method_named(&self, class: Name, selector: &[u8]) -> Option<MethodHome> {
        for home in self.methods.iter() {
            if home.class == class && self.is_selector_named(home.selector, selector) {
                return Some(*home);
            }
        }
        None
    }
}
