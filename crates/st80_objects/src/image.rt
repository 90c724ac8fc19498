// An image read whole: what its head states, and its objects.
ghost use Rattle.std.specs.Prelude.{◌≡◌, is_some, option_copied, slice_get, IfErr, IfOk};
ghost use Rattle.image_format.specs.Rules.{rec_in};
ghost use Rattle.st80_objects.specs.Images.{IsFaultOf, IsImageOf, class_in, class_of_value, field_in, name_at_field, number_at_field, objects_of, pointers_in, text_in};

use crate::fault::ImageFault;
use crate::objects::Objects;
use crate::reading::{read_objects, read_whole_head};
use image_format::{ImageHead, State};
use long_names::{Body, Name, Octets, Rec, Value, Values};
use std::alloc::Global;

/// An image: what its head states, and its objects.
#[derive(Debug, Drop)]
pub struct Image {
    pub head: ImageHead,
    pub objects: Objects,
}

impl Image {
    /// Reads an image, or says which of the rules 1 to 9 and 13 its bytes break first, and where. The other rules aren't judged.
    pub fn read(alloc: Global, bytes: &[u8]) -> Result<Image, ImageFault>
        ensures image { IfOk result (IsImageOf bytes.now) }
        ensures fault { IfErr result (IsFaultOf bytes.now) }
    {
        let (head, start) = read_whole_head(bytes)?;
        let objects = read_objects(alloc, bytes, start, &head.opening)?;
        Ok(Image { head, objects })
    }

    /// The machine's state: clock, display, input, timer and tick.
    pub fn state(&self) -> State
        ensures { result ≡ self.now.head.state }
    {
        self.head.state
    }

    /// The object of a name: None exactly where no object has it.
    pub fn find(&self, name: Name) -> Option<&Rec>
        ensures { option_copied result ≡ rec_in (objects_of self.now) name }
    {
        self.objects.find(name)
    }

    /// Whether a name is that of an object.
    pub fn is_there(&self, name: Name) -> bool
        ensures { result ≡ is_some (rec_in (objects_of self.now) name) }
    {
        self.objects.find(name).is_some()
    }

    /// The class of an object.
    pub fn class(&self, name: Name) -> Option<Name>
        ensures { result ≡ class_in (objects_of self.now) name }
    {
        Some(self.find(name)?.class)
    }

    /// The class of a value: that of its object, or SmallInteger.
    pub fn class_of(&self, value: Value) -> Option<Name>
        ensures { result ≡ class_of_value (objects_of self.now) value }
    {
        match value {
            Value::Int(_) => Some(Name::SMALL_INTEGER),
            Value::Ref(name) => self.class(name),
        }
    }

    /// The fields of an object of pointers.
    pub fn pointers(&self, name: Name) -> Option<&Values>
        ensures { option_copied result ≡ pointers_in (objects_of self.now) name }
    {
        match &self.find(name)?.body {
            Body::Pointers(values) => Some(values),
            Body::Words(_) | Body::Bytes(_) | Body::Method { .. } => None,
        }
    }

    /// Field i of an object of pointers.
    pub fn field(&self, name: Name, i: usize) -> Option<Value>
        ensures { result ≡ field_in (objects_of self.now) name i }
    {
        item_of(self.pointers(name)?, i)
    }

    /// Field i of an object of pointers, where that is a name.
    pub fn name_in(&self, name: Name, i: usize) -> Option<Name>
        ensures { result ≡ name_at_field (objects_of self.now) name i }
    {
        self.field(name, i)?.name()
    }

    /// Field i of an object of pointers, where that is a number.
    pub fn number_in(&self, name: Name, i: usize) -> Option<i16>
        ensures { result ≡ number_at_field (objects_of self.now) name i }
    {
        self.field(name, i)?.number()
    }

    /// The bytes of an object of bytes.
    pub fn text(&self, name: Name) -> Option<&Octets>
        ensures { option_copied result ≡ text_in (objects_of self.now) name }
    {
        match &self.find(name)?.body {
            Body::Bytes(octets) => Some(octets),
            Body::Pointers(_) | Body::Words(_) | Body::Method { .. } => None,
        }
    }
}

/// Item i of a list, if it has one.
pub fn item_of(values: &Values, i: usize) -> Option<Value>
    ensures { result ≡ slice_get values.now i }
{
    if i < values.len() {
        Some(*values.item(i))
    } else {
        None
    }
}
