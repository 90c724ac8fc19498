// What objects are called.
ghost use Rattle.std.specs.Prelude.{◌≡◌, is_some, option_copied, IfSome, IsTrue, Some};
ghost use Rattle.image_format.specs.Rules.{rec_in};
ghost use Rattle.st80_view.specs.Names.{first_called, is_class_called, is_metaclass_text, is_text, known_class_name, own_class_name, this_class};
ghost use Rattle.st80_view.specs.Viewed.{recs_of};

use crate::classes::CLASS_NAME;
use crate::view::View;
use long_names::{Body, Name, Octets, Rec, Value};
use st80_objects::{is_number, put_bytes, put_large, put_symbol};
use std::alloc::AllocError;

/// How many bytes of a text are put in one line.
const LONGEST_TEXT: usize = 60;

/// The class that the machine knows by a name.
fn known_class(name: Name) -> Option<&'static str>
    ensures { option_copied result ≡ known_class_name name }
{
    match name.get() {
        12 => Some("SmallInteger"),
        14 => Some("String"),
        16 => Some("Array"),
        22 => Some("MethodContext"),
        24 => Some("BlockContext"),
        26 => Some("Point"),
        28 => Some("LargePositiveInteger"),
        30 => Some("DisplayBitmap"),
        32 => Some("Message"),
        34 => Some("CompiledMethod"),
        38 => Some("Semaphore"),
        40 => Some("Character"),
        58 => Some("LargeNegativeInteger"),
        _ => None,
    }
}

/// What else the machine knows by a name.
fn known_object(name: Name) -> Option<&'static str> {
    match name.get() {
        2 => Some("nil"),
        4 => Some("false"),
        6 => Some("true"),
        8 => Some("the scheduler association"),
        42 => Some("#doesNotUnderstand:"),
        44 => Some("#cannotReturn:"),
        48 => Some("the special selectors"),
        50 => Some("the character table"),
        52 => Some("#mustBeBoolean"),
        _ => None,
    }
}

/// The selector that the machine knows by a name.
fn known_selector(name: Name) -> Option<&'static str> {
    match name.get() {
        42 => Some("doesNotUnderstand:"),
        44 => Some("cannotReturn:"),
        52 => Some("mustBeBoolean"),
        _ => None,
    }
}

/// Whether a word is said with `an` before it.
fn begins_with_vowel(word: &[u8]) -> bool {
    match word {
        [first, ..] => matches!(first.to_ascii_lowercase(), b'a' | b'e' | b'i' | b'o' | b'u'),
        [] => false,
    }
}

/// Puts a text as a symbol, or what stands first in it.
fn put_text(out: &mut String, octets: &Octets) -> Result<(), AllocError> {
    let bytes = octets.bytes();
    match bytes.get(..LONGEST_TEXT) {
        Some(front) if bytes.len() > LONGEST_TEXT => {
            put_symbol(out, front)?;
            out.push_str("..")
        }
        _ => put_symbol(out, bytes),
    }
}

impl View {
    /// The name that a class has in its field 6, where that is a text.
    #[tactic(auto, unfolding(crate::specs::Viewed::image_of))]
    pub fn own_class_name(&self, class: Name) -> Option<&Octets>
        ensures { option_copied result ≡ own_class_name (recs_of self.now) class }
    {
        self.image.text(self.image.name_in(class, CLASS_NAME)?)
    }

    /// The class whose metaclass an object is: its field 6, where that is a class with a name.
    #[tactic(auto, unfolding(crate::specs::Viewed::image_of))]
    pub fn this_class(&self, class: Name) -> Option<Name>
        ensures { result ≡ this_class (recs_of self.now) class }
    {
        let this = self.image.name_in(class, CLASS_NAME)?;
        self.own_class_name(this)?;
        Some(this)
    }

    /// Whether a class has a name: its own, one as a metaclass, a label, or one that the machine knows.
    pub fn has_class_name(&self, class: Name) -> bool {
        self.own_class_name(class).is_some()
            || self.this_class(class).is_some()
            || self.labels.label(class).is_some()
            || known_class(class).is_some()
    }

    /// Puts what a class is called, or its number.
    pub fn put_class_name(&self, out: &mut String, class: Name) -> Result<(), AllocError> {
        if let Some(text) = self.own_class_name(class) {
            return put_bytes(out, text.bytes());
        }
        if let Some(this) = self.this_class(class) {
            self.put_class_name_of(out, this)?;
            return out.push_str(" class");
        }
        self.put_label(out, class)
    }

    /// Puts the name of a class that has one in its field 6.
    fn put_class_name_of(&self, out: &mut String, class: Name) -> Result<(), AllocError> {
        match self.own_class_name(class) {
            Some(text) => put_bytes(out, text.bytes()),
            None => Ok(()),
        }
    }

    /// Puts the label of a class, the name by which the machine knows it, or its number.
    fn put_label(&self, out: &mut String, class: Name) -> Result<(), AllocError> {
        if let Some(label) = self.labels.label(class) {
            return put_bytes(out, label);
        }
        if let Some(word) = known_class(class) {
            return out.push_str(word);
        }
        let number = class.get();
        write!(out, "{number}")
    }

    /// The text of a selector: its bytes, its label, or the one that the machine knows it by.
    pub fn selector_text(&self, selector: Name) -> Option<&[u8]> {
        if let Some(text) = self.image.text(selector) {
            return Some(text.bytes());
        }
        if let Some(label) = self.labels.label(selector) {
            return Some(label);
        }
        match known_selector(selector) {
            Some(word) => Some(word.as_bytes()),
            None => None,
        }
    }

    /// Puts a selector without `#`: its text or its number.
    pub fn put_selector(&self, out: &mut String, selector: Value) -> Result<(), AllocError> {
        match selector {
            Value::Int(number) => write!(out, "{number}"),
            Value::Ref(name) => match self.selector_text(name) {
                Some(text) => put_bytes(out, text),
                None => {
                    let number = name.get();
                    write!(out, "{number}")
                }
            },
        }
    }

    /// Whether a selector has this text, or this number in decimal.
    pub fn is_selector_named(&self, selector: Value, text: &[u8]) -> bool {
        match selector {
            Value::Int(_) => false,
            Value::Ref(name) => match self.selector_text(name) {
                Some(own) => own == text || is_number(name, text),
                None => is_number(name, text),
            },
        }
    }

    /// The class that is called so: by its name, as `X class`, by the machine's name, or by its number, the lowest of several; otherwise by a label. It is an object of the image.
    pub fn find_class(&self, text: &[u8]) -> Option<Name>
        ensures there { IfSome result (λ name. IsTrue (is_some (rec_in (recs_of self.now) name))) }
        ensures called { IfSome (first_called (recs_of self.now) text.now (recs_of self.now)) (λ name. result ≡ Some name) }
    {
        match self.class_called(text) {
            Some(name) => Some(name),
            None => self.class_labelled(text),
        }
    }

    /// The first object that is called so as a class.
    fn class_called(&self, text: &[u8]) -> Option<Name>
        ensures there { IfSome result (λ name. IsTrue (is_some (rec_in (recs_of self.now) name))) }
        ensures first { result ≡ first_called (recs_of self.now) text.now (recs_of self.now) }
    {
        self.first_called(self.image().objects.all(), text)
    }

    /// The first of these objects that is called so.
    fn first_called(&self, recs: &[Rec], text: &[u8]) -> Option<Name>
        ensures { result ≡ first_called (recs_of self.now) text.now recs.now }
    {
        for rec in recs {
            if self.is_class_named(rec.name, text) {
                return Some(rec.name);
            }
        }
        None
    }

    /// The object that has this label.
    #[tactic(auto, unfolding(crate::specs::Viewed::image_of))]
    fn class_labelled(&self, text: &[u8]) -> Option<Name>
        ensures { IfSome result (λ name. IsTrue (is_some (rec_in (recs_of self.now) name))) }
    {
        let name = self.labels.named(text)?;
        if self.image.is_there(name) {
            Some(name)
        } else {
            None
        }
    }

    fn is_class_named(&self, class: Name, text: &[u8]) -> bool
        ensures { result ≡ is_class_called (recs_of self.now) class text.now }
    {
        if is_number(class, text) {
            return true;
        }
        if let Some(own) = self.own_class_name(class) {
            return own.bytes() == text;
        }
        if let Some(this) = self.this_class(class) {
            return self.is_metaclass_named(this, text);
        }
        match known_class(class) {
            Some(word) => word.as_bytes() == text,
            None => false,
        }
    }

    /// Whether a text is the name of a class and ` class`.
    fn is_metaclass_named(&self, this: Name, text: &[u8]) -> bool
        ensures { result ≡ is_metaclass_text (recs_of self.now) this text.now }
    {
        match text.strip_suffix(b" class") {
            Some(front) => self.has_own_name(this, front),
            None => false,
        }
    }

    fn has_own_name(&self, class: Name, text: &[u8]) -> bool
        ensures { result ≡ is_text (own_class_name (recs_of self.now) class) text.now }
    {
        match self.own_class_name(class) {
            Some(own) => own.bytes() == text,
            None => false,
        }
    }

    /// Puts a method as `Class>>selector`, or its number where no dictionary has it.
    pub fn put_method_name(&self, out: &mut String, method: Name) -> Result<(), AllocError> {
        match self.method_home(method) {
            Some(home) => {
                self.put_class_name(out, home.class)?;
                out.push_str(">>")?;
                self.put_selector(out, home.selector)
            }
            None => {
                let number = method.get();
                write!(out, "method {number}")
            }
        }
    }

    /// Puts a value in a few words: `5`, `nil`, `#at:put:`, `class Integer`, `a Point 84`.
    pub fn put_value(&self, out: &mut String, value: Value) -> Result<(), AllocError> {
        match value {
            Value::Int(number) => write!(out, "{number}"),
            Value::Ref(name) => self.put_object(out, name),
        }
    }

    /// Puts an object in a few words, as `put_value` does.
    pub fn put_object(&self, out: &mut String, name: Name) -> Result<(), AllocError> {
        if let Some(word) = known_object(name) {
            return out.push_str(word);
        }
        match self.image.find(name) {
            Some(rec) => self.put_rec(out, rec),
            None => {
                let number = name.get();
                write!(out, "{number}, which is no object")
            }
        }
    }

    fn put_rec(&self, out: &mut String, rec: &Rec) -> Result<(), AllocError> {
        if self.is_class(rec.name) {
            out.push_str("class ")?;
            return self.put_class_name(out, rec.name);
        }
        if let Some(label) = self.labels.label(rec.name) {
            return put_bytes(out, label);
        }
        match &rec.body {
            Body::Bytes(octets) => self.put_octets(out, rec, octets),
            Body::Method { .. } => self.put_method(out, rec.name),
            Body::Pointers(_) | Body::Words(_) => self.put_instance(out, rec),
        }
    }

    fn put_octets(&self, out: &mut String, rec: &Rec, octets: &Octets) -> Result<(), AllocError> {
        if rec.class == Name::LARGE_POSITIVE_INTEGER || rec.class == Name::LARGE_NEGATIVE_INTEGER {
            return put_large(out, octets.bytes(), rec.class);
        }
        put_text(out, octets)
    }

    fn put_method(&self, out: &mut String, method: Name) -> Result<(), AllocError> {
        if self.method_home(method).is_some() {
            out.push_str("method ")?;
        }
        self.put_method_name(out, method)
    }

    /// Puts an object as one of its class.
    fn put_instance(&self, out: &mut String, rec: &Rec) -> Result<(), AllocError> {
        let number = rec.name.get();
        if !self.has_class_name(rec.class) {
            let class = rec.class.get();
            return write!(out, "object {number} of class {class}");
        }
        if self.class_begins_with_vowel(rec.class) {
            out.push_str("an ")?;
        } else {
            out.push_str("a ")?;
        }
        self.put_class_name(out, rec.class)?;
        write!(out, " {number}")
    }

    fn class_begins_with_vowel(&self, class: Name) -> bool {
        let class = self.this_class(class).unwrap_or(class);
        if let Some(text) = self.own_class_name(class) {
            return begins_with_vowel(text.bytes());
        }
        if let Some(label) = self.labels.label(class) {
            return begins_with_vowel(label);
        }
        match known_class(class) {
            Some(word) => begins_with_vowel(word.as_bytes()),
            None => false,
        }
    }
}
