// Whether two images are the same.
ghost use Rattle.std.specs.Prelude.{◌≡◌, ◌↔◌, false, IsTrue};
ghost use Rattle.image_format.specs.Rules.{object_of_rec};
ghost use Rattle.st80_objects.specs.Images.{objects_of};
ghost use Rattle.st80_objects.specs.Rising.{IsRising};
ghost use Rattle.st80_show.specs.Same.{HasSame, IsSameImage};

use image_format::ImageHead;
use long_names::{Body, Rec, Values};
use st80_objects::Image;

/// Whether two lists have the same values.
fn are_same(a: &Values, b: &Values) -> bool
    ensures { IsTrue result ↔ (a.now ≡ b.now) }
{
    if a.len() != b.len() {
        return false;
    }
    for i in 0..a.len() {
        if *a.item(i) != *b.item(i) {
            return false;
        }
    }
    true
}

fn is_same_body(a: &Body, b: &Body) -> bool
    ensures { IsTrue result ↔ (a.now ≡ b.now) }
{
    match a {
        Body::Pointers(values) => match b {
            Body::Pointers(others) => are_same(values, others),
            Body::Words(_) | Body::Bytes(_) | Body::Method { .. } => false,
        },
        Body::Words(words) => match b {
            Body::Words(others) => words.words() == others.words(),
            Body::Pointers(_) | Body::Bytes(_) | Body::Method { .. } => false,
        },
        Body::Bytes(octets) => match b {
            Body::Bytes(others) => octets.bytes() == others.bytes(),
            Body::Pointers(_) | Body::Words(_) | Body::Method { .. } => false,
        },
        Body::Method {
            header,
            literals,
            code,
        } => match b {
            Body::Method {
                header: other_header,
                literals: other_literals,
                code: other_code,
            } => {
                *header == *other_header
                    && are_same(literals, other_literals)
                    && code.bytes() == other_code.bytes()
            }
            Body::Pointers(_) | Body::Words(_) | Body::Bytes(_) => false,
        },
    }
}

/// Whether two records have the same object. Counts aren't compared: they follow from the objects.
pub(crate) fn is_same_object(a: &Rec, b: &Rec) -> bool
    ensures { IsTrue result ↔ (object_of_rec a.now ≡ object_of_rec b.now) }
{
    a.class == b.class && is_same_body(&a.body, &b.body)
}

/// Whether each object of an image is one of another under its name.
fn has_same(image: &Image, other: &Image) -> bool
    ensures same { IsTrue result → HasSame (objects_of image.now) (objects_of other.now) }
    ensures other { result ≡ false → HasSame (objects_of image.now) (objects_of other.now) → ⊥ }
    ensures rising { IsRising (objects_of image.now) }
{
    for rec in image.objects.all() {
        match other.find(rec.name) {
            Some(found) => {
                if !is_same_object(rec, found) {
                    return false;
                }
            }
            None => return false,
        }
    }
    true
}

fn is_same_head(a: &ImageHead, b: &ImageHead) -> bool
    ensures { IsTrue result ↔ (a.now ≡ b.now) }
{
    *a == *b
}

/// Whether two images have the same head, and the same objects under the same names.
pub fn is_same_image(a: &Image, b: &Image) -> bool
    ensures { IsTrue result ↔ IsSameImage a.now b.now }
{
    if !is_same_head(&a.head, &b.head) {
        return false;
    }
    if !has_same(a, b) {
        return false;
    }
    has_same(b, a)
}
