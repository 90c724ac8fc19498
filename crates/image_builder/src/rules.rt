// What an object breaks by itself.
ghost use Rattle.std.specs.Prelude.{◌≡◌, ◌↔◌, ◌<◌, ◌^◌, IsTrue, All, IfNone, Some, None, if◌then◌else◌};
ghost use Rattle.std.specs.List.{list_all};
ghost use Rattle.long_names.specs.Words.{IsSmallInteger, IsValue};
ghost use Rattle.long_names.specs.Objects.{HasSize, HasRange, IsBody, IsObject};
ghost use Rattle.long_names.specs.Names.{IsLongName};
ghost use Rattle.long_names.specs.declared.object.Body.TheVariants.{Method};
ghost use Rattle.image_builder.specs.Rules as rules;
ghost use Rattle.image_builder.specs.Sizes.{Fits};

use image_format::{FEWEST_OBJECTS, LOWEST_NEXT, MOST_OBJECTS};
use long_names::{
    Body, MOST_CODE, Name, Object, Octets, SMALL_INTEGERS, Value, Values, literal_count,
};

/// Whether a head may state so many objects and this next name.
pub(crate) fn is_head(objects: usize, next: u32) -> bool
    ensures { rules.head_breaks objects next ≡ (if result then None else Some (3, 0)) }
{
    (FEWEST_OBJECTS as usize..=MOST_OBJECTS as usize).contains(&objects)
        && next >= LOWEST_NEXT
        && next % 2 == 0
}

fn is_small(number: i16) -> bool
    ensures is { result ≡ rules.is_small number }
    ensures small { IsTrue result ↔ IsSmallInteger number }
{
    let limit = SMALL_INTEGERS as i16;
    (-limit..limit).contains(&number)
}

/// Whether a field may hold the value: a name, or a SmallInteger in range.
fn is_field(value: Value) -> bool
    ensures is { result ≡ rules.is_field value }
    ensures value { IsTrue result → IsValue value }
{
    match value {
        Value::Int(number) => is_small(number),
        Value::Ref(name) => {
            // The word of a name is one.
            let _word = name.get();
            true
        }
    }
}

fn are_fields(values: &Values) -> bool
    ensures are { result ≡ list_all rules.is_field values.now }
    ensures values { IsTrue result → All IsValue values.now }
{
    for i in 0..values.len() {
        if !is_field(*values.item(i)) {
            return false;
        }
    }
    true
}

/// Whether the header is in range, it says how many literals there are, and the code is not too long.
fn is_method(header: i16, literals: &Values, code: &Octets) -> bool
    ensures is { result ≡ rules.is_method header literals.now code.now }
    ensures size { IsTrue result → HasSize (Method header literals.now code.now) }
{
    code.len() <= MOST_CODE as usize && is_small(header) && literal_count(header) == literals.len()
}

fn judge_fields(values: &Values) -> Option<u8>
    ensures rule { result ≡ rules.fields_break values.now }
    ensures values { IfNone result (All IsValue values.now) }
{
    if are_fields(values) { None } else { Some(6) }
}

fn judge_body(body: &Body) -> Option<u8>
    requires { Fits body.now }
    ensures rule { result ≡ rules.body_breaks body.now }
    ensures body { IfNone result (IsBody body.now) }
{
    match body {
        Body::Pointers(values) => judge_fields(values),
        Body::Words(_) | Body::Bytes(_) => None,
        Body::Method {
            header,
            literals,
            code,
        } => {
            if is_method(*header, literals, code) {
                judge_fields(literals)
            } else {
                Some(7)
            }
        }
    }
}

/// A hint for the prover, as the two below: words have 16 bits by their type.
fn have_16_bits(_words: &[u16])
    ensures { All (λ w. w < 2 ^ 16) _words.now }
{}

fn have_8_bits(_bytes: &[u8])
    ensures { All (λ b. b < 2 ^ 8) _bytes.now }
{}

fn is_in_range(body: &Body)
    ensures { HasRange body.now }
{
    match body {
        Body::Pointers(_) => {}
        Body::Words(words) => have_16_bits(words.words()),
        Body::Bytes(bytes) => have_8_bits(bytes.bytes()),
        Body::Method { code, .. } => have_8_bits(code.bytes()),
    }
}

/// The first rule that an object breaks as its record is read, if it breaks one.
pub(crate) fn judge_record(name: Name, object: &Object, next: u32) -> Option<u8>
    requires { Fits object.now.body }
    ensures rule { result ≡ rules.record_breaks next name object.now }
    ensures entry { IfNone result (IsLongName name × IsObject object.now) }
{
    // A hint for the prover: the class is a name.
    let _class = object.class.get();
    is_in_range(&object.body);
    if name.get() < next {
        judge_body(&object.body)
    } else {
        Some(4)
    }
}
