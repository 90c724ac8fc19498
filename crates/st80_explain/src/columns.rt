//! Where a line of a text breaks the grammar: its parts with their columns.
ghost use Rattle.std.specs.Prelude.{◌≡◌, ◌+◌, ◌<◌, ◌≤◌, length, IfErr, IfSome};
ghost use Rattle.st80_explain.specs.Spots.{IsSpotOf};

use long_names::{Kind, Name};
use text_lines::{
    LONGEST_LINE, byte_in, kind_in, long_in, name_in, number_in, small_in, value_in, word_in,
};

/// The most values, words or bytes of a line.
const MOST_ITEMS: usize = 65_535;

/// What should have stood at a place.
#[derive(Clone, Copy, Debug, PartialEq, Eq)]
pub enum Expected {
    /// The word `loom`.
    Loom,
    /// A number of line 1.
    Number,
    /// The number of an object.
    Name,
    Class,
    Kind,
    Value,
    Word,
    Byte,
    Header,
    /// A literal, or the word `code`.
    LiteralOrCode,
    /// The line's end.
    End,
    /// A newline.
    Newline,
}

/// A place in a line: the column of its first byte, from 1, and how many bytes are meant.
#[derive(Clone, Copy, Debug, PartialEq, Eq)]
pub struct Spot {
    pub column: usize,
    pub len: usize,
    pub expected: Expected,
}

/// The parts of a line, each with its place from 0.
#[derive(Drop)]
pub(crate) struct Places<'a> {
    line: &'a [u8],
    next: Option<usize>,
}

impl<'a> Places<'a> {
    pub(crate) fn new(line: &'a [u8]) -> Places<'a>
        ensures { result.line.now ≡ line.now }
    {
        Places {
            line,
            next: Some(0),
        }
    }

    pub(crate) fn next(&mut self) -> Option<(usize, &'a [u8])>
        ensures within { IfSome result (λ x. x.0 + length x.1.now ≤ length self.old.line.now) }
        ensures line { self.new.line.now ≡ self.old.line.now }
    {
        let at = self.next?;
        let rest = self.line.get(at..)?;
        match rest.iter().position(|b| *b == b' ') {
            Some(len) => {
                self.next = Some(at.saturating_add(len).saturating_add(1));
                Some((at, rest.get(..len).unwrap_or(rest)))
            }
            None => {
                self.next = None;
                Some((at, rest))
            }
        }
    }
}

fn spot_at(at: usize, part: &[u8], expected: Expected) -> Spot
    ensures column { (0 < result.column) × (result.column ≤ at + 1) }
    ensures len { result.len ≡ length part.now }
{
    Spot {
        column: at.saturating_add(1),
        len: part.len(),
        expected,
    }
}

/// The place behind a line.
pub(crate) fn behind(line: &[u8], expected: Expected) -> Spot
    ensures { IsSpotOf (length line.now) result }
{
    Spot {
        column: line.len().saturating_add(1),
        len: 0,
        expected,
    }
}

/// The place of a part by its number from 0.
pub(crate) fn part_spot(line: &[u8], number: usize, expected: Expected) -> Spot
    ensures { IsSpotOf (length line.now) result }
{
    let mut places = Places::new(line);
    'parts: for _ in 0..number {
        let _ = places.next();
    }
    match places.next() {
        Some((at, part)) => spot_at(at, part, expected),
        None => behind(line, expected),
    }
}

/// The place of the first part behind the object's own name that is this name.
pub(crate) fn name_spot(line: &[u8], name: Name) -> Spot
    ensures { IsSpotOf (length line.now) result }
{
    let mut places = Places::new(line);
    let _ = places.next();
    'parts: for _ in 0..line.len() {
        let Some((at, part)) = places.next() else {
            break;
        };
        if name_in(part) == Some(name) {
            return spot_at(at, part, Expected::Name);
        }
    }
    part_spot(line, 0, Expected::Name)
}

fn is_right(part: &[u8], expected: Expected) -> bool {
    match expected {
        Expected::Loom => part == b"loom".as_slice(),
        Expected::Number => long_in(part).is_some(),
        Expected::Name => number_in(part).is_some(),
        Expected::Class => name_in(part).is_some(),
        Expected::Kind => kind_in(part).is_some(),
        Expected::Value | Expected::LiteralOrCode => value_in(part).is_some(),
        Expected::Word => word_in(part).is_some(),
        Expected::Byte => byte_in(part).is_some(),
        Expected::Header => small_in(part).is_some(),
        Expected::End | Expected::Newline => false,
    }
}

/// The next part, where it is what is expected; otherwise where it stands.
fn take<'a>(places: &mut Places<'a>, expected: Expected) -> Result<&'a [u8], Spot>
    ensures spot { IfErr result (IsSpotOf (length places.old.line.now)) }
    ensures line { places.new.line.now ≡ places.old.line.now }
{
    match places.next() {
        Some((at, part)) => {
            if is_right(part, expected) {
                Ok(part)
            } else {
                Err(spot_at(at, part, expected))
            }
        }
        None => Err(behind(places.line, expected)),
    }
}

/// That nothing stands behind the parts that were taken.
fn end(places: &mut Places<'_>) -> Result<(), Spot>
    ensures spot { IfErr result (IsSpotOf (length places.old.line.now)) }
    ensures line { places.new.line.now ≡ places.old.line.now }
{
    match places.next() {
        Some((at, part)) => Err(spot_at(at, part, Expected::End)),
        None => Ok(()),
    }
}

/// That the parts up to the end are these, of which there are at most 65,535.
fn take_items(places: &mut Places<'_>, expected: Expected) -> Result<(), Spot>
    ensures spot { IfErr result (IsSpotOf (length places.old.line.now)) }
    ensures line { places.new.line.now ≡ places.old.line.now }
{
    for count in 0..=places.line.len() {
        match places.next() {
            None => return Ok(()),
            Some((at, part)) => {
                if count >= MOST_ITEMS {
                    return Err(spot_at(at, part, Expected::End));
                }
                if !is_right(part, expected) {
                    return Err(spot_at(at, part, expected));
                }
            }
        }
    }
    Ok(())
}

/// The literals of a method up to its first `code`.
fn take_literals(places: &mut Places<'_>) -> Result<(), Spot>
    ensures spot { IfErr result (IsSpotOf (length places.old.line.now)) }
    ensures line { places.new.line.now ≡ places.old.line.now }
{
    'literals: for _ in 0..=places.line.len() {
        match places.next() {
            None => return Err(behind(places.line, Expected::LiteralOrCode)),
            Some((at, part)) => {
                if part == b"code".as_slice() {
                    return Ok(());
                }
                if !is_right(part, Expected::LiteralOrCode) {
                    return Err(spot_at(at, part, Expected::LiteralOrCode));
                }
            }
        }
    }
    Ok(())
}

fn take_body(places: &mut Places<'_>, kind: Kind) -> Result<(), Spot>
    ensures spot { IfErr result (IsSpotOf (length places.old.line.now)) }
{
    match kind {
        Kind::Pointers => take_items(places, Expected::Value),
        Kind::Words => take_items(places, Expected::Word),
        Kind::Bytes => take_items(places, Expected::Byte),
        Kind::Method => {
            take(places, Expected::Header)?;
            take_literals(places)?;
            take_items(places, Expected::Byte)
        }
    }
}

fn take_head(places: &mut Places<'_>) -> Result<(), Spot>
    ensures spot { IfErr result (IsSpotOf (length places.old.line.now)) }
{
    take(places, Expected::Loom)?;
    'numbers: for _ in 0..6 {
        take(places, Expected::Number)?;
    }
    end(places)
}

fn take_object(places: &mut Places<'_>) -> Result<(), Spot>
    ensures spot { IfErr result (IsSpotOf (length places.old.line.now)) }
{
    take(places, Expected::Name)?;
    take(places, Expected::Class)?;
    let kind = take(places, Expected::Kind)?;
    match kind_in(kind) {
        Some(kind) => take_body(places, kind),
        None => Ok(()),
    }
}

/// The place of what was found, or of the first byte that a line has too many.
fn spot_of(line: &[u8], found: Result<(), Spot>) -> Spot
    requires { IfErr found (IsSpotOf (length line.now)) }
    ensures { IsSpotOf (length line.now) result }
{
    match found {
        Err(spot) => spot,
        Ok(()) => Spot {
            column: line.len().min(LONGEST_LINE).saturating_add(1),
            len: line.len().saturating_sub(LONGEST_LINE),
            expected: Expected::Newline,
        },
    }
}

/// Where the first line of a text breaks the grammar.
pub(crate) fn head_spot(line: &[u8]) -> Spot
    ensures { IsSpotOf (length line.now) result }
{
    let mut places = Places::new(line);
    let found = take_head(&mut places);
    spot_of(line, found)
}

/// Where the line of an object breaks the grammar.
pub(crate) fn object_spot(line: &[u8]) -> Spot
    ensures { IsSpotOf (length line.now) result }
{
    let mut places = Places::new(line);
    let found = take_object(&mut places);
    spot_of(line, found)
}
