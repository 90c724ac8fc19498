// The bytes of an image, record by record.
ghost use Rattle.std.specs.Prelude.{◌≡◌, ◌<◌, ◌≤◌, [], length, drop, IfErr, IfOk};
ghost use Rattle.image_format.specs.Faults.{told};
ghost use Rattle.image_format.specs.Heads.{head_at};
ghost use Rattle.image_format.specs.Reading.{name_at};
ghost use Rattle.image_format.specs.Rules.{next_record_at};
ghost use Rattle.st80_objects.specs.Inside.{IsHalted, name_in, objects_at};
ghost use Rattle.st80_objects.specs.Inside as inside;

use crate::fault::{ImageFault, fault_at};
use crate::objects::Objects;
use image_format::{
    Break, HEAD_LEN, ImageHead, Opening, STATE_LEN, STATE_VERSION, decode_rec, read_head,
};
use long_names::{Name, Rec};
use std::alloc::Global;

/// The head of an image, and the offset of its first record.
pub(crate) fn read_whole_head(bytes: &[u8]) -> Result<(ImageHead, usize), Break>
    ensures head { IfOk result (λ x. head_at bytes.now ≡ Ok (x.0, drop x.1 bytes.now)) }
    ensures within { IfOk result (λ x. x.1 ≤ length bytes.now) }
    ensures broken { IfErr result (λ b. told (length bytes.now) (head_at bytes.now) ≡ Err b) }
{
    let head = read_head(bytes)?;
    let start = if head.opening.version == STATE_VERSION {
        HEAD_LEN + STATE_LEN
    } else {
        HEAD_LEN
    };
    Ok((head, start))
}

/// The name that bytes begin with, if they begin with one.
#[tactic(auto, unfolding(image_format::specs::Reading::name_at, image_format::specs::Reading::number_at, image_format::specs::Reading::octets_at))]
fn front_name(bytes: &[u8]) -> Option<Name>
    ensures { result ≡ name_in (name_at 4 bytes.now) }
{
    if bytes.len() < 4 {
        return None;
    }
    let (front, _) = bytes.split_at(4);
    Name::new(u32::from_be_bytes([front[0], front[1], front[2], front[3]]))
}

/// Whether bytes begin with a name that isn't above the one before it and below the next name.
fn is_out_of_order(bytes: &[u8], last: u32, next: u32) -> bool
    ensures { result ≡ inside.is_out_of_order last next (name_in (name_at 4 bytes.now)) }
{
    match front_name(bytes) {
        Some(name) => !(last < name.get() && name.get() < next),
        None => false,
    }
}

/// A rule that breaks at this offset.
fn broken(rule: u8, place: usize) -> ImageFault
    ensures { result ≡ inside.broken_at rule place }
{
    ImageFault::Broken(Break {
        rule,
        place: place as u64,
    })
}

/// The record that begins at this offset, whose name lies between the last and the next, and the offset behind it. Its name is judged before the rest of it.
fn read_record(
    alloc: Global,
    bytes: &[u8],
    start: usize,
    last: u32,
    next: u32,
) -> Result<(Rec, usize), ImageFault>
    requires { start ≤ length bytes.now }
    ensures read { IfOk result (λ x. next_record_at last next (drop start bytes.now) ≡ Ok (x.0, drop x.1 bytes.now)) }
    ensures above { IfOk result (λ x. last < x.0.name) }
    ensures within { IfOk result (λ x. x.1 ≤ length bytes.now) }
    ensures fault { IfErr result (IsHalted (length bytes.now) (next_record_at last next (drop start bytes.now))) }
{
    let (_, rest) = bytes.split_at(start);
    if is_out_of_order(rest, last, next) {
        return Err(broken(4, start));
    }
    match decode_rec(alloc, rest) {
        Ok((rec, len)) => Ok((rec, start + len)),
        Err(fault) => Err(fault_at(start, fault)),
    }
}

/// The objects that stand from an offset to the end.
pub(crate) fn read_objects(
    alloc: Global,
    bytes: &[u8],
    start: usize,
    opening: &Opening,
) -> Result<Objects, ImageFault>
    requires { start ≤ length bytes.now }
    ensures read { IfOk result (λ objects. objects_at opening.now (drop start bytes.now) ≡ Ok (objects, [])) }
    ensures fault { IfErr result (IsHalted (length bytes.now) (objects_at opening.now (drop start bytes.now))) }
{
    let mut objects = Objects::new(alloc);
    let mut at = start;
    'records: for _ in 0..opening.objects {
        let (rec, behind) = read_record(alloc, bytes, at, objects.last_name(), opening.next)?;
        objects.push(rec)?;
        at = behind;
    }
    if at < bytes.len() {
        return Err(broken(9, at));
    }
    Ok(objects)
}
