// The head of the image, and whether there is room for what it states.
ghost use Rattle.std.specs.Prelude.{◌≡◌, ◌+◌, ◌≤◌, ◌<◌, ◌^◌, None, Ok, All, IfOk, IfErr, OnOk, length, drop};
ghost use Rattle.image_format.specs.Heads.{head_at};
ghost use Rattle.image_format.specs.declared.head.TheConstants.{MOST_OBJECTS};
ghost use Rattle.image_reader.specs.Inside as inside;
ghost use Rattle.image_reader.specs.Inside.{IsHeadFault};
ghost use Rattle.image_reader.specs.Loaded.{full_of};

use crate::fault::LoadFault;
use crate::window::Window;
use image_format::{
    HEAD_LEN, ImageHead, Opening, STATE_LEN, STATE_VERSION, read_head, read_opening,
};
use loom_host::DiskFault;

/// How many bytes the head of this version has.
fn head_len(opening: &Opening) -> usize
    ensures { result ≡ inside.head_len opening.now }
{
    if opening.version == STATE_VERSION {
        HEAD_LEN + STATE_LEN
    } else {
        HEAD_LEN
    }
}

/// The head that the bytes begin with, or the first rule that it breaks. Where it states more objects than there is room for, the rules
/// behind its first 16 bytes aren't judged.
fn judge_head(bytes: &[u8], room: u32) -> Result<ImageHead, LoadFault>
    ensures read { IfOk result (λ h. head_at bytes.now ≡ Ok (h, drop (inside.head_len h.opening) bytes.now)) }
    ensures len { IfOk result (λ h. inside.head_len h.opening ≤ length bytes.now) }
    ensures fits { IfOk result (λ h. (h.opening.objects ≤ room) × (h.opening.objects ≤ MOST_OBJECTS)) }
    ensures roomy { OnOk result (full_of room bytes.now ≡ None) }
    ensures fault { IfErr result (IsHeadFault room bytes.now) }
    ensures range { All (λ b. b < 2 ^ 8) bytes.now }
{
    let opening = read_opening(bytes)?;
    let held = opening.objects;
    if held > room {
        return Err(LoadFault::Disk(DiskFault::Full { held, room }));
    }
    let head = read_head(bytes)?;
    Ok(head)
}

/// Takes the head that the file begins with from the window.
pub(crate) fn take_head(window: &mut Window, room: u32) -> Result<ImageHead, LoadFault>
    requires start { window.old.place ≡ 0 }
    ensures read { IfOk result (λ h. head_at window.old.bytes ≡ Ok (h, window.new.bytes)) }
    ensures fits { IfOk result (λ h. (h.opening.objects ≤ room) × (h.opening.objects ≤ MOST_OBJECTS)) }
    ensures roomy { OnOk result (full_of room window.old.bytes ≡ None) }
    ensures place { OnOk result (window.new.place ≤ 36) }
    ensures end { OnOk result (window.new.place + length window.new.bytes ≡ length window.old.bytes) }
    ensures ended { window.new.ended ≡ window.old.ended }
    ensures fault { IfErr result (IsHeadFault room window.old.bytes) }
    ensures range { All (λ b. b < 2 ^ 8) window.old.bytes }
{
    let head = judge_head(window.bytes(), room)?;
    window.skip(head_len(&head.opening));
    Ok(head)
}
