// How much of an image is to be read.
ghost use Rattle.std.specs.Prelude.{◌≡◌, ◌+◌, ◌*◌, ◌≤◌, ◌<◌, ◌^◌, ℕ, List, All, IfOk, IsErr, IsSome, length, take};
ghost use Rattle.image_format.specs.Faults.{told};
ghost use Rattle.image_format.specs.Heads.{head_at};
ghost use Rattle.long_names.specs.declared.limits.TheConstants.{LONGEST_RECORD};
ghost use Rattle.image_reader.specs.Loaded.{full_of};
ghost use Rattle.image_front.specs.Front.{TellsOf};

use image_format::{HEAD_LEN, STATE_LEN, read_head};
use long_names::LONGEST_RECORD;

/// So many bytes have the head of an image of either version.
pub const FRONT: u64 = (HEAD_LEN + STATE_LEN) as u64;

/// How many bytes of an image tell what the whole is, which has this length and begins with these 36: these alone, where they break a rule or
/// state more objects than there is room for; and else no more than so many objects can have, and four behind them.
pub fn telling_len(front: &[u8], room: u32, len: u64) -> u64
    requires { FRONT ≤ len }
    ensures tells { (whole : List ℕ) → length whole ≡ len → take FRONT whole ≡ front.now → All (λ b. b < 2 ^ 8) (take result whole) → TellsOf room (take result whole) whole }
    ensures within { (FRONT ≤ result) × (result ≤ len) }
    ensures roomy { result ≤ LONGEST_RECORD * room + (FRONT + 4) }
    ensures full { IsSome (full_of room front.now) → result ≡ FRONT }
    ensures broken { IsErr (told (length front.now) (head_at front.now)) → result ≡ FRONT }
    ensures close { IfOk (told (length front.now) (head_at front.now)) (λ head. result ≤ LONGEST_RECORD * head.opening.objects + (FRONT + 4)) }
{
    let Ok(head) = read_head(front) else {
        return FRONT;
    };
    let objects = head.opening.objects;
    if objects > room {
        return FRONT;
    }
    len.min(LONGEST_RECORD as u64 * objects as u64 + (FRONT + 4))
}
