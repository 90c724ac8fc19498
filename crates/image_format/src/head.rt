// The head of an image: what it states before its records.
ghost use Rattle.std.specs.Prelude.{◌≡◌, ◌≢◌, ◌↔◌, ◌+◌, ◌≤◌, ℕ, IsTrue, IfSome, IfNone, length, take, drop};
ghost use Rattle.long_names.specs.Record.{four_bytes};
ghost use Rattle.image_format.specs.Text.{IsHead, head_text};

use crate::big_endian::bytes_of_u32;

/// How many bytes the head has: `LOOM`, the version, the object count and the next name.
pub const HEAD_LEN: usize = 16;

/// The version that the head states.
pub const VERSION: u32 = 1;

/// How many objects an image has at least: those that are known.
pub const FEWEST_OBJECTS: u32 = 22;

/// How many objects an image has at most.
pub const MOST_OBJECTS: u32 = 1_048_576;

/// The lowest next name: the known objects' names are below it.
pub const LOWEST_NEXT: u32 = 60;

/// How many objects an image has, and the name that the next new object takes.
#[derive(Clone, Copy, Debug, PartialEq, Eq)]
pub struct Head {
    pub objects: u32,
    pub next: u32,
}

impl Head {
    fn is_in_range(&self) -> bool
        ensures { IsTrue result ↔ IsHead self.now.objects self.now.next }
    {
        (FEWEST_OBJECTS..=MOST_OBJECTS).contains(&self.objects)
            && self.next >= LOWEST_NEXT
            && self.next % 2 == 0
    }

    /// Its bytes.
    pub fn bytes(&self) -> [u8; HEAD_LEN]
        ensures { result ≡ head_text self.now.objects self.now.next }
    {
        let [v0, v1, v2, v3] = bytes_of_u32(VERSION);
        let [o0, o1, o2, o3] = bytes_of_u32(self.objects);
        let [n0, n1, n2, n3] = bytes_of_u32(self.next);
        [
            b'L', b'O', b'O', b'M', v0, v1, v2, v3, o0, o1, o2, o3, n0, n1, n2, n3,
        ]
    }
}

/// The long word at a place.
fn word_at(bytes: &[u8], at: usize) -> u32
    requires { at + 4 ≤ length bytes.now }
    ensures { four_bytes result ≡ take 4 (drop at bytes.now) }
{
    u32::from_be_bytes([bytes[at], bytes[at + 1], bytes[at + 2], bytes[at + 3]])
}

/// Reads the head, and judges each part of it before anything is believed. None exactly where these bytes are the head of no image.
pub fn decode_head(bytes: &[u8]) -> Option<Head>
    requires { length bytes.now ≡ HEAD_LEN }
    ensures head { IfSome result (λ x. (bytes.now ≡ head_text x.objects x.next) × IsHead x.objects x.next) }
    ensures none { IfNone result ((objects next : ℕ) → IsHead objects next → bytes.now ≢ head_text objects next) }
{
    if &bytes[..4] != b"LOOM".as_slice() || word_at(bytes, 4) != VERSION {
        return None;
    }
    let head = Head {
        objects: word_at(bytes, 8),
        next: word_at(bytes, 12),
    };
    if head.is_in_range() { Some(head) } else { None }
}
