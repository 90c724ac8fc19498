// Slots, as they stand in Work. What was read is tested before it is believed.
ghost use Rattle.std.specs.Prelude.{◌≡◌, ◌<◌, ℕ, length, IfOk, IfErr, OnOk, OnErr, IsTrue};
ghost use Rattle.loom_host.specs.declared.outside.DiskFault.TheVariants.{Damaged};
ghost use Rattle.work_directory.specs.Inside.{Writes, IsLookCause, IsWriteCause};
ghost use Rattle.work_directory.specs.Slots.{no_slot, spelling, slot_in, slot_at, slot_place, used_slot, IsSpelled, FitsBytes};
ghost use Rattle.loom_host.specs.Work.{work_of, IsWorkOnly, IsWorkRead};

use crate::limits::{PAGE_BYTES, SLOT_BYTES};
use byteorder::{BigEndian, ByteOrder};
use long_names::Name;
use loom_host::{DiskFault, Host, Role};
use probing::BLOCK_SLOTS;

/// What a directory has under a name.
#[derive(Clone, Copy, Debug, PartialEq, Eq)]
pub struct Slot {
    pub name: Name,
    /// The object's count of references.
    pub count: u64,
    /// The byte of Work where its record begins.
    pub place: u64,
}

// The byte of Work where slot `at` begins.
#[inline(always)]
pub(crate) fn place_of(at: u32) -> u64
    ensures { result ≡ slot_place at }
{
    PAGE_BYTES as u64 * u64::from(at / BLOCK_SLOTS)
        + SLOT_BYTES as u64 * u64::from(at % BLOCK_SLOTS)
}

/// The fault that what stands at slot `at` can't be so. It is told about a name.
#[cold]
#[inline(never)]
pub fn damaged(at: u32, name: Name) -> DiskFault
    ensures { result ≡ Damaged (slot_place at) name }
{
    DiskFault::Damaged {
        place: place_of(at),
        name: name.get(),
    }
}

#[inline(always)]
fn spell(slot: &Slot) -> [u8; SLOT_BYTES]
    ensures bytes { result ≡ spelling slot.now }
    ensures fits { FitsBytes slot.now }
    ensures spelled { IsSpelled result }
{
    let Slot { name, count, place } = *slot;
    let mut bytes = [0; SLOT_BYTES];
    BigEndian::write_u32(&mut bytes, name.get());
    BigEndian::write_u64(&mut bytes[8..], count);
    BigEndian::write_u64(&mut bytes[16..], place);
    bytes
}

// The slot that these bytes spell, None for an empty one. Where they spell none, the word in place of the name.
pub(crate) fn parse(bytes: &[u8]) -> Result<Option<Slot>, u32>
    requires size { length bytes.now ≡ SLOT_BYTES }
    ensures slot { IfOk result (λ slot. slot ≡ used_slot (slot_in bytes.now)) }
    ensures spelled { OnOk result (IsSpelled bytes.now) }
    ensures other { OnErr result (IsSpelled bytes.now → ⊥) }
{
    let word = BigEndian::read_u32(bytes);
    if BigEndian::read_u32(&bytes[4..]) != 0 {
        return Err(word);
    }
    let Some(name) = Name::new(word) else {
        return if word == 0 { Ok(None) } else { Err(word) };
    };
    Ok(Some(Slot {
        name,
        count: BigEndian::read_u64(&bytes[8..]),
        place: BigEndian::read_u64(&bytes[16..]),
    }))
}

// The fault of a call on Work that has just failed.
#[cold]
#[inline(never)]
pub(crate) fn failed<H: Host>(host: &H) -> DiskFault
    ensures { result ≡ DiskFault.Work (H.faults host.now Role.Work) }
{
    DiskFault::Work {
        count: host.fault_count(Role::Work),
    }
}

// Reads slot `at`. Damage is told about the name that is sought, and else about the word in place of the slot's name.
#[tactic(auto, unfolding(crate::specs::Slots::slot_at))]
pub(crate) fn look<H: Host>(
    host: &mut H,
    at: u32,
    sought: Option<Name>,
) -> Result<Option<Slot>, DiskFault>
    ensures slot { IfOk result (λ slot. IsTrue (H.tells Role.Work) → slot ≡ used_slot (slot_at (work_of H.Host host.old) at)) }
    ensures read { IsWorkRead H.Host host.old host.new }
    ensures cause { IfErr result (IsLookCause H.Host host.old host.new at sought) }
{
    let mut bytes = [0; SLOT_BYTES];
    if host.read_at(place_of(at), &mut bytes).is_err() {
        return Err(failed(host));
    }
    match parse(&bytes) {
        Ok(slot) => Ok(slot),
        Err(word) => Err(DiskFault::Damaged {
            place: place_of(at),
            name: match sought {
                Some(name) => name.get(),
                None => word,
            },
        }),
    }
}

// Writes slot `at`.
pub(crate) fn put<H: Host>(host: &mut H, at: u32, slot: &Slot) -> Result<(), DiskFault>
    ensures writes { OnOk result (IsTrue (H.tells Role.Work) → (n : ℕ) → at < n → Writes (work_of H.Host host.old) (work_of H.Host host.new) n at slot.now) }
    ensures work { IsWorkOnly H.Host host.old host.new }
    ensures cause { IfErr result (IsWriteCause H.Host host.old host.new) }
{
    write(host, at, &spell(slot))
}

// Empties slot `at`.
#[inline(always)]
pub(crate) fn clear<H: Host>(host: &mut H, at: u32) -> Result<(), DiskFault>
    ensures writes { OnOk result (IsTrue (H.tells Role.Work) → (n : ℕ) → at < n → Writes (work_of H.Host host.old) (work_of H.Host host.new) n at no_slot) }
    ensures work { IsWorkOnly H.Host host.old host.new }
    ensures cause { IfErr result (IsWriteCause H.Host host.old host.new) }
{
    write(host, at, &[0; SLOT_BYTES])
}

#[inline(always)]
fn write<H: Host>(host: &mut H, at: u32, bytes: &[u8]) -> Result<(), DiskFault>
    requires size { length bytes.now ≡ SLOT_BYTES }
    requires spelled { IsSpelled bytes.now }
    ensures writes { OnOk result (IsTrue (H.tells Role.Work) → (n : ℕ) → at < n → Writes (work_of H.Host host.old) (work_of H.Host host.new) n at (slot_in bytes.now)) }
    ensures work { IsWorkOnly H.Host host.old host.new }
    ensures cause { IfErr result (IsWriteCause H.Host host.old host.new) }
{
    match host.write_at(place_of(at), bytes) {
        Ok(()) => Ok(()),
        Err(_) => Err(failed(host)),
    }
}
