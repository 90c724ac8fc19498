// Records in Work. A record's eight count bytes are the link of the pending names there.
ghost use Rattle.std.specs.Prelude.{◌≡◌, ◌≢◌, ◌<◌, ◌≤◌, ◌^◌, ◌+◌, ◌++◌, ℕ, List, length, take, drop, slice_index, IsTrue, IfOk, IfErr, OnOk, MatchResult, Option};
ghost use Rattle.byteorder.specs.Endian.{big_number};
ghost use Rattle.long_names.specs.Names.{IsLongName};
ghost use Rattle.loom_host.specs.Bytes.{window};
ghost use Rattle.loom_host.specs.declared.outside.DiskFault.TheVariants.{Damaged};
ghost use Rattle.object_record.specs.Buffer.{HasRecord, long_at, raw_of, word_at};
ghost use Rattle.object_record.specs.Inside.{end_stated};
ghost use Rattle.object_record.specs.Raw.{IsRawRecord, RawRecord, with_name};
ghost use Rattle.loom_host.specs.Work.{IsWorkOnly, IsWorkRead, work_of, IsWorkFault};
ghost use Rattle.work_space.specs.Blocks.{AreFew, link_at};
ghost use Rattle.work_space.specs.Space.{IsSpace, from_of};
ghost use Rattle.disk_objects.specs.Disk.{IsSizeClass, IsLaid, link_to, record_size, with_count};
ghost use Rattle.disk_objects.specs.Inside.{IsHead, IsHeadFault, IsLinkFault, IsRecordFault, IsSizedHead, IsStoreFault, Stores, Touches, Writes, linked, size_stated_in};

use byteorder::{BigEndian, ByteOrder};
use long_names::{LONGEST_RECORD, Name};
use loom_host::{DiskFault, Host, Role};
use object_record::{CONTENTS_AT, COUNT_AT, KIND_AT, LITERALS_AT, RecordBuf, SIZE_AT};
use work_space::{LAST_END, Space, size_class_of};

// How many bytes of a record are read before it is known how many it has, or written at once with a link: more than most records have.
const FRONT_BYTES: usize = 256;

/// What the first bytes of a record say.
#[derive(Clone, Copy)]
pub(crate) struct Head {
    pub(crate) link: u64,
    pub(crate) size: u64,
    // the size class of its block
    pub(crate) class: u8,
}

// The fault of a call on Work that has just failed.
pub(crate) fn failed<H: Host>(host: &H) -> DiskFault
    ensures { result ≡ DiskFault.Work (H.faults host.now Role.Work) }
{
    DiskFault::Work {
        count: host.fault_count(Role::Work),
    }
}

#[inline(always)]
fn word_at(bytes: &[u8], at: usize) -> u16
    requires { at + 2 ≤ length bytes.now }
    ensures { result ≡ word_at bytes.now at }
{
    u16::from_be_bytes([bytes[at], bytes[at + 1]])
}

fn long_at(bytes: &[u8], at: usize) -> u32
    requires { at + 4 ≤ length bytes.now }
    ensures { result ≡ long_at bytes.now at }
{
    u32::from_be_bytes([bytes[at], bytes[at + 1], bytes[at + 2], bytes[at + 3]])
}

// How many bytes a record has before its zeros, by its first bytes.
#[inline(always)]
fn end_of(bytes: &[u8]) -> u64
    requires { length bytes.now ≡ LITERALS_AT }
    ensures end { result ≡ end_stated bytes.now }
    ensures most { result < 2 ^ 35 }
{
    let size = u64::from(word_at(bytes, SIZE_AT));
    match word_at(bytes, KIND_AT) {
        0 => CONTENTS_AT as u64 + 4 * size,
        1 => CONTENTS_AT as u64 + 2 * size,
        2 => CONTENTS_AT as u64 + size,
        _ => LITERALS_AT as u64 + 4 * u64::from(long_at(bytes, CONTENTS_AT)) + size,
    }
}

// How many bytes a record has, by its first bytes.
#[inline(always)]
fn size_of(bytes: &[u8]) -> u64
    requires { length bytes.now ≡ LITERALS_AT }
    ensures { result ≡ size_stated_in bytes.now }
{
    let end = end_of(bytes);
    end + (4 - end % 4) % 4
}

// What the first bytes of the record at a place say. Damage is told about a name.
#[inline(always)]
fn parse(bytes: &[u8], place: u64, name: Name) -> Result<Head, DiskFault>
    requires { length bytes.now ≡ LITERALS_AT }
    ensures link { IfOk result (λ head. head.link ≡ big_number 8 (take 8 (drop COUNT_AT bytes.now))) }
    ensures size { IfOk result (λ head. head.size ≡ size_stated_in bytes.now) }
    ensures sized { IfOk result IsSizedHead }
    ensures fault { IfErr result (λ fault. (fault ≡ Damaged place name) × (LONGEST_RECORD < size_stated_in bytes.now)) }
{
    let size = size_of(bytes);
    if size > LONGEST_RECORD as u64 {
        return Err(DiskFault::Damaged {
            place,
            name: name.get(),
        });
    }
    Ok(Head {
        link: BigEndian::read_u64(&bytes[COUNT_AT..KIND_AT]),
        size,
        class: size_class_of(size).unwrap(),
    })
}

// Reads the first bytes of the record at a place. Damage is told about a name.
pub(crate) fn read_head<H: Host>(host: &mut H, place: u64, name: Name) -> Result<Head, DiskFault>
    ensures head { IsTrue (H.tells Role.Work) → IfOk result (IsHead (work_of H.Host host.old) place) }
    ensures sized { IfOk result IsSizedHead }
    ensures read { IsWorkRead H.Host host.old host.new }
    ensures fault { IfErr result (IsHeadFault (work_of H.Host host.old) (H.tells Role.Work) (H.faults host.old Role.Work) (H.faults host.new Role.Work) place name) }
{
    let mut bytes = [0; LITERALS_AT];
    match host.read_at(place, &mut bytes) {
        Ok(()) => parse(&bytes, place, name),
        Err(_) => Err(failed(host)),
    }
}

// Reads so many bytes at a place to the front of a piece.
fn fill<H: Host>(host: &mut H, place: u64, size: usize, bytes: &mut [u8]) -> Result<(), DiskFault>
    requires { size ≤ length bytes.old }
    ensures bytes { IsTrue (H.tells Role.Work) → OnOk result (bytes.new ≡ window (work_of H.Host host.old) place size ++ drop size bytes.old) }
    ensures fits { (k : ℕ) → slice_index bytes.new k < 256 }
    ensures len { length bytes.new ≡ length bytes.old }
    ensures read { IsWorkRead H.Host host.old host.new }
    ensures fault { IfErr result (IsWorkFault (H.faults host.old Role.Work) (H.faults host.new Role.Work)) }
{
    match host.read_at(place, &mut bytes[..size]) {
        Ok(()) => Ok(()),
        Err(_) => Err(failed(host)),
    }
}

// Reads the front of a record at a place, and what its first bytes say. Damage is told about a name.
fn read_front<H: Host>(
    host: &mut H,
    place: u64,
    name: Name,
    front: &mut [u8],
) -> Result<Head, DiskFault>
    requires { length front.old ≡ FRONT_BYTES }
    ensures front { IsTrue (H.tells Role.Work) → OnOk result (front.new ≡ window (work_of H.Host host.old) place FRONT_BYTES) }
    ensures fits { (k : ℕ) → slice_index front.new k < 256 }
    ensures len { length front.new ≡ FRONT_BYTES }
    ensures size { IsTrue (H.tells Role.Work) → IfOk result (λ head. head.size ≡ size_stated_in (window (work_of H.Host host.old) place LITERALS_AT)) }
    ensures sized { IfOk result IsSizedHead }
    ensures read { IsWorkRead H.Host host.old host.new }
    ensures fault { IfErr result (IsHeadFault (work_of H.Host host.old) (H.tells Role.Work) (H.faults host.old Role.Work) (H.faults host.new Role.Work) place name) }
{
    match host.read_at(place, front) {
        Ok(()) => parse(&front[..LITERALS_AT], place, name),
        Err(_) => Err(failed(host)),
    }
}

// Puts so many bytes at a place to the front of a piece, of which the first were read.
#[inline(always)]
fn fetch<H: Host>(
    host: &mut H,
    place: u64,
    size: usize,
    front: &[u8],
    bytes: &mut [u8],
) -> Result<(), DiskFault>
    requires room { size ≤ length bytes.old }
    requires len { length front.now ≡ FRONT_BYTES }
    ensures bytes { IsTrue (H.tells Role.Work) → front.now ≡ window (work_of H.Host host.old) place FRONT_BYTES →
        OnOk result (bytes.new ≡ window (work_of H.Host host.old) place size ++ drop size bytes.old) }
    ensures fits { (k : ℕ) → slice_index bytes.new k < 256 }
    ensures len { length bytes.new ≡ length bytes.old }
    ensures read { IsWorkRead H.Host host.old host.new }
    ensures fault { IfErr result (IsWorkFault (H.faults host.old Role.Work) (H.faults host.new Role.Work)) }
{
    if size <= FRONT_BYTES {
        bytes[..size].copy_from_slice(&front[..size]);
        return Ok(());
    }
    fill(host, place, size, bytes)
}

// Reads the record of a name into a buffer: in one read, where it is no longer than its front.
pub(crate) fn read_record<H: Host>(
    host: &mut H,
    place: u64,
    name: Name,
    buf: &mut RecordBuf,
) -> Result<(), DiskFault>
    ensures record { OnOk result (HasRecord buf.new × ((raw_of buf.new).name ≡ name)) }
    ensures told { IsTrue (H.tells Role.Work) → (raw : RawRecord) (link : ℕ) → IsRawRecord raw → raw.name ≡ name →
        IsLaid (work_of H.Host host.old) place raw link →
        MatchResult result (λ _. with_count (raw_of buf.new) 0 ≡ with_count raw 0) (IsWorkFault (H.faults host.old Role.Work) (H.faults host.new Role.Work)) }
    ensures read { IsWorkRead H.Host host.old host.new }
    ensures fault { IfErr result (IsRecordFault (H.faults host.old Role.Work) (H.faults host.new Role.Work) place name) }
{
    let mut front = [0; FRONT_BYTES];
    let head = read_front(host, place, name, &mut front)?;
    fetch(host, place, head.size as usize, &front, buf.space())?;
    if !buf.is_record(name) {
        return Err(DiskFault::Damaged {
            place,
            name: name.get(),
        });
    }
    Ok(())
}

// The name that a link is to, None for 0. Damage is told about a name.
#[inline(always)]
fn parse_link(link: u64, place: u64, name: Name) -> Result<Option<Name>, DiskFault>
    ensures link { IfOk result (λ next. link ≡ link_to next) }
    ensures fault { IfErr result (λ fault. (fault ≡ Damaged place name) × (link ≢ 0) × (IsLongName link → ⊥)) }
{
    if link == 0 {
        return Ok(None);
    }
    if link <= u64::from(u32::MAX) {
        if let Some(next) = Name::new(link as u32) {
            return Ok(Some(next));
        }
    }
    Err(DiskFault::Damaged {
        place,
        name: name.get(),
    })
}

// Reads the link of the record at a place. Damage is told about a name.
pub(crate) fn read_link<H: Host>(
    host: &mut H,
    place: u64,
    name: Name,
) -> Result<Option<Name>, DiskFault>
    requires { place ≤ LAST_END }
    ensures link { IsTrue (H.tells Role.Work) → IfOk result (λ next. link_at (work_of H.Host host.old) (place + COUNT_AT) ≡ link_to next) }
    ensures read { IsWorkRead H.Host host.old host.new }
    ensures fault { IfErr result (IsLinkFault (link_at (work_of H.Host host.old) (place + COUNT_AT)) (H.tells Role.Work) (H.faults host.old Role.Work) (H.faults host.new Role.Work) place name) }
{
    let mut bytes = [0; 8];
    match host.read_at(place + COUNT_AT as u64, &mut bytes) {
        Ok(()) => parse_link(BigEndian::read_u64(&bytes), place, name),
        Err(_) => Err(failed(host)),
    }
}

// Writes the link of the record at a place.
pub(crate) fn write_link<H: Host>(host: &mut H, place: u64, link: u64) -> Result<(), DiskFault>
    requires { place ≤ LAST_END }
    ensures link { IsTrue (H.tells Role.Work) → OnOk result (link_at (work_of H.Host host.new) (place + COUNT_AT) ≡ link) }
    ensures touches { IsTrue (H.tells Role.Work) → OnOk result (Touches (work_of H.Host host.old) (work_of H.Host host.new) (place + COUNT_AT) 8) }
    ensures work { IsWorkOnly H.Host host.old host.new }
    ensures fault { IfErr result (IsWorkFault (H.faults host.old Role.Work) (H.faults host.new Role.Work)) }
{
    let mut bytes = [0; 8];
    BigEndian::write_u64(&mut bytes, link);
    write(host, place + COUNT_AT as u64, &bytes)
}

#[inline(always)]
fn write<H: Host>(host: &mut H, place: u64, bytes: &[u8]) -> Result<(), DiskFault>
    ensures here { IsTrue (H.tells Role.Work) → OnOk result (window (work_of H.Host host.new) place (length bytes.now) ≡ bytes.now) }
    ensures touches { IsTrue (H.tells Role.Work) → OnOk result (Touches (work_of H.Host host.old) (work_of H.Host host.new) place (length bytes.now)) }
    ensures work { IsWorkOnly H.Host host.old host.new }
    ensures fault { IfErr result (IsWorkFault (H.faults host.old Role.Work) (H.faults host.new Role.Work)) }
{
    match host.write_at(place, bytes) {
        Ok(()) => Ok(()),
        Err(_) => Err(failed(host)),
    }
}

// Puts the bytes of a record to the front of a piece, and this link where they have their count.
#[inline(always)]
fn link_front(front: &mut [u8], bytes: &[u8], link: u64)
    requires size { KIND_AT ≤ length bytes.now }
    requires room { length bytes.now ≤ length front.old }
    ensures bytes { take (length bytes.now) front.new ≡ linked bytes.now link }
    ensures len { length front.new ≡ length front.old }
{
    front[..bytes.len()].copy_from_slice(bytes);
    BigEndian::write_u64(&mut front[COUNT_AT..KIND_AT], link);
}

// Writes a record that is no longer than a front to a place, in one write, with this link where it has its count.
fn write_front<H: Host>(host: &mut H, place: u64, bytes: &[u8], link: u64) -> Result<(), DiskFault>
    requires size { KIND_AT ≤ length bytes.now }
    requires short { length bytes.now ≤ FRONT_BYTES }
    ensures here { IsTrue (H.tells Role.Work) → OnOk result (window (work_of H.Host host.new) place (length bytes.now) ≡ linked bytes.now link) }
    ensures touches { IsTrue (H.tells Role.Work) → OnOk result (Touches (work_of H.Host host.old) (work_of H.Host host.new) place (length bytes.now)) }
    ensures work { IsWorkOnly H.Host host.old host.new }
    ensures fault { IfErr result (IsWorkFault (H.faults host.old Role.Work) (H.faults host.new Role.Work)) }
{
    let mut front = [0; FRONT_BYTES];
    link_front(&mut front, bytes, link);
    write(host, place, &front[..bytes.len()])
}

// Writes the buffer's record to a place, and this link where a record has its count: in one write, where it is no longer than a front.
pub(crate) fn write_record<H: Host>(
    host: &mut H,
    place: u64,
    buf: &RecordBuf,
    link: u64,
) -> Result<(), DiskFault>
    requires record { HasRecord buf.now }
    requires place { place ≤ LAST_END }
    ensures writes { IsTrue (H.tells Role.Work) → OnOk result (Writes (work_of H.Host host.old) (work_of H.Host host.new) place (raw_of buf.now) link) }
    ensures work { IsWorkOnly H.Host host.old host.new }
    ensures fault { IfErr result (IsWorkFault (H.faults host.old Role.Work) (H.faults host.new Role.Work)) }
{
    let bytes = buf.bytes();
    if bytes.len() <= FRONT_BYTES {
        return write_front(host, place, bytes, link);
    }
    write(host, place, bytes)?;
    write_link(host, place, link)
}

// Gives the record of a name at a place another name, and puts this link where a record has its count. The buffer is for the record.
pub(crate) fn rename_record<H: Host>(
    host: &mut H,
    place: u64,
    name: Name,
    other: Name,
    link: u64,
    buf: &mut RecordBuf,
) -> Result<(), DiskFault>
    requires place { place ≤ LAST_END }
    ensures renamed { IsTrue (H.tells Role.Work) → (raw : RawRecord) (old : ℕ) → IsRawRecord raw → raw.name ≡ name →
        IsLaid (work_of H.Host host.old) place raw old →
        MatchResult result (λ _. Writes (work_of H.Host host.old) (work_of H.Host host.new) place (with_name raw other) link) (IsWorkFault (H.faults host.old Role.Work) (H.faults host.new Role.Work)) }
    ensures work { IsWorkOnly H.Host host.old host.new }
    ensures fault { IfErr result (IsRecordFault (H.faults host.old Role.Work) (H.faults host.new Role.Work) place name) }
{
    read_record(host, place, name, buf)?;
    buf.rename(other);
    write_record(host, place, buf, link)
}

// The size class of the block that the buffer's record wants.
#[inline(always)]
pub(crate) fn size_class_for(buf: &RecordBuf) -> u8
    requires { HasRecord buf.now }
    ensures { IsSizeClass result (record_size (raw_of buf.now)) }
{
    size_class_of(buf.bytes().len() as u64).unwrap()
}

// Takes a block for the buffer's record, writes it there with this link, and answers the place.
pub(crate) fn store<H: Host>(
    space: &mut Space,
    host: &mut H,
    buf: &RecordBuf,
    link: u64,
) -> Result<u64, DiskFault>
    requires { HasRecord buf.now }
    ensures stores { IsTrue (H.tells Role.Work) → (laid : List ℕ) (out : ℕ → Option ℕ) → IsSpace space.old (work_of H.Host host.old) laid out →
        IfOk result (Stores space.old space.new (work_of H.Host host.old) (work_of H.Host host.new) laid out (raw_of buf.now) link) }
    ensures sound { IsTrue (H.tells Role.Work) → (laid : List ℕ) (out : ℕ → Option ℕ) → IsSpace space.old (work_of H.Host host.old) laid out →
        AreFew laid → from_of space.old < 2 ^ 61 → IfErr result (IsWorkFault (H.faults host.old Role.Work) (H.faults host.new Role.Work)) }
    ensures from { from_of space.new ≡ from_of space.old }
    ensures work { IsWorkOnly H.Host host.old host.new }
    ensures fault { IfErr result (IsStoreFault space.old (raw_of buf.now) (H.faults host.old Role.Work) (H.faults host.new Role.Work)) }
{
    let place = space.take(host, size_class_for(buf))?;
    if place > LAST_END {
        return Err(DiskFault::Damaged { place, name: 0 });
    }
    write_record(host, place, buf, link)?;
    Ok(place)
}
