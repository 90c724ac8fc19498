// The links of free blocks: 8 bytes of Work, the highest first.
ghost use Rattle.std.specs.Prelude.{◌≡◌, ◌<◌, ◌^◌, IsTrue, IfOk, IfErr, OnOk};
ghost use Rattle.byteorder.specs.Endian.{big_bytes};
ghost use Rattle.loom_host.specs.Bytes.{overwritten};
ghost use Rattle.loom_host.specs.Outside.{holds};
ghost use Rattle.work_space.specs.Blocks.{link_at};
ghost use Rattle.loom_host.specs.Work.{IsWorkRead, IsWorkWritten, IsWorkFault, work_of};

use byteorder::{BigEndian, ByteOrder};
use loom_host::{DiskFault, Host, Role};

/// Reads the link at a place of Work.
#[tactic(auto, unfolding(crate::specs::Blocks::link_at))]
#[inline(always)]
pub(crate) fn read_link<H: Host>(host: &mut H, place: u64) -> Result<u64, DiskFault>
    ensures link { IsTrue (H.tells Role.Work) → IfOk result (λ link. link ≡ link_at (work_of H.Host host.old) place) }
    ensures fault { IfErr result (IsWorkFault (H.faults host.old Role.Work) (H.faults host.new Role.Work)) }
    ensures host { IsWorkRead H.Host host.old host.new }
{
    let mut bytes = [0; 8];
    match host.read_at(place, &mut bytes) {
        Ok(()) => Ok(BigEndian::read_u64(&bytes)),
        Err(_) => Err(DiskFault::Work {
            count: host.fault_count(Role::Work),
        }),
    }
}

/// Writes a link to a place of Work.
#[inline(always)]
pub(crate) fn write_link<H: Host>(host: &mut H, place: u64, link: u64) -> Result<(), DiskFault>
    ensures link { IsTrue (H.tells Role.Work) → OnOk result (link_at (work_of H.Host host.new) place ≡ link) }
    ensures written { IsTrue (H.tells Role.Work) →
        OnOk result (H.roles host.new Role.Work ≡ holds (overwritten (work_of H.Host host.old) place (big_bytes 8 link)) (H.roles host.old Role.Work)) }
    ensures fault { IfErr result (IsWorkFault (H.faults host.old Role.Work) (H.faults host.new Role.Work)) }
    ensures host { IsWorkWritten H.Host host.old host.new }
{
    let mut bytes = [0; 8];
    BigEndian::write_u64(&mut bytes, link);
    match host.write_at(place, &bytes) {
        Ok(()) => Ok(()),
        Err(_) => Err(DiskFault::Work {
            count: host.fault_count(Role::Work),
        }),
    }
}
