// Whole pieces, by as many calls as the host needs.
ghost use Rattle.std.specs.Prelude.{◌≡◌, ◌+◌, ◌<◌, ◌≤◌, ℕ, IsTrue, IfOk, IsOk, OnOk, OnErr, length, take, min};
ghost use Rattle.loom_host.specs.Outside.{RoleState, SameBut, HasCause, CanRead, CanWrite, Took, TookSome, PutPrefix, puts};

use crate::{Failed, Host, Role};

/// Fills the buffer, or less exactly where the end came, and says how many bytes it took. For an
/// empty buffer it makes no call.
pub fn read_full<H: Host>(host: &mut H, role: Role, buf: &mut [u8]) -> Result<usize, Failed>
    requires { CanRead role }
    ensures bound { IfOk result (λ n. n ≤ length buf.old) }
    ensures took { IsTrue (H.tells role) → IfOk result (λ n. Took n buf.new (H.roles host.old role) (H.roles host.new role)) }
    ensures full { IsTrue (H.tells role) → IfOk result (λ n. n ≡ min (length buf.old) (length (H.roles host.old role).left)) }
    ensures failed { IsTrue (H.tells role) → OnErr result (TookSome (length buf.old) (H.roles host.old role) (H.roles host.new role)) }
    ensures empty { length buf.old ≡ 0 → (host.new ≡ host.old) × IfOk result (λ n. n ≡ 0) × IsOk result }
    ensures others { SameBut role (H.roles host.old) (H.roles host.new) }
    ensures work { H.roles host.new Role.Work ≡ H.roles host.old Role.Work }
    ensures other_faults { SameBut role (H.faults host.old) (H.faults host.new) }
    ensures writes { H.writes host.new ≡ H.writes host.old }
    ensures cause { HasCause (H.faults host.old role) (H.faults host.new role) result }
{
    let mut done = 0;
    while done < buf.len() {
        let n = host.read(role, &mut buf[done..])?;
        if n == 0 {
            break;
        }
        done += n;
    }
    Ok(done)
}

/// Puts the whole piece. Where that failed, some of its first bytes may have been put. For an empty
/// piece it makes no call, and so ends nothing.
pub fn write_full<H: Host>(host: &mut H, role: Role, buf: &[u8]) -> Result<(), Failed>
    requires { CanWrite role }
    ensures put { IsTrue (H.tells role) → OnOk result (H.roles host.new role ≡ puts buf.now (H.roles host.old role)) }
    ensures failed { IsTrue (H.tells role) → OnErr result (PutPrefix buf.now (H.roles host.old role) (H.roles host.new role)) }
    ensures empty { length buf.now ≡ 0 → (host.new ≡ host.old) × IsOk result }
    ensures others { SameBut role (H.roles host.old) (H.roles host.new) }
    ensures work { H.roles host.new Role.Work ≡ H.roles host.old Role.Work }
    ensures other_faults { SameBut role (H.faults host.old) (H.faults host.new) }
    ensures writes { H.writes host.new ≡ H.writes host.old }
    ensures cause { HasCause (H.faults host.old role) (H.faults host.new role) result }
{
    let mut done = 0;
    while done < buf.len() {
        done += host.write(role, &buf[done..])?;
    }
    Ok(())
}
