// Bytes by their places, in memory.
ghost use Rattle.std.specs.Prelude.{◌≡◌, ◌+◌, ◌-◌, ◌≤◌, ◌<◌, ◌++◌, length, take, drop, replicate, OnOk, OnErr, IsErr, IsOk, vec_capacity};
ghost use Rattle.loom_host.specs.Bytes.{window, overwritten};

use std::alloc::AllocError;

/// Reads what stands from a place on over the whole buffer, and zeros past the end.
pub fn read_bytes_at(bytes: &[u8], place: u64, buf: &mut [u8])
    ensures { buf.new ≡ window bytes.now place (length buf.old) }
{
    copy_window(bytes, place as usize, buf);
}

/// Writes over what stands at a place, and past the end, with zeros between the end and the place. Where there was no memory for that,
/// nothing is written.
pub fn write_bytes_at(bytes: &mut Vec<u8>, place: u64, piece: &[u8]) -> Result<(), AllocError>
    ensures ok { OnOk result (bytes.new.items ≡ overwritten bytes.old.items place piece.now) }
    ensures err { OnErr result (bytes.new.items ≡ bytes.old.items) }
    ensures room { vec_capacity bytes.old ≤ vec_capacity bytes.new }
    ensures succeeds { place + length piece.now ≤ vec_capacity bytes.old → IsOk result }
{
    let at = place as usize;
    let Some(end) = at.checked_add(piece.len()) else {
        return Err(AllocError);
    };
    pad(bytes, end)?;
    overwrite(bytes, at, piece);
    Ok(())
}

// Copies what stands at a place, and zeros past the end.
fn copy_window(from: &[u8], place: usize, buf: &mut [u8])
    ensures { buf.new ≡ take (length buf.old) (drop place from.now) ++ replicate (length buf.old - (length from.now - place)) 0 }
{
    let at = place.min(from.len());
    let n = buf.len().min(from.len() - at);
    let (front, back) = buf.split_at_mut(n);
    front.copy_from_slice(&from[at..at + n]);
    back.fill(0);
}

// Puts zeros behind, up to this end.
fn pad(bytes: &mut Vec<u8>, end: usize) -> Result<(), AllocError>
    ensures ok { OnOk result (bytes.new.items ≡ bytes.old.items ++ replicate (end - length bytes.old.items) 0) }
    ensures err { OnErr result (bytes.new.items ≡ bytes.old.items) }
    ensures room { vec_capacity bytes.old ≤ vec_capacity bytes.new }
    ensures full { IsErr result → vec_capacity bytes.old < end }
{
    if bytes.len() < end {
        bytes.resize(end, 0)?;
    }
    Ok(())
}

// Writes over what stands at a place.
fn overwrite(bytes: &mut Vec<u8>, at: usize, piece: &[u8])
    requires { at + length piece.now ≤ length bytes.old.items }
    ensures bytes { bytes.new.items ≡ take at bytes.old.items ++ (piece.now ++ drop (at + length piece.now) bytes.old.items) }
    ensures room { vec_capacity bytes.new ≡ vec_capacity bytes.old }
{
    bytes[at..at + piece.len()].copy_from_slice(piece);
}
