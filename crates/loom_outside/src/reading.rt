// Reading a file in order.
ghost use Rattle.std.specs.Prelude.{◌≡◌, ◌≤◌, [], Some, IfSome, length, min};
ghost use Rattle.std.specs.Option.{option_map};
ghost use Rattle.loom_outside.specs.Files.{names, contents, bytes_at, newest};
ghost use Rattle.loom_host.specs.Outside.{Took};
ghost use Rattle.loom_outside.specs.Reading.{Stands, reading};

use crate::files::{self, File};
use crate::reader::Reader;

// At most so many of the bytes that are left go to the front of the buffer.
pub fn take(files: &[File], reader: &mut Reader, most: usize, buf: &mut [u8]) -> usize
    requires { Stands (contents files.now) reader.old }
    ensures moved { result ≡ min (length buf.old) (min most (length (reading (names files.now) (contents files.now) reader.old).left)) }
    ensures took { Took result buf.new (reading (names files.now) (contents files.now) reader.old) (reading (names files.now) (contents files.now) reader.new) }
    ensures stays { (reader.new.file ≡ reader.old.file) × (reader.new.end ≡ reader.old.end) }
{
    let bytes = &files[reader.file].bytes;
    let n = buf.len().min(most).min(reader.end - reader.taken);
    buf[..n].copy_from_slice(&bytes[reader.taken..reader.taken + n]);
    reader.taken += n;
    n
}

// The start of the last file of this name.
pub fn open(files: &[File], name: &[u8]) -> Option<Reader>
    ensures stands { IfSome result (Stands (contents files.now)) }
    ensures name { IfSome result (λ r. (reading (names files.now) (contents files.now) r).name ≡ Some name.now) }
    ensures taken { IfSome result (λ r. (reading (names files.now) (contents files.now) r).taken ≡ []) }
    ensures left { option_map (λ r. (reading (names files.now) (contents files.now) r).left) result ≡ option_map (bytes_at (contents files.now)) (newest (names files.now) name.now) }
{
    let file = files::find(files, name)?;
    Some(Reader {
        file,
        taken: 0,
        end: files[file].bytes.len(),
    })
}
