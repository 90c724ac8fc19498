// What a stop loses.
ghost use Rattle.std.specs.Prelude.{◌≡◌, ◌+◌, ◌≤◌, ◌++◌, ◌∷◌, [], length, take, drop, replicate};
ghost use Rattle.checkpoint.specs.Noted.{run_of, spans};
ghost use Rattle.checkpoint.specs.Torn.{torn};

use crate::noted::Range;

// Puts one byte all over a range, as far as the bytes reach.
fn lose_one(bytes: &mut [u8], range: Range, fill: u8)
    ensures { bytes.new ≡ torn (run_of range ∷ []) fill bytes.old }
{
    let from = (range.place as usize).min(bytes.len());
    let n = range.len.min(bytes.len() - from);
    fill_piece(bytes, from, n, fill);
}

fn fill_piece(bytes: &mut [u8], from: usize, n: usize, fill: u8)
    requires { from + n ≤ length bytes.old }
    ensures { bytes.new ≡ take from bytes.old ++ (replicate n fill ++ drop (from + n) bytes.old) }
{
    bytes[from..from + n].fill(fill);
}

// Puts one byte all over these ranges.
pub fn lose(bytes: &mut [u8], ranges: &[Range], fill: u8)
    ensures { bytes.new ≡ torn (spans ranges.now) fill bytes.old }
{
    for range in ranges {
        lose_one(bytes, *range, fill);
    }
}
