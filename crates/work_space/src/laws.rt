//! What holds of blocks whatever a caller keeps in them.
ghost use Rattle.std.specs.Prelude.{◌≡◌, ◌≢◌, ◌+◌, ◌<◌, ◌≤◌, ◌^◌, ◌⊎◌, ℕ, List, length, Option, Some, None};
ghost use Rattle.loom_host.specs.Bytes.{overwritten};
ghost use Rattle.work_space.specs.declared.space.Space.{Space};
ghost use Rattle.work_space.specs.Blocks.{block_size, laid_at, times, AreApart, AreFew};
ghost use Rattle.work_space.specs.Space.{IsSpace, from_of, end_of};

use crate::limits::SIZE_CLASSES;

/// The blocks that are out lie between the first place and the end, and no two have a byte in common.
pub fn blocks_lie_apart()
    ensures within { (s : Space) (work laid : List ℕ) (out : ℕ → Option ℕ) → IsSpace s work laid out → (p c : ℕ) → out p ≡ Some c →
        (from_of s ≤ p) × (p + block_size c ≤ end_of s) × (c < SIZE_CLASSES) }
    ensures apart { (s : Space) (work laid : List ℕ) (out : ℕ → Option ℕ) → IsSpace s work laid out →
        (p c q d : ℕ) → out p ≡ Some c → out q ≡ Some d → p ≢ q → AreApart p c q d }
{}

/// Each block is out, or else stands exactly once on the free list of its size class.
pub fn each_block_is_out_or_free()
    ensures { (s : Space) (work laid : List ℕ) (out : ℕ → Option ℕ) → (b : IsSpace s work laid out) → (p c : ℕ) →
        laid_at (from_of s) laid p ≡ Some c → (out p ≡ Some c) ⊎ ((out p ≡ None) × (times p (b.free c) ≡ 1)) }
{}

/// What is written before the first block, or into a block that is out, leaves all blocks as they are.
pub fn writes_keep_blocks()
    ensures before { (s : Space) (work laid : List ℕ) (out : ℕ → Option ℕ) → IsSpace s work laid out → (at : ℕ) (bytes : List ℕ) →
        at + length bytes ≤ from_of s → IsSpace s (overwritten work at bytes) laid out }
    ensures inside { (s : Space) (work laid : List ℕ) (out : ℕ → Option ℕ) → IsSpace s work laid out → (p c at : ℕ) (bytes : List ℕ) →
        out p ≡ Some c → p ≤ at → at + length bytes ≤ p + block_size c → IsSpace s (overwritten work at bytes) laid out }
{}

/// Few blocks end soon behind the first place, and Work doesn't end behind them.
pub fn few_blocks_end_soon()
    ensures { (s : Space) (work laid : List ℕ) (out : ℕ → Option ℕ) → IsSpace s work laid out → AreFew laid →
        (length work ≤ end_of s) × (end_of s ≤ from_of s + 2 ^ 52) }
{}
