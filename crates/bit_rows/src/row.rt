// One row between distinct lists of words. Its words from the first to the last that has a bit to be changed are made whole, by masks
// that are the same for all of them, and then the bits before and behind are put back into these two.
ghost use Rattle.std.specs.Prelude.{◌≡◌, ◌+◌, ◌-◌, ◌*◌, ◌/◌, ◌^◌, ◌<◌, ◌≤◌, ◌⊎◌, ℕ, List, length, min, slice_index, if◌then◌else◌};
ghost use Rattle.long_names.specs.declared.limits.TheConstants.{MOST_FIELDS};
ghost use Rattle.blue_model.specs.Forms.{left_bit, bit};
ghost use Rattle.blue_model.specs.BitBlt.{rule_bit};
ghost use Rattle.bit_rows.specs.Masks.{AreOf};
ghost use Rattle.bit_rows.specs.Rows.{within, row_bit, fill_bit};

use crate::word::{Masks, between, source_word};

/// Where an edge of a row falls in one of its words: from 0 for one before the word to 16 for one behind it.
#[inline(always)]
fn edge_in_word(edge: usize, word: usize) -> u8
    requires { 16 * word < 2 ^ 64 }
    ensures { result ≡ min (edge - 16 * word) 16 }
{
    let start = 16 * word;
    if edge <= start {
        0
    } else if edge - start >= 16 {
        16
    } else {
        (edge - start) as u8
    }
}

/// The word behind the last one that has a bit before an edge, or that the edge begins, in a row of so many words.
#[inline(always)]
fn word_past(to: usize, words: usize) -> usize
    ensures { result ≡ min (to / 16 + 1) words }
{
    let past = to / 16 + 1;
    if past < words { past } else { words }
}

/// Makes all bits of some words of a row, where source bits begin `skip` bits into the source's words.
#[inline(always)]
fn make_words(
    row: &mut [u16],
    first: usize,
    past: usize,
    source: &[u16],
    skip: usize,
    halftone: u16,
    masks: Masks,
)
    requires ordered { first ≤ past }
    requires within { past ≤ length row.old }
    requires small { length row.old ≤ MOST_FIELDS }
    requires room { skip / 16 + length row.old < length source.now }
    ensures made { (rule : ℕ) → AreOf rule masks → (k j : ℕ) → first ≤ k → k < past → j < 16 → left_bit (slice_index row.new k) j ≡ rule_bit rule (min (bit source.now (skip + (16 * k + j))) (left_bit halftone j)) (left_bit (slice_index row.old k) j) }
    ensures rest { (k : ℕ) → ((k < first) ⊎ (past ≤ k)) → slice_index row.new k ≡ slice_index row.old k }
    ensures fits { (k : ℕ) → slice_index row.new k < 2 ^ 16 }
{
    let at = skip / 16;
    let skew = (skip % 16) as u8;
    for i in first..past {
        let s = source_word(source[at + i], source[at + i + 1], skew);
        row[i] = masks.make(s & halftone, row[i]);
    }
}

/// Makes all bits of some words of a row, where all source bits are 1.
#[inline(always)]
fn fill_words(row: &mut [u16], first: usize, past: usize, halftone: u16, masks: Masks)
    requires ordered { first ≤ past }
    requires within { past ≤ length row.old }
    ensures made { (rule : ℕ) → AreOf rule masks → (k j : ℕ) → first ≤ k → k < past → j < 16 → left_bit (slice_index row.new k) j ≡ rule_bit rule (left_bit halftone j) (left_bit (slice_index row.old k) j) }
    ensures rest { (k : ℕ) → ((k < first) ⊎ (past ≤ k)) → slice_index row.new k ≡ slice_index row.old k }
    ensures fits { (k : ℕ) → slice_index row.new k < 2 ^ 16 }
{
    let (keep, flip) = masks.filling(halftone);
    for i in first..past {
        row[i] = (row[i] & keep) ^ flip;
    }
}

/// Puts the old bits back that lie before one bit in the first word, and from another on in the last: `left` and `right` were these words.
#[inline(always)]
fn put_back(
    row: &mut [u16],
    first: usize,
    past: usize,
    from: usize,
    to: usize,
    left: u16,
    right: u16,
)
    requires some { first < past }
    requires first { first ≡ from / 16 }
    requires past { past ≤ to / 16 + 1 }
    requires within { past ≤ length row.old }
    requires small { length row.old ≤ MOST_FIELDS }
    requires fits { (k : ℕ) → slice_index row.old k < 2 ^ 16 }
    ensures back { (old : List ℕ) → slice_index old first ≡ left → slice_index old (past - 1) ≡ right → (k j : ℕ) → first ≤ k → k < past → j < 16 → left_bit (slice_index row.new k) j ≡ (if within from to (16 * k + j) then left_bit (slice_index row.old k) j else left_bit (slice_index old k) j) }
    ensures rest { (k : ℕ) → ((k < first) ⊎ (past ≤ k)) → slice_index row.new k ≡ slice_index row.old k }
    ensures fits { (k : ℕ) → slice_index row.new k < 2 ^ 16 }
{
    row[first] = between(left, row[first], edge_in_word(from, first), 16);
    row[past - 1] = between(right, row[past - 1], 0, edge_in_word(to, past - 1));
}

/// Changes the bits of a row from one up to another by the masks of a rule: source bits begin `skip` bits into the source's words.
#[inline(always)]
pub fn blend_row(
    row: &mut [u16],
    source: &[u16],
    skip: usize,
    from: usize,
    to: usize,
    halftone: u16,
    masks: Masks,
)
    requires ordered { from ≤ to }
    requires small { length row.old ≤ MOST_FIELDS }
    requires room { skip / 16 + length row.old < length source.now }
    ensures fits { (k : ℕ) → slice_index row.new k < 2 ^ 16 }
    ensures bits { (rule : ℕ) → AreOf rule masks → (n : ℕ) → n < 16 * length row.old → bit row.new n ≡ row_bit rule source.now skip halftone from to row.old n }
{
    let first = from / 16;
    let past = word_past(to, row.len());
    if first < past {
        let left = row[first];
        let right = row[past - 1];
        make_words(row, first, past, source, skip, halftone, masks);
        put_back(row, first, past, from, to, left, right);
    }
}

/// Changes the bits of a row from one up to another by the masks of a rule, where all source bits are 1.
#[inline(always)]
pub fn fill_row(row: &mut [u16], from: usize, to: usize, halftone: u16, masks: Masks)
    requires ordered { from ≤ to }
    requires small { length row.old ≤ MOST_FIELDS }
    ensures fits { (k : ℕ) → slice_index row.new k < 2 ^ 16 }
    ensures bits { (rule : ℕ) → AreOf rule masks → (n : ℕ) → n < 16 * length row.old → bit row.new n ≡ fill_bit rule halftone from to row.old n }
{
    let first = from / 16;
    let past = word_past(to, row.len());
    if first < past {
        let left = row[first];
        let right = row[past - 1];
        fill_words(row, first, past, halftone, masks);
        put_back(row, first, past, from, to, left, right);
    }
}
