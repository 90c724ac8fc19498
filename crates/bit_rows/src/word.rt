// One word of a row: the rule, the mask, and a source word put together from two.
ghost use Rattle.std.specs.Prelude.{◌≡◌, ◌+◌, ◌*◌, ◌/◌, ◌%◌, ◌<◌, ◌≤◌, ℕ, min, [], ◌∷◌, if◌then◌else◌, nat_lt};
ghost use Rattle.blue_model.specs.declared.limits.TheConstants.{COMBINATION_RULES};
ghost use Rattle.blue_model.specs.Forms.{left_bit, bit};
ghost use Rattle.blue_model.specs.BitBlt.{rule_bit};
ghost use Rattle.bit_rows.specs.Masks.{AreOf};
ghost use Rattle.bit_rows.specs.Rows.{within};

/// What a rule makes of a source word and a destination word, bit by bit.
#[inline(always)]
pub fn combine(rule: u8, s: u16, d: u16) -> u16
    requires { rule < COMBINATION_RULES }
    ensures { (j : ℕ) → j < 16 → left_bit result j ≡ rule_bit rule (left_bit s j) (left_bit d j) }
{
    match rule {
        0 => 0,
        1 => s & d,
        2 => s & !d,
        3 => s,
        4 => !s & d,
        5 => d,
        6 => s ^ d,
        7 => s | d,
        8 => !(s | d),
        9 => !(s ^ d),
        10 => !d,
        11 => s | !d,
        12 => !s,
        13 => !s | d,
        14 => !(s & d),
        _ => 0xFFFF,
    }
}

/// The bits of `new` where the mask has ones, and those of `old` elsewhere.
#[inline(always)]
pub fn merge(old: u16, new: u16, mask: u16) -> u16
    ensures { (j : ℕ) → j < 16 → left_bit result j ≡ (if nat_lt 0 (left_bit mask j) then left_bit new j else left_bit old j) }
{
    (new & mask) | (old & !mask)
}

/// The 16 bits from bit `skew` on of two words side by side.
#[inline(always)]
pub fn source_word(first: u16, second: u16, skew: u8) -> u16
    requires { skew < 16 }
    ensures { (j : ℕ) → j < 16 → left_bit result j ≡ bit (first ∷ second ∷ []) (skew + j) }
{
    (first << skew) | (second >> 1 >> (15 - skew))
}

/// The word with ones from one bit up to another.
#[inline(always)]
pub fn mask(low: u8, high: u8) -> u16
    requires ordered { low ≤ high }
    requires fits { high ≤ 16 }
    ensures { (j : ℕ) → j < 16 → left_bit result j ≡ (if within low high j then 1 else 0) }
{
    ((1u32 << (16 - low)) - (1u32 << (16 - high))) as u16
}

/// The bits of `new` from one bit up to another, and those of `old` elsewhere.
#[inline(always)]
pub fn between(old: u16, new: u16, low: u8, high: u8) -> u16
    requires ordered { low ≤ high }
    requires fits { high ≤ 16 }
    ensures { (j : ℕ) → j < 16 → left_bit result j ≡ (if within low high j then left_bit new j else left_bit old j) }
{
    merge(old, new, mask(low, high))
}

/// A rule for all bits of two words at once. Where the source has 0, a bit of the destination stays if its bit in `keep` is 1, and is 0
/// otherwise; then it is turned if its bit in `flip` is 1. The others say likewise what a 1 in the source turns of that.
#[derive(Clone, Copy)]
pub struct Masks {
    keep: u16,
    flip: u16,
    source_keep: u16,
    source_flip: u16,
}

impl Masks {
    /// The masks of a rule, by what it makes of words of zeros and of ones.
    #[inline(always)]
    pub fn of(rule: u8) -> Masks
        requires { rule < COMBINATION_RULES }
        ensures { AreOf rule result }
    {
        let neither = combine(rule, 0, 0);
        let dest = combine(rule, 0, 0xFFFF);
        let source = combine(rule, 0xFFFF, 0);
        let both = combine(rule, 0xFFFF, 0xFFFF);
        Masks {
            keep: neither ^ dest,
            flip: neither,
            source_keep: (neither ^ dest) ^ (source ^ both),
            source_flip: neither ^ source,
        }
    }

    /// What the rule makes of a source word and a destination word, bit by bit.
    #[inline(always)]
    pub(crate) fn make(self, s: u16, d: u16) -> u16
        ensures { (rule j : ℕ) → AreOf rule self → j < 16 → left_bit result j ≡ rule_bit rule (left_bit s j) (left_bit d j) }
    {
        ((d & self.keep) ^ self.flip) ^ (s & ((d & self.source_keep) ^ self.source_flip))
    }
    /// What of a destination bit stays and what is turned then, where the source has this word.
    #[inline(always)]
    pub(crate) fn filling(self, s: u16) -> (u16, u16)
        ensures { (rule j d : ℕ) → AreOf rule self → j < 16 → d < 2 → (min d (left_bit result.0 j) + left_bit result.1 j) % 2 ≡ rule_bit rule (left_bit s j) d }
    {
        (
            self.keep ^ (s & self.source_keep),
            self.flip ^ (s & self.source_flip),
        )
    }
}
