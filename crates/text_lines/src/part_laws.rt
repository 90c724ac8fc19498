// What holds of parts and of what they are read as, whatever reads or spells them.
ghost use Rattle.std.specs.Prelude.{◌≡◌, ◌++◌, ◌<◌, ◌^◌, ℕ, ℤ, List, Some, codes, decimal};
ghost use Rattle.std.specs.Fmt.{signed_decimal};
ghost use Rattle.long_names.specs.Names.{IsLongName};
ghost use Rattle.long_names.specs.Words.{IsSmallInteger, IsValue};
ghost use Rattle.long_names.specs.declared.object.Kind.{Kind as KindOf};
ghost use Rattle.long_names.specs.declared.value.Value.{Value as Word};
ghost use Rattle.text_lines.specs.Parts.{byte_of, kind_of, long_of, name_of, number_of, small_of, value_of, word_of};
ghost use Rattle.text_lines.specs.PartSpelling.{byte_text, kind_text, value_text, word_text};

/// A number is read back as it is spelled, and is spelled in one way.
pub fn one_number()
    ensures again { (n : ℕ) → n < 2 ^ 64 → number_of (decimal n) ≡ Some n }
    ensures one { (text : List ℕ) (n : ℕ) → number_of text ≡ Some n → n < 2 ^ 64 → text ≡ decimal n }
{}

/// What is spelled is read back: names, SmallIntegers, values, bytes, words and kinds.
pub fn read_back()
    ensures long { (n : ℕ) → n < 2 ^ 32 → long_of (decimal n) ≡ Some n }
    ensures name { (n : ℕ) → IsLongName n → name_of (decimal n) ≡ Some n }
    ensures small { (z : ℤ) → IsSmallInteger z → small_of (signed_decimal z ++ codes "i") ≡ Some z }
    ensures value { (v : Word) → IsValue v → value_of (value_text v) ≡ Some v }
    ensures byte { (b : ℕ) → b < 2 ^ 8 → byte_of (byte_text b) ≡ Some b }
    ensures word { (w : ℕ) → w < 2 ^ 16 → word_of (word_text w) ≡ Some w }
    ensures kind { (k : KindOf) → kind_of (kind_text k) ≡ Some k }
{}
