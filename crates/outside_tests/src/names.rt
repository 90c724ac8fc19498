// Values as long words, names, and bits of words.
use long_names::{Name, Value, bits, long_word, value_of};

/// A long word, and the SmallInteger that it is.
struct LongWord {
    word: u32,
    number: Option<i16>,
}

// The bit 0 is set, and the bits 1 to 15 are the number; above them stands its sign.
const LONG_WORDS: &[LongWord] = &[
    LongWord {
        word: 0xffff_ffff,
        number: Some(-1),
    },
    LongWord {
        word: 0x0000_7fff,
        number: Some(16383),
    },
    LongWord {
        word: 0xffff_8001,
        number: Some(-16384),
    },
    LongWord {
        word: 0x0000_8001,
        number: None,
    },
    LongWord {
        word: 0xffff_7fff,
        number: None,
    },
    LongWord {
        word: 0x0000_0001,
        number: Some(0),
    },
    LongWord {
        word: 0x0000_0000,
        number: None,
    },
];

// A value that is a number has the word that it came from.
fn is_right(row: &LongWord) -> bool {
    let number = match value_of(row.word) {
        Some(Value::Int(number)) => Some(number),
        _ => None,
    };
    number == row.number && number.is_none_or(|n| long_word(Value::Int(n)) == row.word)
}

#[test]
fn values_and_their_words(rt: HostRuntime) {
    assert_eq!(rt; LONG_WORDS.iter().position(|row| !is_right(row)), None);
    assert_eq!(rt; long_word(Value::Ref(Name::NIL)), 2);
}

#[test]
fn names_and_bits(rt: HostRuntime) {
    assert!(rt; Name::new(7).is_none());
    assert_eq!(rt; Name::LARGE_NEGATIVE_INTEGER.index(), 29);
    assert!(rt; Name::CHARACTER_TABLE.is_known());
    assert!(rt; !Name::new(60).is_some_and(|name| name.is_known()));
    assert_eq!(rt; bits(0x8001, 0, 0), 1);
    assert_eq!(rt; bits(0xb5c3, 4, 7), 5);
    assert_eq!(rt; bits(0xb5c3, 0, 15), 0xb5c3);
}
