// The rules of images, in sentences.
ghost use Rattle.std.specs.Prelude.{◌≡◌, IsTrue};
ghost use Rattle.st80_objects.specs.Sentences.{are_apart, sentence_of, sentences};

/// A rule of images in a sentence. Rule 0 is the grammar of texts; a number that no rule has is said to be none.
#[tactic(auto, unfolding(crate::specs::Sentences::sentence_of))]
pub fn rule_sentence(rule: u8) -> &'static str
    ensures { result.now ≡ sentence_of rule }
{
    match rule {
        0 => "a line is parts with one space between two, as `NAME CLASS pointers VALUE ..`",
        1 => "an image begins with the four bytes LOOM",
        2 => "the version is 1 or 2",
        3 => "an image has 22 to 1,048,576 objects, and its next name is even, and 60 or more",
        4 => "a name is even, not 0, above the name before it and below the next name",
        5 => "a kind is 0 to 3: pointers, words, bytes or a method",
        6 =>
            "a class is a name, and a value or literal is a name or a SmallInteger from -16384 to 16383",
        7 =>
            "a method has at most 16,000 bytes of code, and its header says how many literals it has",
        8 => "the bytes that fill a record up to a multiple of four are zeros",
        9 => "the file ends after the last record, and not before",
        10 => "each name that a class word or a field holds is that of an object of the image",
        11 =>
            "each object has the exact count of the words that hold it, and only a known object is held by none",
        12 => "the 22 known objects are there",
        13 =>
            "display, input and timer are each 0 or a name below the next name, and without a timer the tick is 0",
        14 => "display, input and timer are each 0 or the name of an object of the image",
        _ => "no rule of images has this number",
    }
}

/// No two rules have the same sentence, and none has an empty one.
pub fn sentences_are_apart()
    ensures { IsTrue (are_apart sentences) }
{}
