// What holds of raw records and their texts, whatever reads or writes them.
ghost use Rattle.std.specs.Prelude.{◌≡◌, ℕ, ◌≤◌, ◌++◌, List, length, map};
ghost use Rattle.long_names.specs.declared.object.Rec.{Rec};
ghost use Rattle.long_names.specs.Objects.{IsRecord, fields_of};
ghost use Rattle.long_names.specs.Record.{record_text};
ghost use Rattle.object_record.specs.Raw.{RawBody, RawRecord, IsRawRecord, longs_of, raw_text, raw_record};
ghost use Rattle.long_names.specs.declared.object.Object.{Object};
ghost use Rattle.object_record.specs.Objects.{body_of, object_in, value_in};
ghost use Rattle.object_record.specs.Buffer.{raw_of, HasRecord};
ghost use Rattle.object_record.specs.Filling.{filled_with};

use long_names::LONGEST_RECORD;

/// Bytes that begin with the text of a raw record have this record, whatever follows it. So two raw records with one text are one.
pub fn begins_with()
    ensures { (bytes rest : List ℕ) (r : RawRecord) → IsRawRecord r → bytes ≡ raw_text r ++ rest → HasRecord bytes × (raw_of bytes ≡ r) }
{}

/// The record of an object, as an image has it, is the text of a raw record: the one whose fields are the long words of its values.
pub fn record_is_raw()
    ensures text { (r : Rec) → raw_text (raw_record r) ≡ record_text r }
    ensures is { (r : Rec) → IsRecord r → IsRawRecord (raw_record r) }
{}

/// The longest record fits a buffer.
pub fn longest_raw_record()
    ensures { (r : RawRecord) → IsRawRecord r → length (raw_text r) ≤ LONGEST_RECORD }
{}

/// A buffer whose bytes were all filled is what they were filled with.
pub fn filled_whole()
    ensures { (old filling : List ℕ) → length filling ≡ LONGEST_RECORD → filled_with old filling ≡ filling }
{}

/// The fields of the object that a raw record is are the values of its long words.
pub fn fields_are_values()
    ensures { (body : RawBody) → fields_of (body_of body) ≡ map value_in (longs_of body) }
{}

/// The record of an object, raw, is that object.
pub fn record_is_its_object()
    ensures { (r : Rec) → IsRecord r → object_in (raw_record r) ≡ record { class = r.class; body = r.body } }
{}
