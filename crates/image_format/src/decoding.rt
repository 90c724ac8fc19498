// Reading a record.
ghost use Rattle.std.specs.Prelude.{◌≡◌, ◌≢◌, ℕ, ◌≤◌, ◌++◌, List, length, take, IfOk, OnErr};
ghost use Rattle.image_format.specs.Inside.{IsNear, refusal};
ghost use Rattle.long_names.specs.declared.object.Rec.{Rec as Spelled};
ghost use Rattle.long_names.specs.Objects.{IsRecord};
ghost use Rattle.long_names.specs.Record.{record_text};
ghost use Rattle.long_names.specs.declared.limits.TheConstants.{LONGEST_RECORD};
ghost use Rattle.image_format.specs.Faults.{IsBad, IsPlaced};
ghost use Rattle.image_format.specs.Measured.{IsMeasure};

use crate::fault::{NoRecord, RecFault};
use crate::reading::{RecMeasure, measure_of, record_of};
use long_names::Rec;
use std::alloc::Global;

/// Why bytes of this length have no record.
fn refused(len: usize, fault: NoRecord) -> RecFault
    requires { IsNear len fault }
    ensures { result ≡ refusal len fault }
{
    match fault {
        NoRecord::Halted(halt) => RecFault::Bad {
            rule: halt.rule,
            at: (len - halt.left) as u32,
        },
        NoRecord::Memory => RecFault::Memory,
    }
}

/// The first record of the bytes, and its length in bytes. More bytes may follow it.
///
/// `Bad` comes exactly where the bytes don't begin with a record: where the name (rule 4) or the class (6) is odd or 0, the kind is above 3 (5), a field is neither a name nor a SmallInteger in range (6), a method has more than 16,000 bytes of code or another number of literals than its header states (7), the zeros at the end aren't zeros (8), or the bytes end first (9). It has the first rule that breaks, and the offset of the field that breaks it. Memory is taken only for what was read.
///
/// A record that `encode_rec` wrote is read again, whatever follows it: each record has one text, and no text of a record begins another (`one_text`).
pub fn decode_rec(alloc: Global, bytes: &[u8]) -> Result<(Rec, usize), RecFault>
    // The bytes begin with the text of the record, of this length.
    ensures text { IfOk result (λ x. take x.1 bytes.now ≡ record_text x.0) }
    ensures len { IfOk result (λ x. length (record_text x.0) ≡ x.1) }
    ensures within { IfOk result (λ x. x.1 ≤ length bytes.now) }
    ensures longest { IfOk result (λ x. x.1 ≤ LONGEST_RECORD) }
    ensures record { IfOk result (λ x. IsRecord x.0) }
    // Bytes that begin with a record give that record, unless memory runs out.
    ensures only { (r : Spelled) (rest : List ℕ) → IsRecord r → bytes.now ≡ record_text r ++ rest → IfOk result (λ x. x.0 ≡ r) }
    // Bad says that they begin with none.
    ensures bad { IsBad result → (r : Spelled) (rest : List ℕ) → IsRecord r → bytes.now ≢ record_text r ++ rest }
    ensures place { IsPlaced result bytes.now }
{
    match record_of(alloc, bytes) {
        Ok(read) => Ok(read),
        Err(fault) => Err(refused(bytes.len(), fault)),
    }
}

/// What the first record of the bytes states, and its length in bytes. It is judged as `decode_rec` judges it, but nothing is kept of it, so
/// it takes no memory.
pub fn measure_rec(bytes: &[u8]) -> Result<RecMeasure, RecFault>
    ensures measure { IfOk result (IsMeasure bytes.now) }
    // A refusal is Bad, and says that the bytes begin with no record.
    ensures bad { OnErr result (IsBad result) }
    ensures none { OnErr result ((r : Spelled) (rest : List ℕ) → IsRecord r → bytes.now ≢ record_text r ++ rest) }
    ensures place { IsPlaced result bytes.now }
{
    match measure_of(bytes) {
        Ok(measure) => Ok(measure),
        Err(halt) => Err(refused(bytes.len(), NoRecord::Halted(halt))),
    }
}
