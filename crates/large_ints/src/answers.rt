// Numbers as answers.
ghost use Rattle.std.specs.Prelude.{◌≡◌, ◌+◌, ◌≤◌, ◌<◌, ◌%◌, ℕ, true, length, OnOk, IfSome};
ghost use Rattle.long_names.specs.Names.{is_known};
ghost use Rattle.long_names.specs.Objects.{bytes_of, OfBytes};
ghost use Rattle.long_names.specs.State.{IsRef};
ghost use Rattle.long_names.specs.Words.{IsSmallInteger};
ghost use Rattle.object_memory.specs.Shape.{HasPartAt};
ghost use Rattle.object_memory.specs.Calls.{IsFit};
ghost use Rattle.blue_model.specs.declared.limits.TheConstants.{LARGE_BYTES};
ghost use Rattle.blue_model.specs.declared.cpu.Cpu.{Cpu as Numbers};
ghost use Rattle.blue_model.specs.Machine.{store_byte};
ghost use Rattle.blue_model.specs.Contexts.{stated};
ghost use Rattle.blue_model.specs.LargeInts as model;
ghost use Rattle.contexts.specs.Serves.{Serves, with_value};
ghost use Rattle.contexts.specs.Calls.{StaysFit};
ghost use Rattle.large_ints.specs.Answers.{make_bytes_of};

use contexts::Stop;
use contexts::parts::known;
use long_names::{Name, SMALL_INTEGERS};
use object_memory::{ObjectMemory, Reg};

/// How many bytes a number has.
fn byte_count(n: u128) -> u32
    ensures count { result ≡ length (model.fewest_bytes n) }
    ensures few { result ≤ LARGE_BYTES }
{
    let mut rest = n;
    let mut count = 0;
    while rest > 0 {
        rest /= 256;
        count += 1;
    }
    count
}

/// Stores byte i of the object of bytes in R12, which has it.
fn put_byte<M: ObjectMemory>(m: &mut M, i: u32, byte: u8) -> Result<(), Stop>
    requires fit { IsFit M.ObjectMemory m.old }
    requires there { HasPartAt (M.told m.old) 12 bytes_of (λ xs. i < length xs) }
    ensures serves { (cpu : Numbers) → Serves (M.told m.old) cpu (M.told m.new) cpu (store_byte ((M.told m.old).regs 12) i byte) result }
    ensures regs { OnOk result ((M.told m.new).regs ≡ (M.told m.old).regs) }
    ensures size { OnOk result ((n : ℕ) → HasPartAt (M.told m.old) 12 bytes_of (λ xs. length xs ≡ n) → HasPartAt (M.told m.new) 12 bytes_of (λ xs. length xs ≡ n)) }
    ensures fit { StaysFit M.ObjectMemory m.old m.new result }
{
    m.set_byte(Reg::R12, i, byte)?;
    Ok(())
}

/// Stores the bytes of a number into the object of as many bytes in R12, the lowest first.
fn put_bytes<M: ObjectMemory>(m: &mut M, n: u128) -> Result<(), Stop>
    requires fit { IsFit M.ObjectMemory m.old }
    requires there { HasPartAt (M.told m.old) 12 bytes_of (λ xs. length xs ≡ length (model.fewest_bytes n)) }
    ensures serves { (cpu : Numbers) → Serves (M.told m.old) cpu (M.told m.new) cpu (model.put_bytes ((M.told m.old).regs 12) (model.fewest_bytes n)) result }
    ensures regs { OnOk result ((M.told m.new).regs ≡ (M.told m.old).regs) }
    ensures fit { StaysFit M.ObjectMemory m.old m.new result }
{
    let mut rest = n;
    let mut i = 0;
    while rest > 0 {
        put_byte(m, i, (rest % 256) as u8)?;
        rest /= 256;
        i += 1;
    }
    Ok(())
}

/// Makes the object of a number's bytes in R12. Its class stands in R19.
fn make_bytes_of<M: ObjectMemory>(m: &mut M, n: u128) -> Result<(), Stop>
    requires fit { IsFit M.ObjectMemory m.old }
    requires class { IsRef ((M.told m.old).regs 19) }
    ensures serves { (cpu : Numbers) → Serves (M.told m.old) cpu (M.told m.new) cpu (make_bytes_of (model.fewest_bytes n) ((M.told m.old).regs 19)) (with_value result ((M.told m.new).regs 12)) }
    ensures fit { StaysFit M.ObjectMemory m.old m.new result }
{
    m.new_bytes(Reg::R12, Reg::R19, byte_count(n))?;
    put_bytes(m, n)?;
    Ok(())
}

/// The class of the large integers of a number's sign.
fn class_of_sign(z: i128) -> Name
    ensures class { result ≡ model.class_of_sign z }
    ensures known { is_known result ≡ true }
{
    if z < 0 {
        Name::LARGE_NEGATIVE_INTEGER
    } else {
        Name::LARGE_POSITIVE_INTEGER
    }
}

/// Makes the large integer of a number in R12.
fn make_large_integer<M: ObjectMemory>(m: &mut M, z: i128) -> Result<(), Stop>
    requires fit { IsFit M.ObjectMemory m.old }
    ensures serves { (cpu : Numbers) → Serves (M.told m.old) cpu (M.told m.new) cpu (model.make_large_integer z) (with_value result ((M.told m.new).regs 12)) }
    ensures fit { StaysFit M.ObjectMemory m.old m.new result }
{
    known(m, Reg::R19, class_of_sign(z))?;
    make_bytes_of(m, z.unsigned_abs())?;
    Ok(())
}

/// The number, where it is a SmallInteger.
fn small(z: i128) -> Option<i16>
    ensures small { result ≡ stated z }
    ensures range { IfSome result IsSmallInteger }
{
    if z < -i128::from(SMALL_INTEGERS) || z >= i128::from(SMALL_INTEGERS) {
        None
    } else {
        Some(z as i16)
    }
}

/// A number as an answer, in R12: a SmallInteger, or a new large integer.
pub(crate) fn large_answer<M: ObjectMemory>(m: &mut M, z: i128) -> Result<(), Stop>
    requires fit { IsFit M.ObjectMemory m.old }
    ensures serves { (cpu : Numbers) → Serves (M.told m.old) cpu (M.told m.new) cpu (model.large_answer z) (with_value result ((M.told m.new).regs 12)) }
    ensures fit { StaysFit M.ObjectMemory m.old m.new result }
{
    if let Some(number) = small(z) {
        m.int(Reg::R12, number);
        return Ok(());
    }
    make_large_integer(m, z)?;
    Ok(())
}
