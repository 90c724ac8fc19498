// The registers.
ghost use Rattle.std.specs.Prelude.{◌≡◌, ◌≤◌, ℕ, nat_lt, pos, All, OnOk};
ghost use Rattle.long_names.specs.Objects.{is_ref};
ghost use Rattle.long_names.specs.Kept.{any_below};
ghost use Rattle.object_memory.specs.Counts.{count_in};
ghost use Rattle.long_names.specs.Words.{IsValue};
ghost use Rattle.long_names.specs.State.{set_register, IsRef};
ghost use Rattle.long_names.specs.declared.limits.TheConstants.{REGISTERS};
ghost use Rattle.long_names.specs.declared.value.Value.TheVariants.{Int, Ref};
ghost use Rattle.long_names.specs.Names.{IsLongName};
ghost use Rattle.long_names.specs.ObjectProps.{All-prop, IsValue-prop};

use crate::plain::counts::Counts;
use crate::reg::Reg;
use long_names::{Name, REGISTERS, Value};
use std::alloc::AllocError;

/// The values of the registers.
#[derive(Drop)]
pub(crate) struct Registers {
    pub(crate) values: [Value; REGISTERS],
    ghost are_values: { All IsValue values } by { All-prop IsValue IsValue-prop values },
}

impl Registers {
    ghost use Rattle.object_memory.specs.Plain.{values_of};

    /// The number 0 in each.
    pub(crate) fn new() -> Registers
        ensures { values_of result ≡ (λ r. Int (pos 0)) }
    {
        Registers {
            values: [Value::Int(0); REGISTERS],
        }
    }

    pub(crate) fn get(&self, r: Reg) -> Value
        ensures value { result ≡ values_of self.now r }
        ensures range { IsValue result }
    {
        self.values[r.index()]
    }

    /// The name in a register that holds one.
    pub(crate) fn name(&self, r: Reg) -> Name
        requires { IsRef (values_of self.now r) }
        ensures value { values_of self.now r ≡ Ref result }
        ensures range { IsLongName result }
    {
        let Some(name) = self.get(r).name() else {
            unreachable!()
        };
        name
    }

    pub(crate) fn set(&mut self, r: Reg, value: Value)
        requires { IsValue value }
        ensures { values_of self.new ≡ set_register (values_of self.old) r value }
    {
        self.values[r.index()] = value;
    }

    /// Counts the names in them.
    pub(crate) fn count(&self, counts: &mut Counts) -> Result<(), AllocError>
        requires { (q : ℕ) → count_in counts.old q ≡ 0 }
        ensures roots { OnOk result ((q : ℕ) → nat_lt 0 (count_in counts.new q) ≡ any_below REGISTERS (λ r. is_ref q (values_of self.now r))) }
        ensures few { OnOk result ((q : ℕ) → count_in counts.new q ≤ REGISTERS) }
    {
        for i in 0..REGISTERS {
            counts.add_some(self.values[i].name())?;
        }
        Ok(())
    }
}
