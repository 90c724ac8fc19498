//! The machine bytecode by bytecode, and its lines.
ghost use Rattle.std.specs.Prelude.{◌<◌, length, IfSome, OnOk};
ghost use Rattle.object_memory.specs.Calls.{IsFit};
ghost use Rattle.contexts.specs.Calls.{StaysFit};

use crate::lines::{Sight, put_sight, put_top};
use crate::looking::{class_in, load_field, name_in, value_in};
use crate::options::Options;
use bytecodes::{Step, step};
use contexts::{Cpu, Stop, fetch};
use devices::due;
use event_file::EventList;
use long_names::{Name, Value};
use object_memory::{MemFault, ObjectMemory, Reg};
use process_sched::switch;
use st80_view::View;
use std::alloc::{AllocError, AllocFailed, Global};

/// How many senders are followed.
const DEEPEST_STACK: u32 = 100_000;

/// Why a bytecode has no end.
#[derive(Clone, Copy, Debug, Drop, PartialEq, Eq)]
pub(crate) enum Halt {
    Stop(Stop),
    Memory,
}

impl From<Stop> for Halt {
    fn from(stop: Stop) -> Halt {
        Halt::Stop(stop)
    }
}

impl From<MemFault> for Halt {
    fn from(fault: MemFault) -> Halt {
        Halt::Stop(Stop::Mem(fault))
    }
}

impl From<AllocFailed<Name>> for Halt {
    fn from(_error: AllocFailed<Name>) -> Halt {
        Halt::Memory
    }
}

impl From<AllocError> for Halt {
    fn from(_error: AllocError) -> Halt {
        Halt::Memory
    }
}

/// What is known of a run while it is followed.
#[derive(Drop)]
pub(crate) struct Following<'v> {
    view: &'v View,
    options: Options,
    /// The contexts from the first sender to the active one.
    stack: Vec<Name>,
}

/// Where a name stands last.
fn place_in(names: &[Name], name: Name) -> Option<usize>
    ensures { IfSome result (λ place. place < length names.now) }
{
    names.iter().rposition(|other| *other == name)
}

/// The active context and its senders, up to nil, the first sender first.
fn senders<M: ObjectMemory>(alloc: Global, m: &mut M) -> Result<Vec<Name>, Halt>
    requires fit { IsFit M.ObjectMemory m.old }
    ensures fit { OnOk result (IsFit M.ObjectMemory m.new) }
{
    let mut names = Vec::new(alloc);
    m.copy(Reg::R20, Reg::ACTIVE_CONTEXT);
    'senders: for _ in 0..DEEPEST_STACK {
        let name = name_in(m, Reg::R20);
        if name == Name::NIL {
            break;
        }
        names.push(name)?;
        if !load_field(m, Reg::R20, Reg::R20, 0)? {
            break;
        }
    }
    names.reverse();
    Ok(names)
}

/// The sender or caller of the active context; nil where it has none.
fn sender_of<M: ObjectMemory>(m: &mut M) -> Result<Name, Stop>
    requires fit { IsFit M.ObjectMemory m.old }
    ensures fit { StaysFit M.ObjectMemory m.old m.new result }
{
    if !load_field(m, Reg::R20, Reg::ACTIVE_CONTEXT, 0)? {
        return Ok(Name::NIL);
    }
    let sender = name_in(m, Reg::R20);
    m.int(Reg::R20, 0);
    Ok(sender)
}

/// Where the machine stands: its byte is fetched for that, and fetched again with the bytecode.
fn sight_of<M: ObjectMemory>(m: &mut M, cpu: &Cpu) -> Result<Sight, Stop>
    requires fit { IsFit M.ObjectMemory m.old }
    ensures fit { StaysFit M.ObjectMemory m.old m.new result }
{
    let mut ahead = *cpu;
    let byte = fetch(m, &mut ahead)?;
    Ok(Sight {
        context: name_in(m, Reg::ACTIVE_CONTEXT),
        home: name_in(m, Reg::HOME),
        method: name_in(m, Reg::METHOD),
        receiver: value_in(m, Reg::RECEIVER),
        place: cpu.ip.unsigned_abs(),
        byte,
    })
}

/// The top of the stack, and its class where the view doesn't have it. None where there is no such field.
fn top_of<M: ObjectMemory>(m: &mut M, cpu: &Cpu, view: &View) -> Result<Option<(Value, Name)>, Stop>
    requires fit { IsFit M.ObjectMemory m.old }
    ensures fit { StaysFit M.ObjectMemory m.old m.new result }
{
    if !load_field(m, Reg::R20, Reg::ACTIVE_CONTEXT, cpu.sp.unsigned_abs())? {
        return Ok(None);
    }
    let top = value_in(m, Reg::R20);
    let class = class_of_new(m, view, top)?;
    m.int(Reg::R20, 0);
    Ok(Some((top, class)))
}

/// The class of the object that register 20 names, where the view doesn't have it.
fn class_of_new<M: ObjectMemory>(m: &mut M, view: &View, top: Value) -> Result<Name, Stop>
    requires fit { IsFit M.ObjectMemory m.old }
    ensures fit { StaysFit M.ObjectMemory m.old m.new result }
{
    match top {
        Value::Ref(name) if view.image().find(name).is_none() => class_in(m, Reg::R20),
        _ => Ok(Name::NIL),
    }
}

impl<'v> Following<'v> {
    pub(crate) fn new(alloc: Global, view: &'v View, options: Options) -> Following<'v> {
        Following {
            view,
            options,
            stack: Vec::new(alloc),
        }
    }

    /// Brings the stack to the active context.
    fn enter<M: ObjectMemory>(&mut self, alloc: Global, m: &mut M) -> Result<(), Halt>
        requires fit { IsFit M.ObjectMemory m.old }
        ensures fit { OnOk result (IsFit M.ObjectMemory m.new) }
    {
        let context = name_in(m, Reg::ACTIVE_CONTEXT);
        if self.stack.last() == Some(&context) {
            return Ok(());
        }
        let sender = sender_of(m)?;
        if self.stack.last() == Some(&sender) {
            self.stack.push(context)?;
            return Ok(());
        }
        if let Some(place) = place_in(&self.stack, context) {
            self.stack.truncate(place + 1);
            return Ok(());
        }
        self.stack = senders(alloc, m)?;
        Ok(())
    }

    /// Puts where the machine stands, where that has a line, and says whether it has.
    fn see<M: ObjectMemory>(
        &mut self,
        alloc: Global,
        m: &mut M,
        cpu: &Cpu,
        line: &mut String,
    ) -> Result<bool, Halt>
        requires fit { IsFit M.ObjectMemory m.old }
        ensures fit { OnOk result (IsFit M.ObjectMemory m.new) }
    {
        self.enter(alloc, m)?;
        let sight = sight_of(m, cpu)?;
        let number = cpu.ran.saturating_add(1);
        if !self.options.has(number, sight.method, sight.byte) {
            return Ok(false);
        }
        put_sight(line, self.view, number, self.stack.len(), &sight)?;
        Ok(true)
    }

    /// Puts the top of the stack.
    fn put_top<M: ObjectMemory>(&self, m: &mut M, cpu: &Cpu, line: &mut String) -> Result<(), Halt>
        requires fit { IsFit M.ObjectMemory m.old }
        ensures fit { OnOk result (IsFit M.ObjectMemory m.new) }
    {
        if let Some((top, class)) = top_of(m, cpu, self.view)? {
            put_top(line, self.view, top, class)?;
        }
        Ok(())
    }

    /// The lines of events that are due, the timer, and a process switch where one waits.
    fn prepare<M: ObjectMemory>(m: &mut M, cpu: &mut Cpu, events: &EventList) -> Result<(), Stop>
        requires fit { IsFit M.ObjectMemory m.old }
        ensures fit { StaysFit M.ObjectMemory m.old m.new result }
    {
        due(m, cpu, events)?;
        if cpu.waiting {
            switch(m, cpu)?;
        }
        Ok(())
    }

    /// One cycle of the machine as a run does it, with its line.
    fn turn<M: ObjectMemory>(
        &mut self,
        alloc: Global,
        m: &mut M,
        cpu: &mut Cpu,
        events: &EventList,
        line: &mut String,
    ) -> Result<Step, Halt>
        requires fit { IsFit M.ObjectMemory m.old }
        ensures fit { OnOk result (IsFit M.ObjectMemory m.new) }
    {
        Self::prepare(m, cpu, events)?;
        let shown = self.see(alloc, m, cpu, line)?;
        let end = step(m, cpu, events)?;
        if shown {
            self.put_top(m, cpu, line)?;
        }
        m.settle()?;
        Ok(end)
    }

    /// One cycle, which is counted unless it stopped.
    pub(crate) fn cycle<M: ObjectMemory>(
        &mut self,
        alloc: Global,
        m: &mut M,
        cpu: &mut Cpu,
        events: &EventList,
        line: &mut String,
    ) -> Result<Step, Halt>
        requires fit { IsFit M.ObjectMemory m.old }
        ensures fit { OnOk result (IsFit M.ObjectMemory m.new) }
    {
        let ran = cpu.ran;
        match self.turn(alloc, m, cpu, events, line) {
            Ok(end) => {
                cpu.ran = ran.saturating_add(1);
                Ok(end)
            }
            Err(halt) => {
                cpu.ran = ran;
                Err(halt)
            }
        }
    }
}
