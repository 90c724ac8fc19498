//! Who follows a run from outside.
use contexts::Cpu;
use devices::clock;
use object_memory::ObjectMemory;

/// How far a run is.
#[derive(Clone, Copy, Debug)]
pub struct Progress {
    /// How many bytecodes were run, in all legs.
    pub ran: u32,
    /// The machine's clock.
    pub clock: u32,
    /// The name that the next new object takes.
    pub next_name: u32,
}

/// Who is told of a run while it goes on. It can change nothing of the run.
pub trait Observer {
    /// The run is so far.
    fn observe(&mut self, progress: Progress);
}

/// Nobody: each call is nothing.
#[derive(Clone, Copy, Debug)]
pub struct NoObserver;

impl Observer for NoObserver {
    #[inline(always)]
    fn observe(&mut self, _progress: Progress) {}
}

/// After how many bytecodes an observer is told each time.
const OBSERVED: u32 = 65_536;

/// Tells an observer where so many bytecodes were run once more.
#[inline(always)]
pub fn tell<M: ObjectMemory, O: Observer>(observer: &mut O, m: &M, cpu: &Cpu)
    requires { M.sound m.now }
{
    if cpu.ran % OBSERVED == 0 {
        observer.observe(Progress {
            ran: cpu.ran,
            clock: clock(cpu),
            next_name: m.next_name(),
        });
    }
}
