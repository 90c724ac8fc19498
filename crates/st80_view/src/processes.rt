// Processes, and the contexts of their stacks.
ghost use Rattle.std.specs.Prelude.{◌≡◌, ◌+◌, ◌<◌, ◌^◌, is_some, option_and_then, option_map, IfSome};
ghost use Rattle.st80_objects.specs.Images.{field_in, name_at_field, number_at_field};
ghost use Rattle.st80_view.specs.Names.{not_nil};
ghost use Rattle.st80_view.specs.Stacks.{IsFrameOf, home_of, running_in};
ghost use Rattle.st80_view.specs.Viewed.{active_context, active_process, recs_of, scheduler};

use crate::view::View;
use long_names::{Body, Name, Value, Values};
use st80_objects::item_of;
use std::alloc::{AllocError, Global};

/// How many links of a list, and how many contexts of a stack, are followed.
const LONGEST_LIST: usize = 65_536;

const DEEPEST_STACK: usize = 65_536;

/// The scheduler: its lists, and the active process. The association's value is the scheduler.
const ASSOCIATION_VALUE: usize = 1;

const LISTS: usize = 0;

const ACTIVE_PROCESS: usize = 1;

/// A list of processes: its first. A semaphore has a number of signals too.
const FIRST_LINK: usize = 0;

const EXCESS_SIGNALS: usize = 2;

/// A process.
const NEXT_LINK: usize = 0;

const SUSPENDED_CONTEXT: usize = 1;

const PRIORITY: usize = 2;

const MY_LIST: usize = 3;

/// A context: field 3 is a method's context's method, or how many arguments a block takes.
const SENDER: usize = 0;

const INSTRUCTION_POINTER: usize = 1;

const STACK_POINTER: usize = 2;

const METHOD: usize = 3;

const HOME: usize = 5;

const RECEIVER: usize = 5;

/// The first field of a context that is a temporary or stands on the stack.
pub(crate) const FIRST_TEMPORARY: usize = 6;

/// Where a process stands.
#[derive(Clone, Copy, Debug, PartialEq, Eq)]
pub enum Standing {
    Active,
    /// It is on the scheduler's list of this priority.
    Ready(usize),
    /// It waits on this semaphore.
    Waiting(Name),
}

/// A process of an image.
#[derive(Clone, Copy, Debug, PartialEq, Eq)]
pub struct Process {
    pub name: Name,
    pub priority: Option<i16>,
    /// The context in which it goes on.
    pub context: Option<Name>,
    pub standing: Standing,
}

/// One context of a stack.
#[derive(Clone, Copy, Debug, PartialEq, Eq)]
pub struct Frame {
    pub context: Name,
    pub is_block: bool,
    /// The context itself, or the one that a block was made in.
    pub home: Name,
    pub method: Name,
    pub receiver: Value,
    /// The number of the byte that comes next, counted over header, literals and code, as the machine counts.
    pub pointer: Option<i16>,
    /// How many values stand on the stack, temporaries of a method among them.
    pub depth: Option<i16>,
    /// The context that a return goes to, unless it is nil.
    pub sender: Option<Name>,
}

/// What a method's header and its extension say.
#[derive(Clone, Copy, Debug, PartialEq, Eq)]
pub struct MethodHeader {
    pub flag: u16,
    pub arguments: u16,
    /// The arguments are among them. Of a method that answers a field, that field.
    pub temporaries: u16,
    pub is_large: bool,
    pub literals: u16,
    /// 0 where there is none.
    pub primitive: u16,
}

/// A number modulo 32,768.
fn unsigned_of(number: i16) -> u16 {
    i32::from(number).rem_euclid(32_768) as u16
}

/// The numbers of a header, bit by bit, with the header extension where the flag asks for one.
pub fn method_header(header: i16, extension: Option<i16>) -> MethodHeader {
    let unsigned = unsigned_of(header);
    let flag = unsigned / 4096;
    let (arguments, primitive) = match extension {
        Some(extension) if flag == 7 => {
            let extension = unsigned_of(extension);
            (extension / 256 % 32, extension % 256)
        }
        _ if flag < 5 => (flag, 0),
        _ => (0, 0),
    };
    MethodHeader {
        flag,
        arguments,
        temporaries: unsigned / 128 % 32,
        is_large: unsigned / 64 % 2 == 1,
        literals: unsigned % 64,
        primitive,
    }
}

impl View {
    /// What the header of a method says.
    pub fn method_header(&self, method: Name) -> Option<MethodHeader> {
        match &self.image.find(method)?.body {
            Body::Method {
                header,
                literals,
                ..
            } => Some(method_header(*header, extension_of(literals))),
            Body::Pointers(_) | Body::Words(_) | Body::Bytes(_) => None,
        }
    }

    /// The scheduler: the value of object 8.
    #[tactic(auto, unfolding(crate::specs::Viewed::image_of))]
    pub fn scheduler(&self) -> Option<Name>
        ensures { result ≡ scheduler (recs_of self.now) }
    {
        self.image
            .name_in(Name::SCHEDULER_ASSOCIATION, ASSOCIATION_VALUE)
    }

    /// The process that goes on at a start.
    #[tactic(auto, unfolding(crate::specs::Viewed::image_of))]
    pub fn active_process(&self) -> Option<Name>
        ensures { result ≡ active_process (recs_of self.now) }
    {
        self.image.name_in(self.scheduler()?, ACTIVE_PROCESS)
    }

    /// The context that goes on at a start.
    #[tactic(auto, unfolding(crate::specs::Viewed::image_of))]
    pub fn active_context(&self) -> Option<Name>
        ensures { result ≡ active_context (recs_of self.now) }
    {
        self.image
            .name_in(self.active_process()?, SUSPENDED_CONTEXT)
    }

    fn process(&self, name: Name, standing: &Standing) -> Process {
        Process {
            name,
            priority: self.image.number_in(name, PRIORITY),
            context: self.image.name_in(name, SUSPENDED_CONTEXT),
            standing: *standing,
        }
    }

    /// All processes: the active one, those that are ready by rising priority, and those that wait, by rising name of the semaphore.
    pub fn processes(&self, alloc: Global) -> Result<Vec<Process>, AllocError> {
        let mut processes = Vec::new(alloc);
        if let Some(active) = self.active_process() {
            processes.push(self.process(active, &Standing::Active))?;
        }
        self.add_ready(&mut processes)?;
        self.add_waiting(&mut processes)?;
        Ok(processes)
    }

    fn add_ready(&self, processes: &mut Vec<Process>) -> Result<(), AllocError> {
        let Some(lists) = self.lists() else {
            return Ok(());
        };
        for i in 0..lists.len() {
            if let Some(list) = lists.item(i).name() {
                self.add_list(processes, list, &Standing::Ready(i.saturating_add(1)))?;
            }
        }
        Ok(())
    }

    fn lists(&self) -> Option<&Values> {
        self.image
            .pointers(self.image.name_in(self.scheduler()?, LISTS)?)
    }

    fn add_waiting(&self, processes: &mut Vec<Process>) -> Result<(), AllocError> {
        for rec in self.image.objects.all() {
            if self.has_waiting(rec.name) {
                self.add_list(processes, rec.name, &Standing::Waiting(rec.name))?;
            }
        }
        Ok(())
    }

    /// Whether an object has the shape of a semaphore on which a process waits.
    fn has_waiting(&self, semaphore: Name) -> bool {
        match self.first_link(semaphore) {
            Some(process) => {
                self.image.number_in(semaphore, EXCESS_SIGNALS).is_some()
                    && self.image.name_in(process, MY_LIST) == Some(semaphore)
            }
            None => false,
        }
    }

    /// The first process of a list, unless it is nil.
    fn first_link(&self, list: Name) -> Option<Name> {
        not_nil(self.image.name_in(list, FIRST_LINK)?)
    }

    /// The process behind one of a list, or nil.
    fn next_link(&self, process: Name) -> Name {
        self.image.name_in(process, NEXT_LINK).unwrap_or(Name::NIL)
    }

    /// Adds the processes of a list, each once.
    fn add_list(
        &self,
        processes: &mut Vec<Process>,
        list: Name,
        standing: &Standing,
    ) -> Result<(), AllocError> {
        let Some(first) = self.first_link(list) else {
            return Ok(());
        };
        let mut at = first;
        for _ in 0..LONGEST_LIST {
            processes.push(self.process(at, standing))?;
            let next = self.next_link(at);
            if next == Name::NIL || next == first {
                break;
            }
            at = next;
        }
        Ok(())
    }

    /// What a context is. None where it isn't one that could be loaded.
    #[tactic(auto, unfolding(crate::specs::Viewed::image_of))]
    pub fn frame(&self, context: Name) -> Option<Frame>
        ensures running { option_map (λ frame. (frame.home, frame.method, frame.receiver)) result ≡ running_in (recs_of self.now) context }
        ensures frame { IfSome result (IsFrameOf (recs_of self.now) context) }
    {
        let home = self.home_of(context)?;
        let method = self.image.name_in(home, METHOD)?;
        let receiver = self.image.field(home, RECEIVER)?;
        Some(Frame {
            context,
            is_block: self.is_block(context),
            home,
            method,
            receiver,
            pointer: self.pointer_of(context),
            depth: self.image.number_in(context, STACK_POINTER),
            sender: self.sender_of(context),
        })
    }

    #[tactic(auto, unfolding(crate::specs::Viewed::image_of))]
    fn is_block(&self, context: Name) -> bool
        ensures { result ≡ is_some (number_at_field (recs_of self.now) context METHOD) }
    {
        self.image.number_in(context, METHOD).is_some()
    }

    /// The context itself, or the one that a block was made in.
    #[tactic(auto, unfolding(crate::specs::Viewed::image_of))]
    fn home_of(&self, context: Name) -> Option<Name>
        ensures { result ≡ home_of (recs_of self.now) context }
    {
        if self.is_block(context) {
            self.image.name_in(context, HOME)
        } else {
            Some(context)
        }
    }

    /// The next byte of a context, whose field counts from 1.
    fn pointer_of(&self, context: Name) -> Option<i16> {
        self.image
            .number_in(context, INSTRUCTION_POINTER)?
            .checked_sub(1)
    }

    #[tactic(auto, unfolding(crate::specs::Viewed::image_of))]
    fn sender_of(&self, context: Name) -> Option<Name>
        ensures { result ≡ option_and_then not_nil (name_at_field (recs_of self.now) context SENDER) }
    {
        not_nil(self.image.name_in(context, SENDER)?)
    }

    /// The contexts from one on, each with its sender or caller behind it, up to 65,536.
    pub fn stack(&self, alloc: Global, context: Name) -> Result<Vec<Frame>, AllocError> {
        let mut frames = Vec::new(alloc);
        let mut at = context;
        for _ in 0..DEEPEST_STACK {
            let sender = self.push_frame(&mut frames, at)?;
            let next = name_or_nil(sender);
            if next == Name::NIL {
                break;
            }
            at = next;
        }
        Ok(frames)
    }

    /// Adds what a context is, if it is one, and answers its field of the sender.
    fn push_frame(
        &self,
        frames: &mut Vec<Frame>,
        context: Name,
    ) -> Result<Option<Value>, AllocError> {
        match self.frame(context) {
            Some(frame) => {
                frames.push(frame)?;
                Ok(self.image.field(context, SENDER))
            }
            None => Ok(None),
        }
    }

    /// Temporary i of a frame's home.
    #[tactic(auto, unfolding(crate::specs::Viewed::image_of))]
    pub fn temporary(&self, frame: &Frame, i: usize) -> Option<Value>
        ensures { i < 2 ^ 32 → result ≡ field_in (recs_of self.now) frame.now.home (i + FIRST_TEMPORARY) }
    {
        self.image
            .field(frame.home, i.saturating_add(FIRST_TEMPORARY))
    }

    /// The value at a place of a frame's stack, counted from 0 at its bottom, temporaries of a method among them.
    #[tactic(auto, unfolding(crate::specs::Viewed::image_of))]
    pub fn stacked(&self, frame: &Frame, i: usize) -> Option<Value>
        ensures { i < 2 ^ 32 → result ≡ field_in (recs_of self.now) frame.now.context (i + FIRST_TEMPORARY) }
    {
        self.image
            .field(frame.context, i.saturating_add(FIRST_TEMPORARY))
    }

    /// Puts where a frame is: `Class>>selector`, with the receiver's class before it where that is another, and `[] in` before a block.
    pub fn put_frame_name(&self, out: &mut String, frame: &Frame) -> Result<(), AllocError> {
        if frame.is_block {
            out.push_str("[] in ")?;
        }
        let Some(home) = self.method_home(frame.method) else {
            return self.put_method_name(out, frame.method);
        };
        match self.image.class_of(frame.receiver) {
            Some(class) if class != home.class => {
                self.put_class_name(out, class)?;
                out.push('(')?;
                self.put_class_name(out, home.class)?;
                out.push(')')?;
            }
            _ => self.put_class_name(out, home.class)?,
        }
        out.push_str(">>")?;
        self.put_selector(out, home.selector)
    }
}

/// The name that a value is, or nil.
fn name_or_nil(value: Option<Value>) -> Name {
    match value {
        Some(value) => value.name().unwrap_or(Name::NIL),
        None => Name::NIL,
    }
}

fn not_nil(name: Name) -> Option<Name>
    ensures { result ≡ not_nil name }
{
    if name == Name::NIL { None } else { Some(name) }
}

/// The literal before the last, where it is a number.
fn extension_of(literals: &Values) -> Option<i16> {
    item_of(literals, literals.len().checked_sub(2)?)?.number()
}
