// The calls on each role of a host in memory.
ghost use Rattle.std.specs.Prelude.{◌≡◌, ◌<◌, ◌++◌, ◌∷◌, [], true, false, None, Some, OnOk, OnErr};
ghost use Rattle.loom_host.specs.Outside.{SameBut};
ghost use Rattle.long_names.specs.Counting.{counted};
ghost use Rattle.loom_outside.specs.PerRole.{at_role};
ghost use Rattle.loom_outside.specs.Plans.{is_due, lowered};

use crate::Role;
use crate::per_role::PerRole;
use std::alloc::{AllocError, Global};

#[derive(Drop)]
pub struct Calls {
    pub attaches: u64,
    // whether the last attach answered Ok
    pub named: bool,
    // how many bytes had been put when a piece of no bytes last was, since the last attach that answered Ok; None where none was
    pub ended: Option<usize>,
    // how many calls there are until each that is to fail
    pub plan: Vec<u64>,
}

impl Calls {
    pub fn new(alloc: Global) -> Calls
        ensures attaches { result.attaches ≡ 0 }
        ensures named { result.named ≡ false }
        ensures ended { result.ended ≡ None }
        ensures plan { result.plan.items ≡ [] }
    {
        Calls {
            attaches: 0,
            named: false,
            ended: None,
            plan: Vec::new(alloc),
        }
    }
}

// Whether the next call is to fail. It is counted off.
fn count_off(plan: &mut Vec<u64>) -> bool
    ensures due { result ≡ is_due plan.old.items }
    ensures plan { plan.new.items ≡ lowered plan.old.items }
{
    let mut due = false;
    for n in plan.iter_mut() {
        if *n == 1 {
            due = true;
        }
        *n = n.saturating_sub(1);
    }
    due
}

impl PerRole<Calls> {
    pub fn none(alloc: Global) -> PerRole<Calls>
        ensures attaches { (role : Role) → (at_role result role).attaches ≡ 0 }
        ensures named { (role : Role) → (at_role result role).named ≡ false }
        ensures ended { (role : Role) → (at_role result role).ended ≡ None }
        ensures plan { (role : Role) → (at_role result role).plan.items ≡ [] }
    {
        PerRole {
            image: Calls::new(alloc),
            events: Calls::new(alloc),
            work: Calls::new(alloc),
            saved: Calls::new(alloc),
            display: Calls::new(alloc),
            transcript: Calls::new(alloc),
            notes: Calls::new(alloc),
        }
    }

    // A call begins. Whether it is to fail.
    pub fn begin(&mut self, role: Role) -> bool
        ensures due { result ≡ is_due (at_role self.old role).plan.items }
        ensures plan { (at_role self.new role).plan.items ≡ lowered (at_role self.old role).plan.items }
        ensures attaches { (at_role self.new role).attaches ≡ (at_role self.old role).attaches }
        ensures named { (at_role self.new role).named ≡ (at_role self.old role).named }
        ensures ended { (at_role self.new role).ended ≡ (at_role self.old role).ended }
        ensures others { SameBut role (at_role self.old) (at_role self.new) }
    {
        count_off(&mut self.at_mut(role).plan)
    }

    // An attach begins. Whether it is to fail.
    pub fn begin_attach(&mut self, role: Role) -> bool
        ensures due { result ≡ is_due (at_role self.old role).plan.items }
        ensures plan { (at_role self.new role).plan.items ≡ lowered (at_role self.old role).plan.items }
        ensures attaches { (at_role self.new role).attaches ≡ counted (at_role self.old role).attaches }
        ensures named { (at_role self.new role).named ≡ false }
        ensures ended { (at_role self.new role).ended ≡ (at_role self.old role).ended }
        ensures others { SameBut role (at_role self.old) (at_role self.new) }
    {
        let calls = self.at_mut(role);
        calls.attaches = calls.attaches.saturating_add(1);
        calls.named = false;
        count_off(&mut calls.plan)
    }

    // An attach answers Ok.
    pub fn end_attach(&mut self, role: Role)
        ensures plan { (at_role self.new role).plan.items ≡ (at_role self.old role).plan.items }
        ensures attaches { (at_role self.new role).attaches ≡ (at_role self.old role).attaches }
        ensures named { (at_role self.new role).named ≡ true }
        ensures ended { (at_role self.new role).ended ≡ None }
        ensures others { SameBut role (at_role self.old) (at_role self.new) }
    {
        let calls = self.at_mut(role);
        calls.named = true;
        calls.ended = None;
    }

    // A write of so many bytes answers Ok, with which so many are put in all: one of none ends the role.
    pub fn end_write(&mut self, role: Role, bytes: usize, put: usize)
        ensures plan { (at_role self.new role).plan.items ≡ (at_role self.old role).plan.items }
        ensures attaches { (at_role self.new role).attaches ≡ (at_role self.old role).attaches }
        ensures named { (at_role self.new role).named ≡ (at_role self.old role).named }
        ensures ended { bytes ≡ 0 → (at_role self.new role).ended ≡ Some put }
        ensures goes_on { 0 < bytes → (at_role self.new role).ended ≡ (at_role self.old role).ended }
        ensures others { SameBut role (at_role self.old) (at_role self.new) }
    {
        if bytes == 0 {
            self.at_mut(role).ended = Some(put);
        }
    }

    // The nth call from now on is to fail.
    pub fn list(&mut self, role: Role, nth: u64) -> Result<(), AllocError>
        ensures ok { OnOk result ((at_role self.new role).plan.items ≡ (at_role self.old role).plan.items ++ nth ∷ []) }
        ensures err { OnErr result ((at_role self.new role).plan.items ≡ (at_role self.old role).plan.items) }
        ensures attaches { (at_role self.new role).attaches ≡ (at_role self.old role).attaches }
        ensures named { (at_role self.new role).named ≡ (at_role self.old role).named }
        ensures ended { (at_role self.new role).ended ≡ (at_role self.old role).ended }
        ensures others { SameBut role (at_role self.old) (at_role self.new) }
    {
        self.at_mut(role).plan.push(nth)?;
        Ok(())
    }
}
