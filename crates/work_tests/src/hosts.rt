// Hosts with an empty Work.
use loom_outside::{Host, LyingHost, MemoryHost, Role};
use std::alloc::Global;
use std::test::Fail;

/// A host that tells nothing of Work and never lies. The calls on Work of these numbers fail, counted from 1.
pub(crate) fn attached(alloc: Global, failing: &[u64]) -> Result<LyingHost, Fail> {
    let mut inner = MemoryHost::new(alloc, 1_000)?;
    inner.attach(Role::Work, "work")?;
    for nth in failing {
        inner.fail(Role::Work, *nth)?;
    }
    Ok(LyingHost::new(inner, 0, 0))
}
