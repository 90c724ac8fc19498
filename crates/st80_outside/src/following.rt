// Shows how many bytecodes of a run were run.
use crate::progress::Screen;
use long_names::LAST_NAME;
use machine_run::{Observer, Progress};
use std::alloc::AllocError;
use std::time::{Duration, Instant};

/// Follows the bytecodes of a run.
#[derive(Drop)]
pub(crate) struct Following<'s> {
    screen: &'s Screen,
    // When it looked last, and how many bytecodes were run then.
    last: Option<(Instant, u32)>,
}

impl<'s> Following<'s> {
    pub(crate) fn new(screen: &'s Screen) -> Following<'s> {
        Following { screen, last: None }
    }

    fn show(&mut self, progress: Progress) -> Result<(), AllocError> {
        let screen = self.screen;
        let Some(now) = screen.now() else {
            return Ok(());
        };
        let Some((since, before)) = self.last else {
            self.last = Some((now, progress.ran));
            return Ok(());
        };
        if screen.is_due(now) {
            let ran = progress.ran;
            let rate = rate(ran.saturating_sub(before), now.duration_since(since));
            let names = names_left(progress.next_name);
            let ticks = u32::MAX - progress.clock;
            screen.put(&format!(in screen.alloc();
                "{ran} bytecodes, {rate}/s, {names} names and {ticks} ticks left"
            )?);
            self.last = Some((now, ran));
        }
        Ok(())
    }
}

// How many objects can be made yet: names are even, and the last is LAST_NAME - 2.
fn names_left(next: u32) -> u32 {
    LAST_NAME.saturating_sub(next) / 2
}

// How many in a second, where there were so many in this time.
fn rate(count: u32, passed: Duration) -> u64 {
    let millis = passed
        .as_secs()
        .saturating_mul(1_000)
        .saturating_add(u64::from(passed.subsec_millis()));
    u64::from(count).saturating_mul(1_000) / millis.max(1)
}

impl Observer for Following<'_> {
    // Where there is no memory for a line, none comes.
    fn observe(&mut self, progress: Progress) {
        let _ = self.show(progress);
    }
}
