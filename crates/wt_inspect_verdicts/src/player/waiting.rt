//! What streams wait for, and what is left of them.
ghost use Rattle.std.specs.Prelude.{◌≡◌};
ghost use Rattle.wt_inspect_verdicts.specs.Streams.{found_waiting, need_above};

use super::{Player, done};
use crate::verdict::{Finding, Place};
use std::alloc::AllocError;
use vesgrauf::Waits;

impl<'a> Player<'a> {
    /// Reads the encoder stream until so many entries are inserted, or there are no more.
    pub(crate) fn insert(&mut self, need: u64) -> Result<(), AllocError> {
        for _step in 0..u64::MAX {
            if self.inserted >= need || !self.step()? {
                return Ok(());
            }
        }
        Ok(())
    }

    /// Reads the next step of the encoder stream. Returns whether there was one.
    fn step(&mut self) -> Result<bool, AllocError> {
        let Some(id) = self.encoder else {
            return Ok(false);
        };
        if self.next_step >= self.steps.len() {
            return Ok(false);
        }
        let size = self.steps.size_of(self.next_step);
        if let Some(stream) = self.streams.get_mut(&id) {
            stream.reveal(size);
        }
        if self.steps.inserts(self.next_step) {
            self.inserted = self.inserted.saturating_add(1);
        }
        self.next_step = self.next_step.saturating_add(1);
        self.read(id)?;
        Ok(true)
    }

    /// Inserts what streams wait for, as long as there are insertions.
    pub(crate) fn settle(&mut self) -> Result<(), AllocError> {
        for _need in 0..u64::MAX {
            let Some(need) = self.least_need() else {
                return Ok(());
            };
            self.insert(need)?;
            if self.inserted < need {
                return Ok(());
            }
        }
        Ok(())
    }

    /// Returns the fewest insertions for which a stream waits, of those that were not made.
    fn least_need(&self) -> Option<u64> {
        let mut least = None;
        for (id, _) in &self.streams {
            let need = need_above(self.inserted, self.connection.waits(*id));
            least = fewer(least, need);
        }
        least
    }

    /// Reads what is left of a stream, which may have been held.
    pub(crate) fn end(&mut self, id: u64) -> Result<(), AllocError> {
        done(self.connection.pause(id, false))?;
        self.read(id)
    }

    /// Notes what the streams wait for that did not come.
    pub(crate) fn finish(&mut self) -> Result<(), AllocError> {
        for (id, _) in &self.streams {
            if let Some(finding) = found_waiting(self.connection.waits(*id)) {
                self.findings.find(Place::Stream(*id), finding)?;
            }
        }
        Ok(())
    }
}

/// Returns for how many insertions into the dynamic table a stream waits, if for more than these.
fn need_above(inserted: u64, waits: Option<Waits>) -> Option<u64>
    ensures { result ≡ need_above inserted waits }
{
    match waits {
        Some(Waits::Table(need)) if need > inserted => Some(need),
        _ => None,
    }
}

/// Returns what is found of a stream that still waits at the end. An answer is for this end to give.
fn found_waiting(waits: Option<Waits>) -> Option<Finding>
    ensures { result ≡ found_waiting waits }
{
    match waits {
        Some(Waits::Table(need)) => Some(Finding::Blocked(need)),
        Some(Waits::Session(session)) => Some(Finding::NoSession(session)),
        Some(Waits::Settings) => Some(Finding::NoSettings),
        Some(Waits::Answer) | None => None,
    }
}

/// Returns the lower of two numbers of which there may be none.
fn fewer(one: Option<u64>, other: Option<u64>) -> Option<u64> {
    match (one, other) {
        (Some(one), Some(other)) => Some(one.min(other)),
        (one, None) => one,
        (None, other) => other,
    }
}
