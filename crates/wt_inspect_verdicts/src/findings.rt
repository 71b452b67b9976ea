//! What was found so far.
ghost use Rattle.wt_inspect_verdicts.specs.Findings.{AreFound};

use crate::verdict::{Finding, Place, Verdict, finding_of, place_of};
use std::alloc::{AllocError, Global};
use vesgrauf::event::{Event, Failure};

/// What was found so far: nothing more, once an error ended the connection.
#[derive(Drop)]
pub(crate) struct Findings {
    alloc: Global,
    verdicts: Vec<Verdict>,
    /// Whether an error ended the connection.
    is_over: bool,
    ghost found: { AreFound is_over verdicts.items },
}

impl Findings {
    ghost use Rattle.std.specs.Prelude.{◌≡◌, false, [], IfOk, OnErr, Some};
    ghost use Rattle.wt_inspect_verdicts.specs.Findings.{EndOnce, is_end, place_in};
    ghost use Rattle.wt_inspect_verdicts.specs.Noting.{Adds, FindsNothing, FindsSaid, Notes};

    /// Creates no findings.
    pub(crate) fn new(alloc: Global) -> Self
        ensures none { result.verdicts.items ≡ [] }
        ensures open { result.is_over ≡ false }
    {
        Findings {
            alloc,
            verdicts: Vec::new(alloc),
            is_over: false,
        }
    }

    /// Notes what an event says of the peer, if the event is of what came from a place. `is_open`: a
    /// session was opened on its stream. `failure` is the rule that ended the connection.
    ///
    /// Returns [`AllocError`] if allocation fails; then nothing was found.
    pub(crate) fn note(
        &mut self,
        from: Place,
        event: &Event<'_>,
        is_open: bool,
        failure: Option<Failure>,
    ) -> Result<(), AllocError>
        ensures noted { IfOk result (λ _. Notes from event.now «is_open» failure self.old self.new) }
        ensures kept { OnErr result (FindsNothing self.old self.new) }
    {
        match finding_of(self.alloc, event, is_open, failure)? {
            Some(finding) => self.find(place_of(from, event, failure), finding),
            None => Ok(()),
        }
    }

    /// Notes what was found, unless an error ended the connection before.
    ///
    /// Returns [`AllocError`] if allocation fails; then nothing was found.
    pub(crate) fn find(&mut self, place: Place, finding: Finding) -> Result<(), AllocError>
        ensures found { IfOk result (λ _. FindsSaid place (Some finding) self.old self.new) }
        ensures kept { OnErr result (FindsNothing self.old self.new) }
    {
        if self.is_over {
            return Ok(());
        }
        let ends = finding.ends_connection();
        self.add(Verdict { place, finding }, ends)
    }

    /// Appends a verdict, which ends the connection or not.
    ///
    /// Returns [`AllocError`] if allocation fails; then nothing was found.
    #[tactic(auto, using(crate::proofs::FindingLemmas::found_more))]
    fn add(&mut self, verdict: Verdict, ends: bool) -> Result<(), AllocError>
        requires open { self.old.is_over ≡ false }
        requires ends { ends ≡ is_end verdict }
        ensures added { IfOk result (λ _. Adds verdict self.old self.new) }
        ensures kept { OnErr result (FindsNothing self.old self.new) }
    {
        self.verdicts.push(verdict)?;
        self.is_over = ends;
        Ok(())
    }

    /// Returns what was found.
    pub(crate) fn into_verdicts(self) -> Vec<Verdict>
        ensures once { EndOnce result.items }
        ensures all { result.items ≡ self.verdicts.items }
    {
        self.verdicts
    }
}
