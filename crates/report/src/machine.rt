// Reads the text of a report byte by byte.
ghost use Rattle.std.specs.Prelude.{◌≡◌, ◌≤◌, ◌<◌, ◌+◌, IfOk, Ok, OnOk, length};
ghost use Rattle.std.specs.Option.{option_map};
ghost use Rattle.report.specs.inside.Steps;
ghost use Rattle.report.specs.inside.Steps.{step, after, start, finished, with_line};
ghost use Rattle.report.specs.inside.SeenSteps.{Gives, Reads};
ghost use Rattle.report.specs.inside.SeenDrafts.{seen_draft};

use crate::draft::Draft;
use crate::fault::ReportFault;
use crate::limits::TEXT_LIMIT;
use crate::line::line_in;
use crate::value::Report;
use std::alloc::{AllocError, Global};
use std::marker::Model;
use std::mem;

/// How far a text has come: bytes and lines, what the lines said, and the open line.
#[derive(Drop)]
pub struct Machine {
    alloc: Global,
    at: u64,
    lines: u64,
    draft: Draft,
    open_line: Vec<u8>,
}

impl Model for Machine {
    ghost use Rattle.std.specs.Prelude.{◌≤◌};
    ghost use Rattle.report.specs.declared.limits.TheConstants.{TEXT_LIMIT};
    ghost use Rattle.report.specs.inside.Steps.{State};
    ghost use Rattle.report.specs.inside.SeenDrafts.{seen_draft};

    ghost Value = { State };

    ghost view = { λ m. record {
      at = m.at;
      lines = m.lines;
      draft = seen_draft m.draft;
      open_line = m.open_line.items;
    } };

    ghost invariant = { λ m. (m.at ≤ TEXT_LIMIT) × (m.lines ≤ m.at) };
}

// The draft after a line of these bytes.
#[tactic(auto, unfolding(crate::specs::inside::Steps::taken))]
fn taken(alloc: Global, draft: Draft, bytes: &[u8]) -> Result<Option<Draft>, AllocError>
    ensures { IfOk result
        (λ x. option_map seen_draft x ≡ Steps.taken (seen_draft draft) bytes.now) }
{
    match line_in(alloc, bytes)? {
        None => Ok(None),
        Some(line) => draft.follow(alloc, line),
    }
}

impl Machine {
    /// The start of a text.
    pub fn new(alloc: Global) -> Machine
        ensures { result ≡ start }
    {
        Machine {
            alloc,
            at: 0,
            lines: 0,
            draft: Draft::Nothing,
            open_line: Vec::new(alloc),
        }
    }

    // Ends the open line.
    fn end_line(&mut self) -> Result<(), ReportFault>
        requires { self.old.at < TEXT_LIMIT }
        ensures gives { Gives (λ _. self.new) result
            (with_line self.old.at self.old.lines (Steps.taken self.old.draft self.old.open_line)) }
        ensures bound { self.new.at ≤ TEXT_LIMIT }
    {
        let draft = mem::replace(&mut self.draft, Draft::Nothing);
        match taken(self.alloc, draft, self.open_line.as_slice()) {
            Err(_) => Err(ReportFault::Memory),
            Ok(None) => Err(ReportFault::Line(self.lines + 1)),
            Ok(Some(next)) => {
                self.draft = next;
                self.open_line.clear();
                self.lines += 1;
                self.at += 1;
                Ok(())
            }
        }
    }

    /// Takes one more byte.
    pub fn feed(&mut self, b: u8) -> Result<(), ReportFault>
        ensures step { Gives (λ _. self.new) result (step self.old b) }
        ensures at { OnOk result (self.new.at ≡ self.old.at + 1) }
        ensures bound { self.new.at ≤ TEXT_LIMIT }
    {
        if self.at >= TEXT_LIMIT {
            return Err(ReportFault::TooLong);
        }
        if b == b'\n' {
            return self.end_line();
        }
        if self.open_line.push(b).is_err() {
            return Err(ReportFault::Memory);
        }
        self.at += 1;
        Ok(())
    }

    /// Takes these bytes.
    pub fn feed_all(&mut self, bytes: &[u8]) -> Result<(), ReportFault>
        ensures after { Gives (λ _. self.new) result (after (Ok self.old) bytes.now) }
        ensures at { OnOk result (self.new.at ≡ self.old.at + length bytes.now) }
        ensures bound { self.new.at ≤ TEXT_LIMIT }
    {
        // Opens the model, which shows the prover that the text is within the limit so far.
        let _ = &self.at;
        for b in bytes {
            match self.feed(*b) {
                Ok(()) => {}
                Err(fault) => return Err(fault),
            }
        }
        Ok(())
    }

    /// The report, at the end of the text.
    pub fn finish(self) -> Result<Report, ReportFault>
        ensures { Reads result (finished (Ok self)) }
    {
        if !self.open_line.is_empty() {
            return Err(ReportFault::Line(self.lines + 1));
        }
        match self.draft.finish() {
            None => Err(ReportFault::Ends(self.lines + 1)),
            Some(report) => Ok(report),
        }
    }
}
