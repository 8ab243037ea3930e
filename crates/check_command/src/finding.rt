ghost use Rattle.std.specs.Prelude.{◌≡◌, IfOk};
ghost use Rattle.check_command.specs.Finding.{IsFindingOf, end_of, finding_line};

use crate::CheckEnd;
use certificate::{CertFault, Verdict, check, read};
use plan_base::NoMemory;
use std::alloc::Global;

/// The result of checking a text.
#[derive(Clone, Copy, Debug, PartialEq, Eq)]
pub enum Finding {
    /// The text is a certificate, with this verdict.
    Checked { verdict: Verdict },
    /// The text is no certificate; `line` is the first line, from 1, that isn't in the grammar.
    Unreadable { line: u64 },
}

impl Finding {
    /// Reads a text and, if it is a certificate, checks it.
    pub fn of(alloc: Global, text: &[u8]) -> Result<Finding, NoMemory>
        ensures { IfOk result (IsFindingOf text.now) }
    {
        match read(alloc, text) {
            Ok(certificate) => Ok(Finding::Checked {
                verdict: check(&certificate),
            }),
            Err(CertFault::Line { line }) => Ok(Finding::Unreadable { line }),
            Err(CertFault::NoMemory) => Err(NoMemory),
        }
    }

    /// The line that is written: `cheapest`, `no-flow`, `no LINE` or `unreadable LINE`, and LF.
    pub fn line(&self, alloc: Global) -> Result<Vec<u8>, NoMemory>
        ensures { IfOk result (λ line. line.items ≡ finding_line self.now) }
    {
        let line = match self {
            Finding::Checked {
                verdict: Verdict::Cheapest,
            } => "cheapest\n".to_string(alloc)?,
            Finding::Checked {
                verdict: Verdict::NoFlow,
            } => "no-flow\n".to_string(alloc)?,
            Finding::Checked {
                verdict: Verdict::No { line },
            } => format!(in alloc; "no {line}\n")?,
            Finding::Unreadable { line } => format!(in alloc; "unreadable {line}\n")?,
        };
        Ok(line.into_bytes())
    }

    /// How a check with this finding ends, once its line is written.
    pub fn end(&self) -> CheckEnd
        ensures { result ≡ end_of self.now }
    {
        match *self {
            Finding::Checked {
                verdict: Verdict::No { line },
            } => CheckEnd::NotShown {
                line,
                readable: true,
            },
            Finding::Checked { .. } => CheckEnd::Shown,
            Finding::Unreadable { line } => CheckEnd::NotShown {
                line,
                readable: false,
            },
        }
    }
}
