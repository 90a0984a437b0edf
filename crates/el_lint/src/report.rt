//! What is written of a script.
ghost use Rattle.std.specs.Prelude.{◌≡◌, ◌++◌, IfOk, OnOk};
ghost use Rattle.el_check.specs.declared.kind.CheckKind.TheVariants.{NoMemory as no_memory};
ghost use Rattle.el_lint.specs.Reports.{place_text, finding_line, finding_lines, fault_line, refusal_line, status_of, IsReport};

use crate::finding::Finding;
use crate::line_fault::LineFault;
use crate::linting::find;
use crate::sentence::put_sentence;
use el_check::{CheckFault, CheckKind, Params};
use el_words::{Bytes, NoMemory, put_u64};
use std::alloc::Global;

// The statuses of a script without findings, of one with some, and of one that isn't accepted.
const CLEAN: u8 = 0;

const FOUND: u8 = 1;

const REFUSED: u8 = 100;

/// Lines that are written of a script, and the status that goes with them.
#[derive(Drop)]
pub struct Report {
    pub text: Bytes,
    pub status: u8,
}

/// What is written of the script of a file that is called so: a line `FILE:LINE: warning: SENTENCE [NAME]` for each finding, with the
/// status 1 where there is one; or the first fault of a script that isn't accepted, a line `FILE:LINE: KIND`, with 100. The only error is
/// want of memory.
pub fn report_of(
    alloc: Global,
    params: Params,
    file: &[u8],
    script: &[u8],
) -> Result<Report, NoMemory>
    ensures { IfOk result (IsReport params file.now script.now) }
{
    match find(alloc, params, script) {
        Ok(findings) => findings_told(alloc, file, &findings),
        Err(fault) => fault_told(alloc, file, fault),
    }
}

/// What is written of the script of a file that is called so, where its first line is at fault: a line `FILE:1: KIND: SENTENCE`,
/// with 100. The only error is want of memory.
#[tactic(auto, unfolding(crate::specs::Reports::refusal_line))]
pub fn refusal_of(alloc: Global, file: &[u8], fault: LineFault) -> Result<Report, NoMemory>
    ensures text { IfOk result (λ report. report.text ≡ refusal_line file.now fault) }
    ensures status { IfOk result (λ report. report.status ≡ 100) }
{
    let mut text = Bytes::new(alloc);
    put_place(alloc, file, 1, &mut text)?;
    text.append(fault.kind())?;
    text.append(b": ")?;
    text.append(fault.sentence())?;
    text.append(b"\n")?;
    let status = REFUSED;
    Ok(Report { text, status })
}

// What is written of a script that is accepted.
fn findings_told(alloc: Global, file: &[u8], findings: &[Finding]) -> Result<Report, NoMemory>
    ensures text { IfOk result (λ report. report.text ≡ finding_lines file.now findings.now) }
    ensures status { IfOk result (λ report. report.status ≡ status_of findings.now) }
{
    let mut text = Bytes::new(alloc);
    for finding in findings {
        put_finding(alloc, file, finding, &mut text)?;
    }
    let status = if findings.is_empty() { CLEAN } else { FOUND };
    Ok(Report { text, status })
}

#[tactic(auto, unfolding(crate::specs::Reports::finding_line))]
fn put_finding(
    alloc: Global,
    file: &[u8],
    finding: &Finding,
    text: &mut Bytes,
) -> Result<(), NoMemory>
    ensures { OnOk result (text.new ≡ text.old ++ finding_line file.now finding.now) }
{
    put_place(alloc, file, finding.line, text)?;
    text.append(b"warning: ")?;
    put_sentence(&finding.lint, text)?;
    text.append(b" [")?;
    text.append(finding.lint.name())?;
    text.append(b"]\n")
}

// And of any other, unless there was no memory.
#[tactic(auto, unfolding(crate::specs::Reports::fault_line))]
fn fault_told(alloc: Global, file: &[u8], fault: CheckFault) -> Result<Report, NoMemory>
    ensures text { IfOk result (λ report. report.text ≡ fault_line file.now fault.kind fault.line) }
    ensures status { IfOk result (λ report. report.status ≡ 100) }
    ensures known { IfOk result (λ report. fault.kind ≡ no_memory → ⊥) }
{
    if fault.kind == CheckKind::NoMemory {
        return Err(NoMemory);
    }
    let mut text = Bytes::new(alloc);
    put_place(alloc, file, fault.line, &mut text)?;
    text.append(fault.kind.name().as_bytes())?;
    text.append(b"\n")?;
    Ok(Report {
        text,
        status: REFUSED,
    })
}

#[tactic(auto, unfolding(crate::specs::Reports::place_text))]
fn put_place(alloc: Global, file: &[u8], line: u32, text: &mut Bytes) -> Result<(), NoMemory>
    ensures { OnOk result (text.new ≡ text.old ++ place_text file.now line) }
{
    let number = put_u64(alloc, u64::from(line))?;
    text.append(file)?;
    text.append(b":")?;
    text.append(number.as_bytes())?;
    text.append(b": ")
}
