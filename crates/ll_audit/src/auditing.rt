//! The audit of a trace against a tree.

ghost use Rattle.std.specs.Prelude.{◌≡◌, ◌≢◌, ℕ, List, IfOk, IfErr};
ghost use Rattle.ll_lines.specs.declared.fault.Cause.TheVariants.{Memory as NoMemoryLeft};
ghost use Rattle.ll_tree.specs.TreeReading.{IsTreeOf};
ghost use Rattle.ll_trace.specs.Records.{IsTrace};
ghost use Rattle.ll_report.specs.Made.{told_by};
ghost use Rattle.ll_audit.specs.Audits.{IsWorkerCount, IsFaultOf, IsReport};
ghost use Rattle.ll_audit.specs.ShownReports.{IsReportBy, IsReportWith, told_in};
ghost use Rattle.ll_audit.specs.Inputs.{trace_bytes, tree_bytes};
ghost use Rattle.ll_audit.specs.Causes.{IsTraceFault, IsTreeFault, IsOutOfMemoryOrThreads};

use crate::cut::{Cut, cuts_of};
use crate::fault::Fault;
use crate::inputs::Inputs;
use crate::ranging::{Audit, audit_all};
use crate::report_text::ReportText;
use crate::workers::Workers;
use ll_command::VERSION;
use ll_json::json_report;
use ll_lines::ReadFault;
use ll_pool::Gate;
use ll_report::{ALL_LINES, Format, Options, Report, report_over};
use ll_rights::{Abi, AbiRange};
use ll_trace::{Effort, Trace};
use ll_tree::{Cause, Tree};
use std::alloc::Global;
use std::sync::Wait;
use std::thread::Threads;

/// Audits a trace against a tree, both as the bytes of their files: says for each record what
/// Landlock answers under a version of its interface. The report is the same for every number of
/// workers, which is 1 to 64, and for every cut; they say only which threads judge. The gate is told
/// of each job that a thread begins.
///
/// If `TREE` and `TRACE` are the bytes of both files:
///
/// ```
/// let cut = Cut::Grain(0);
/// let report = audit(&rt, rt.alloc(), TREE, TRACE, Abi::V4, 1, cut, &Idle)?;
/// assert_eq!(rt; report.refused, 1);
/// ```
pub fn audit<R: Threads + Wait + Sync, G: Gate + Sync>(
    rt: &R,
    alloc: Global,
    tree: &[u8],
    trace: &[u8],
    abi: Abi,
    workers: u64,
    cut: Cut,
    gate: &G,
) -> Result<Report, Fault>
    ensures report { IfOk result (IsReport abi tree.now trace.now) }
    ensures count { IfOk result (λ _. IsWorkerCount workers) }
    ensures fault { IfErr result (IsFaultOf workers tree.now trace.now) }
{
    let options = Options {
        abis: AbiRange::only(abi),
        effort: Effort::AsRecorded,
        shown: ALL_LINES,
        format: Format::Text,
    };
    audit_with(rt, alloc, tree, trace, &options, workers, cut, gate)
}

/// Audits a trace against a tree as `audit` does, with options: under each version of a range, of which each
/// may take rulesets at best effort. As much of the report is shown as is asked for, explanations behind
/// the lines of records, or refused records alone, or those whose answer differs between versions, one by one or by
/// kind. The totals are those of all records. The report is written in the form that is asked for. Both files are read once,
/// whatever the number of versions.
///
/// If `TREE` and `TRACE` are the bytes of both files:
///
/// ```
/// let options = Options {
///     abis: AbiRange::only(Abi::V2),
///     effort: Effort::Best,
///     shown: ALL_LINES,
///     format: Format::Json,
/// };
/// let cut = Cut::Grain(0);
/// let report = audit_with(&rt, rt.alloc(), TREE, TRACE, &options, 1, cut, &Idle)?;
/// assert_eq!(rt; report.refused, 1);
/// ```
pub fn audit_with<R: Threads + Wait + Sync, G: Gate + Sync>(
    rt: &R,
    alloc: Global,
    tree: &[u8],
    trace: &[u8],
    options: &Options,
    workers: u64,
    cut: Cut,
    gate: &G,
) -> Result<Report, Fault>
    ensures report { IfOk result
        (λ report. IsReportWith options.now tree.now trace.now (told_by report)) }
    ensures count { IfOk result (λ _. IsWorkerCount workers) }
    ensures fault { IfErr result (IsFaultOf workers tree.now trace.now) }
{
    let workers = Workers {
        rt,
        alloc,
        count: workers,
        gate,
    };
    let report = audit_inputs(&workers, Inputs::Lent { tree, trace }, options, cut)?;
    Ok(report.into_report(alloc)?)
}

/// Audits a trace against a tree as `audit_with` does, and gives the bytes of their files back once they are read.
pub(crate) fn audit_inputs<R: Threads + Wait + Sync, G: Gate + Sync>(
    workers: &Workers<'_, R, G>,
    inputs: Inputs<'_>,
    options: &Options,
    cut: Cut,
) -> Result<ReportText, Fault>
    ensures report { IfOk result (λ report. IsReportWith options.now
        (tree_bytes inputs.entry) (trace_bytes inputs.entry) (told_in report)) }
    ensures count { IfOk result (λ _. IsWorkerCount workers.now.count) }
    ensures fault { IfErr result
        (IsFaultOf workers.now.count (tree_bytes inputs.entry) (trace_bytes inputs.entry)) }
{
    let tree = first_tree(workers, inputs.tree())?;
    let trace = trace_of(workers, inputs)?;
    report_by(workers, tree, trace, options, cut)
}

/// The tree that a file reads as, if there may be this many workers.
fn first_tree<R: Threads + Wait + Sync, G: Gate + Sync>(
    workers: &Workers<'_, R, G>,
    tree: &[u8],
) -> Result<Tree, Fault>
    ensures tree { IfOk result (IsTreeOf tree.now) }
    ensures count { IfOk result (λ _. IsWorkerCount workers.now.count) }
    ensures fault { (trace : List ℕ) → IfErr result (IsFaultOf workers.now.count tree.now trace) }
{
    if workers.count == 0 || workers.count > 64 {
        return Err(Fault::Workers);
    }
    tree_of(workers.alloc, tree)
}

/// The tree that a file reads as.
fn tree_of(alloc: Global, bytes: &[u8]) -> Result<Tree, Fault>
    ensures tree { IfOk result (IsTreeOf bytes.now) }
    ensures fault { IfErr result (IsTreeFault bytes.now) }
{
    match Tree::read(alloc, bytes) {
        Ok(tree) => Ok(tree),
        Err(fault) => match fault.cause {
            Cause::Memory => Err(Fault::Memory),
            _ => Err(Fault::Tree(fault)),
        },
    }
}

/// Why an audit has no trace.
fn trace_fault(fault: ReadFault) -> Fault
    ensures memory { fault.cause ≡ NoMemoryLeft → result ≡ Fault.Memory }
    ensures bad { fault.cause ≢ NoMemoryLeft → result ≡ Fault.Trace fault }
{
    match fault.cause {
        Cause::Memory => Fault::Memory,
        _ => Fault::Trace(fault),
    }
}

/// The trace that a file reads as. The bytes of both files are given back.
fn trace_of<R: Threads + Wait + Sync, G: Gate + Sync>(
    workers: &Workers<'_, R, G>,
    inputs: Inputs<'_>,
) -> Result<Trace, Fault>
    ensures trace { IfOk result (IsTrace (trace_bytes inputs.entry)) }
    ensures fault { IfErr result (IsTraceFault (trace_bytes inputs.entry)) }
{
    match inputs.into_trace(workers) {
        Ok(trace) => Ok(trace),
        Err(fault) => Err(trace_fault(fault)),
    }
}

/// The report that the options ask for.
fn report_by<R: Threads + Wait + Sync, G: Gate + Sync>(
    workers: &Workers<'_, R, G>,
    tree: Tree,
    trace: Trace,
    options: &Options,
    cut: Cut,
) -> Result<ReportText, Fault>
    requires { IsWorkerCount workers.now.count }
    ensures report { IfOk result
        (λ report. IsReportBy options.now tree trace (told_in report)) }
    ensures fault { IfErr result IsOutOfMemoryOrThreads }
{
    let cuts = cuts_of(workers.alloc, &trace, cut)?;
    let audit = Audit {
        workers,
        options,
        cuts: &cuts,
    };
    report_in_form(&audit, tree, trace)
}

/// The report in the form that is asked for.
fn report_in_form<R: Threads + Wait + Sync, G: Gate + Sync>(
    audit: &Audit<'_, R, G>,
    tree: Tree,
    trace: Trace,
) -> Result<ReportText, Fault>
    requires { IsWorkerCount audit.now.workers.now.count }
    ensures report { IfOk result
        (λ report. IsReportBy audit.now.options.now tree trace (told_in report)) }
    ensures fault { IfErr result IsOutOfMemoryOrThreads }
{
    let all = audit_all(audit, tree, trace)?;
    let (alloc, options) = (audit.workers.alloc, audit.options);
    let oldest = options.abis.oldest().number();
    match options.format {
        Format::Text => {
            let report = report_over(alloc, all, options.shown, oldest)?;
            Ok(ReportText::Text(report))
        }
        Format::Json => {
            let report = json_report(alloc, all, options.shown, oldest, VERSION)?;
            Ok(ReportText::Json(report))
        }
    }
}
