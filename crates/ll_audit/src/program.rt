//! The program as a whole, whatever its files and its outputs are.

ghost use Rattle.std.specs.Prelude.{◌≡◌, ◌+◌, ◌^◌, ◌<◌, ◌≤◌, IfOk, IfErr, map, string_bytes};
ghost use Rattle.ll_command.specs.Command.{request_by};
ghost use Rattle.ll_audit.specs.Fronts.{EndsWithoutRun, HasReason, HasWrongWords, IsFailureOf, IsOutcomeOf, Reports, StaysQuiet, TellsWhy, WritesNothing, WritesReport};
ghost use Rattle.ll_audit.specs.{Audits.IsWorkerCount, ShownReports.told_in};

use crate::auditing::audit_inputs;
use crate::cut::Cut;
use crate::fault::Fault;
use crate::inputs::inputs_of;
use crate::lines::Failure;
use crate::outcome::{Ending, Outcome};
use crate::report_text::ReportText;
use crate::source::Source;
use crate::workers::Workers;
use ll_command::{Plan, Run, plan_of};
use ll_pool::Gate;
use std::alloc::Global;
use std::io::Write;
use std::sync::Wait;
use std::thread::Threads;

/// Runs the program on the words of its command line, of which the first is its own name, and gives
/// its status: 0 with a report that has no refused record, or with help or the version; 1 with a report that has
/// one; 2 where the words are wrong; 3 where a file can't be read or doesn't read; 4 where memory or
/// a thread is missing, or the output can't be written, which may leave a beginning of the report
/// there. The report, the help and the version go to `out`, and what is wrong to `err`. If that can't be written
/// the status stays. The memory of a report that was written is not given back, since a program ends with it.
pub fn front<R: Threads + Wait + Sync, S: Source, O: Write, E: Write, G: Gate + Sync>(
    rt: &R,
    alloc: Global,
    words: &[String],
    source: &mut S,
    out: &mut O,
    err: &mut E,
    gate: &G,
) -> u8
    requires { S.failed source.old + 2 < 2 ^ 64 }
    ensures bounded { result ≤ 4 }
    ensures report { WritesReport (map string_bytes words.now) (S.files source.old) result
        (O.contents out.old) (O.contents out.new) }
    ensures wrong_words { HasWrongWords (map string_bytes words.now) result }
    ensures no_run { EndsWithoutRun (map string_bytes words.now) result }
    ensures nothing { WritesNothing (record { contents = O.contents; old = out.old; new = out.new })
        (map string_bytes words.now) (S.files source.old) result }
    ensures quiet { StaysQuiet result err.old err.new }
    ensures why { HasReason (map string_bytes words.now) (S.files source.old)
        (S.failed source.old) (S.failed source.new) result
        (E.contents err.old) (E.contents err.new) }
{
    let given = Resources { rt, alloc, gate };
    given.front_ending(words, source, out, err).status
}

/// What the program is given beside its words, its files and its outputs: threads, memory, and a gate that is told of
/// each job.
#[derive(Clone, Copy)]
pub struct Resources<'r, R, G> {
    pub rt: &'r R,
    pub alloc: Global,
    pub gate: &'r G,
}

impl<'r, R: Threads + Wait + Sync, G: Gate + Sync> Resources<'r, R, G> {
    /// Runs the program as `front` does, and says beside its status whether what is wrong could be told:
    /// then the error output has the line of just that failure more.
    pub fn front_ending<S: Source, O: Write, E: Write>(
        &self,
        words: &[String],
        source: &mut S,
        out: &mut O,
        err: &mut E,
    ) -> Ending
        requires { S.failed source.old + 2 < 2 ^ 64 }
        ensures bounded { result.status ≤ 4 }
        ensures report { WritesReport (map string_bytes words.now) (S.files source.old)
            result.status (O.contents out.old) (O.contents out.new) }
        ensures wrong_words { HasWrongWords (map string_bytes words.now) result.status }
        ensures no_run { EndsWithoutRun (map string_bytes words.now) result.status }
        ensures nothing { WritesNothing
            (record { contents = O.contents; old = out.old; new = out.new })
            (map string_bytes words.now) (S.files source.old) result.status }
        ensures quiet { StaysQuiet result.status err.old err.new }
        ensures why { TellsWhy (map string_bytes words.now) (S.files source.old)
            (S.failed source.old) (S.failed source.new) result
            (E.contents err.old) (E.contents err.new) }
    {
        outcome_of(self, words, source).write_to(out, err)
    }
}

/// What the words come to.
fn outcome_of<'a, R: Threads + Wait + Sync, S: Source, G: Gate + Sync>(
    given: &Resources<'_, R, G>,
    words: &'a [String],
    source: &mut S,
) -> Outcome<'a>
    requires { S.failed source.old + 2 < 2 ^ 64 }
    ensures { IsOutcomeOf (map string_bytes words.entry.now) (S.files source.old)
        (S.failed source.old) (S.failed source.new) result }
{
    match plan_of(given.alloc, words) {
        Plan::Run(run) => match report_of(given, source, &run) {
            Ok(report) => Outcome::Report(report),
            Err(failure) => Outcome::Failure(failure),
        },
        Plan::Text(text) => Outcome::Text(text),
        Plan::Usage(error) => Outcome::Usage(error),
        Plan::Misuse(why) => Outcome::Misuse(why),
        Plan::Memory => Outcome::Failure(Failure::Audit(Fault::Memory)),
    }
}

/// The report of a run, with the options that it asks for.
fn report_of<'a, R: Threads + Wait + Sync, S: Source, G: Gate + Sync>(
    given: &Resources<'_, R, G>,
    source: &mut S,
    run: &Run<'a>,
) -> Result<ReportText, Failure<'a>>
    requires failures { S.failed source.old + 2 < 2 ^ 64 }
    requires count { IsWorkerCount run.now.workers }
    ensures report { IfOk result
        (λ report. Reports (S.files source.old) (request_by run.now) (told_in report)) }
    ensures failure { IfErr result (IsFailureOf (S.files source.old) (request_by run.now)
        (S.failed source.old) (S.failed source.new)) }
{
    let inputs = inputs_of(given.alloc, source, run)?;
    let cut = Cut::Grain(run.grain);
    let workers = Workers {
        rt: given.rt,
        alloc: given.alloc,
        count: run.workers,
        gate: given.gate,
    };
    Ok(audit_inputs(&workers, inputs, &run.options, cut)?)
}
