//! The worked trace, judged in orders that different hands lead to; roots alone; and a long chain of forks.

use crate::keeper::Wanted;
use crate::order::judge_greatest_first;
use crate::tests::judging::worked::{FAMILY_ANSWERS, Forks, ground_of, ground_with, judge_told};
use ll_fixtures::FAMILY;
use ll_pool::assemble;
use ll_process::{Answer, Case};
use ll_trace::ProcessId;
use std::alloc::Global;
use std::process::Abort;
use std::test::Fail;

/// The number of pieces of a case with each hand, whose answers are those told.
fn pieces_by_hand(
    rt: &(impl AllocGlobal + Abort),
    case: &Case,
    told: &str,
) -> Result<[usize; 3], Fail> {
    Ok([
        judge_told(rt, case, told, Wanted::Every)?,
        judge_told(rt, case, told, Wanted::Even)?,
        judge_told(rt, case, told, Wanted::Nothing)?,
    ])
}

/// The number of pieces of the family with each hand.
fn pieces_of_family(rt: &(impl AllocGlobal + Abort)) -> Result<[usize; 3], Fail> {
    let ground = ground_of(rt.alloc(), FAMILY.as_bytes())?;
    pieces_by_hand(rt, &ground.case(), FAMILY_ANSWERS)
}

#[test]
fn answers_are_the_same_whatever_a_hand_keeps(rt: HostRuntime) -> Result<(), Fail> {
    assert_eq!(rt; pieces_of_family(&rt)?, [12, 6, 1]);
    Ok(())
}

/// The process with which the first piece of a case begins.
fn first_judged<'c>(alloc: Global, case: &'c Case<'c>) -> Result<Option<ProcessId>, Fail> {
    let pieces = judge_greatest_first(alloc, case, Wanted::Nothing)?;
    Ok(match pieces.first() {
        Some(piece) => piece.processes().first().copied(),
        None => None,
    })
}

/// The process with which the first piece begins if this many processes start by themselves.
fn first_of_roots(alloc: Global, processes: u32) -> Result<Option<ProcessId>, Fail> {
    let ground = ground_with(alloc, Forks::Nobody, processes)?;
    first_judged(alloc, &ground.case())
}

#[test]
fn the_greatest_process_is_judged_first(rt: HostRuntime) -> Result<(), Fail> {
    assert_eq!(rt; first_of_roots(rt.alloc(), 3)?, Some(ProcessId(2)));
    Ok(())
}

/// How many pieces a hand leads to that keeps nothing, and how many records they allow.
fn allowed_in<'c>(alloc: Global, case: &'c Case<'c>) -> Result<[usize; 2], Fail> {
    let pieces = judge_greatest_first(alloc, case, Wanted::Nothing)?;
    let count = pieces.len();
    let answers = assemble(alloc, case, pieces)?;
    let allowed = answers
        .iter()
        .filter(|answer| **answer == Answer::Allowed)
        .count();
    Ok([count, allowed])
}

/// The same of a chain of forks.
fn allowed_in_chain(alloc: Global) -> Result<[usize; 2], Fail> {
    let ground = ground_with(alloc, Forks::TheOneBefore, 65_536)?;
    allowed_in(alloc, &ground.case())
}

#[test]
fn a_chain_of_65536_processes_is_judged(rt: HostRuntime) -> Result<(), Fail> {
    assert_eq!(rt; allowed_in_chain(rt.alloc())?, [1, 65_536]);
    Ok(())
}
