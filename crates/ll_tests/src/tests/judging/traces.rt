//! Worked traces that a hand judges which keeps nothing.

use crate::keeper::Wanted;
use crate::tests::judging::worked::{ground_at_best_effort, ground_of, judge_told};
use ll_rights::Abi;
use std::process::Abort;
use std::test::Fail;

/// A program that confines itself twice, first by a ruleset for ports alone.
const PORTS_FIRST: &[u8] = b"\
{\"op\":\"start\",\"pid\":10}\n\
{\"op\":\"nnp\",\"pid\":10}\n\
{\"op\":\"create\",\"pid\":10,\"rs\":3,\"net\":[\"bind_tcp\"]}\n\
{\"op\":\"create\",\"pid\":10,\"rs\":3,\"net\":[\"connect_tcp\"]}\n\
{\"op\":\"add_port\",\"pid\":10,\"rs\":3,\"port\":80,\"net\":[\"bind_tcp\"]}\n\
{\"op\":\"restrict\",\"pid\":10,\"rs\":3}\n\
{\"op\":\"bind\",\"pid\":10,\"port\":8080}\n\
{\"op\":\"mount\",\"pid\":10}\n\
{\"op\":\"create\",\"pid\":10,\"rs\":4,\"fs\":[\"read_file\"]}\n\
{\"op\":\"restrict\",\"pid\":10,\"rs\":4}\n\
{\"op\":\"open\",\"pid\":10,\"path\":\"/a/f\",\"fd\":4,\"mode\":\"r\"}\n\
{\"op\":\"rename\",\"pid\":10,\"from\":\"/a/f\",\"to\":\"/b/h\"}\n\
{\"op\":\"mount\",\"pid\":10}\n";

/// The answers at version 4, which supports all that the program uses.
const CONFINED: &str = "a a a m a a E1 a a a E2 X2 P2";

/// The number of pieces at best effort, whose answers are those told.
fn pieces_at(rt: &(impl AllocGlobal + Abort), abi: Abi, told: &str) -> Result<usize, Fail> {
    let ground = ground_at_best_effort(rt.alloc(), abi, PORTS_FIRST)?;
    judge_told(rt, &ground.case(), told, Wanted::Nothing)
}

/// At best effort a ruleset of which a version supports nothing refuses nothing, and its layer keeps its number.
#[test]
fn layers_keep_their_numbers_at_best_effort(rt: HostRuntime) -> Result<(), Fail> {
    let pieces = [
        pieces_at(&rt, Abi::V3, "a a a m m a a a a a E2 X2 P2")?,
        pieces_at(&rt, Abi::V4, CONFINED)?,
    ];
    assert_eq!(rt; pieces, [1, 1]);
    Ok(())
}

/// The number of pieces at version 4, whose answers are those told.
fn pieces_of(rt: &(impl AllocGlobal + Abort), told: &str) -> Result<usize, Fail> {
    let ground = ground_of(rt.alloc(), PORTS_FIRST)?;
    judge_told(rt, &ground.case(), told, Wanted::Nothing)
}

#[test]
fn layers_are_numbered_as_they_are_made(rt: HostRuntime) -> Result<(), Fail> {
    assert_eq!(rt; pieces_of(&rt, CONFINED)?, 1);
    Ok(())
}

/// A rule is added after a ruleset was frozen, and the ruleset is then frozen twice more without another rule.
const LATER_RULE: &[u8] = b"\
{\"op\":\"start\",\"pid\":10}\n\
{\"op\":\"nnp\",\"pid\":10}\n\
{\"op\":\"create\",\"pid\":10,\"rs\":3,\"fs\":[\"read_file\"]}\n\
{\"op\":\"restrict\",\"pid\":10,\"rs\":3}\n\
{\"op\":\"add_path\",\"pid\":10,\"rs\":3,\"path\":\"/a\",\"fs\":[\"read_file\"]}\n\
{\"op\":\"restrict\",\"pid\":10,\"rs\":3}\n\
{\"op\":\"restrict\",\"pid\":10,\"rs\":3}\n";

/// No clause bounds the number of layers.
#[test]
fn a_ruleset_without_a_new_rule_is_frozen_once(rt: HostRuntime) -> Result<(), Fail> {
    let ground = ground_of(rt.alloc(), LATER_RULE)?;
    assert_eq!(rt; ground.case().layers().len(), 2);
    Ok(())
}

/// What layers grant is known where a trace has records enough for it: there are two layers, and eight nodes.
#[test]
fn grants_are_known_where_there_are_many_records(rt: HostRuntime) -> Result<(), Fail> {
    let (many, few) = (
        ground_of(rt.alloc(), PORTS_FIRST)?,
        ground_of(rt.alloc(), LATER_RULE)?,
    );
    assert_eq!(rt; many.case().grants().len(), 2);
    assert_eq!(rt; few.case().grants().len(), 0);
    Ok(())
}
