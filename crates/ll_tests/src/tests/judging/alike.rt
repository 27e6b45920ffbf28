//! The answers under one kernel by those under another one, where no record changes anything else there.

use crate::tests::judging::worked::{FAMILY_ANSWERS, V4, expect_answers};
use ll_fixtures::{FAMILY, TREE};
use ll_pool::judge_alone;
use ll_process::{Answer, Case, Settled, answers_alike};
use ll_rights::Abi;
use ll_rules::Errno;
use ll_trace::{Effort, Kernel, Located, Trace};
use ll_tree::Tree;
use std::alloc::Global;
use std::process::Abort;
use std::test::Fail;

/// A program that confines itself by a right that came with version 3, if its kernel has it.
const CONFINED_BY_3: &str = "\
{\"op\":\"start\",\"pid\":1,\"nnp\":true}\n\
{\"op\":\"create\",\"pid\":1,\"rs\":3,\"fs\":[\"truncate\"]}\n\
{\"op\":\"restrict\",\"pid\":1,\"rs\":3}\n\
{\"op\":\"truncate\",\"pid\":1,\"path\":\"/a/f\"}\n";

/// A version, with rulesets as they were recorded.
fn recorded(abi: Abi) -> Kernel {
    Kernel {
        abi,
        effort: Effort::AsRecorded,
    }
}

/// The answers under another kernel, by those under one, if they follow from these.
fn answers_by(
    alloc: Global,
    trace: &str,
    one: Kernel,
    other: Kernel,
) -> Result<Option<Vec<Answer>>, Fail> {
    let tree = Tree::read(alloc, TREE.as_bytes())?;
    let trace = Trace::read(alloc, trace.as_bytes())?;
    let located = Located::of(alloc, tree, trace)?;
    let settled = Settled::of(alloc, &located, one)?;
    let others = Settled::of(alloc, &located, other)?;
    let answers = judge_alone(alloc, &Case::of(&located, &settled))?;
    Ok(answers_alike(alloc, &located, &settled, &answers, &others)?)
}

#[test]
fn answers_follow_where_both_kernels_know_all_rights(rt: HostRuntime) -> Result<(), Fail> {
    let Some(answers) = answers_by(rt.alloc(), FAMILY, V4, recorded(Abi::V1))? else {
        panic!(rt; "no record changes anything else under version 1");
    };
    expect_answers(&rt, &answers, FAMILY_ANSWERS);
    Ok(())
}

#[test]
fn answers_follow_where_both_kernels_refuse_a_ruleset(rt: HostRuntime) -> Result<(), Fail> {
    let (one, other) = (recorded(Abi::V2), recorded(Abi::V1));
    let Some(answers) = answers_by(rt.alloc(), CONFINED_BY_3, one, other)? else {
        panic!(rt; "no ruleset is made under either version");
    };
    assert_eq!(rt; answers.len(), 4);
    assert!(rt; matches!(answers[1], Answer::Refused(Errno::Inval, _)));
    assert!(rt; matches!(answers[2], Answer::Refused(Errno::BadFd, _)));
    assert_eq!(rt; answers[3], Answer::Allowed);
    Ok(())
}

#[test]
fn answers_do_not_follow_where_one_kernel_refuses_a_ruleset(rt: HostRuntime) -> Result<(), Fail> {
    let answers = answers_by(rt.alloc(), CONFINED_BY_3, V4, recorded(Abi::V2))?;
    assert!(rt; answers.is_none());
    Ok(())
}
