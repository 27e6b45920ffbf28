//! Cases against the worked tree, and the answers that their records are to get.

use crate::ground::Ground;
use crate::keeper::Wanted;
use crate::order::judge_greatest_first;
use ll_fixtures::TREE;
use ll_pool::assemble;
use ll_process::{Answer, Case};
use ll_rights::Abi;
use ll_rules::{Errno, LayerSet};
use ll_trace::{Effort, Kernel, Located, Trace};
use ll_tree::Tree;
use std::alloc::{AllocError, Global};
use std::io::Write;
use std::process::Abort;
use std::test::Fail;

/// The answers to the records of the worked trace, a word for each: `a` for allowed, `m` for moot, and where one layer
/// alone refuses `E`, `X` or `P` (`EACCES`, `EXDEV`, `EPERM`) with its number.
pub(crate) const FAMILY_ANSWERS: &str = "a a a a a a a a a a a a a a a a a E1 a a E1 m P1 a a";

/// Whether a layer is the only one of a set.
fn is_alone(layers: LayerSet, number: u32) -> bool {
    (1..=16u32).all(|other| layers.has(other) == (other == number))
}

fn is_refused(error: Errno, layers: LayerSet, word: &str) -> bool {
    let letter = match error {
        Errno::Acces => 'E',
        Errno::XDev => 'X',
        Errno::Perm => 'P',
        _ => return false,
    };
    match word.strip_prefix(letter) {
        Some("1") => is_alone(layers, 1),
        Some("2") => is_alone(layers, 2),
        _ => false,
    }
}

/// Whether a word tells an answer.
pub(crate) fn is_told(answer: &Answer, word: &str) -> bool {
    match answer {
        Answer::Allowed => word == "a",
        Answer::Moot => word == "m",
        Answer::Refused(error, layers) => is_refused(*error, *layers, word),
    }
}

/// The answers are those told.
pub(crate) fn expect_answers(rt: &impl Abort, answers: &[Answer], told: &str) {
    assert_eq!(rt; answers.len(), told.split_ascii_whitespace().count());
    for (answer, word) in answers.iter().zip(told.split_ascii_whitespace()) {
        assert!(rt; is_told(answer, word), "{answer:?} for {word}");
    }
}

/// Version 4, with rulesets as they were recorded.
pub(crate) const V4: Kernel = Kernel {
    abi: Abi::V4,
    effort: Effort::AsRecorded,
};

/// The ground of the case of a tree and a trace under a kernel.
pub(crate) fn ground_on(
    alloc: Global,
    tree: Tree,
    trace: Trace,
    kernel: Kernel,
) -> Result<Ground, AllocError> {
    let located = Located::of(alloc, tree, trace)?;
    Ground::new(alloc, located, kernel)
}

/// The same of the worked tree.
fn ground_under(alloc: Global, trace: &[u8], kernel: Kernel) -> Result<Ground, Fail> {
    let tree = Tree::read(alloc, TREE.as_bytes())?;
    let trace = Trace::read(alloc, trace)?;
    Ok(ground_on(alloc, tree, trace, kernel)?)
}

/// The same at version 4.
pub(crate) fn worked_ground(alloc: Global, trace: &[u8]) -> Result<Ground, Fail> {
    ground_under(alloc, trace, V4)
}

/// The same in a box: to drop a box takes one step in each path out of a function that owns it.
pub(crate) fn ground_of(alloc: Global, trace: &[u8]) -> Result<Box<Ground>, Fail> {
    let ground = worked_ground(alloc, trace)?;
    Ok(Box::new(alloc, ground)?)
}

/// The ground of the case of a program that goes by its kernel's version.
pub(crate) fn ground_at_best_effort(alloc: Global, abi: Abi, trace: &[u8]) -> Result<Ground, Fail> {
    let effort = Effort::Best;
    ground_under(alloc, trace, Kernel { abi, effort })
}

/// Who forks the processes of a trace but the first, whose pid is 1.
#[derive(Clone, Copy)]
pub(crate) enum Forks {
    /// They start by themselves.
    Nobody,
    TheFirst,
    TheOneBefore,
    /// Each process forks two.
    TheOneAtHalf,
}

impl Forks {
    /// The process that forks another.
    fn parent(self, pid: u32) -> Option<u32> {
        if pid < 2 {
            return None;
        }
        match self {
            Forks::Nobody => None,
            Forks::TheFirst => Some(1),
            Forks::TheOneBefore => Some(pid - 1),
            Forks::TheOneAtHalf => Some(pid / 2),
        }
    }
}

/// The ground of the case of so many processes that do nothing else.
pub(crate) fn ground_with(
    alloc: Global,
    forks: Forks,
    processes: u32,
) -> Result<Box<Ground>, Fail> {
    let mut trace = Vec::new(alloc);
    for pid in 1..=processes {
        match forks.parent(pid) {
            None => writeln!(trace, "{{\"op\":\"start\",\"pid\":{pid}}}")?,
            Some(parent) => {
                writeln!(
                    trace,
                    "{{\"op\":\"fork\",\"pid\":{parent},\"child\":{pid}}}"
                )?
            }
        }
    }
    ground_of(alloc, &trace)
}

/// Judges a case with a hand that keeps what is wanted, and compares the answers. The result is the number of pieces.
pub(crate) fn judge_told(
    rt: &(impl AllocGlobal + Abort),
    case: &Case,
    told: &str,
    wanted: Wanted,
) -> Result<usize, Fail> {
    let pieces = judge_greatest_first(rt.alloc(), case, wanted)?;
    let count = pieces.len();
    let answers = assemble(rt.alloc(), case, pieces)?;
    expect_answers(rt, &answers, told);
    Ok(count)
}
