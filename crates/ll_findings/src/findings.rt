//! What is found under neighbouring versions.

ghost use Rattle.std.specs.Prelude.{◌≡◌, ◌∷◌, [], IfOk, false};
ghost use Rattle.ll_semantics.specs.Worlds.{judged};
ghost use Rattle.ll_findings.specs.Alike.{AreAlike};
ghost use Rattle.ll_findings.specs.Findings.{StandsInFront};

use crate::finding::Finding;
use ll_process::Case;
use ll_semantics::Answer;
use std::alloc::{AllocError, Global};
use std::marker::Model;
use std::thread::Threads;

/// What is found under neighbouring versions, the oldest first, with a mark for each record about which they may
/// differ. What an older version finds is compared with what a newer one finds as soon as it is known.
#[derive(Drop)]
pub struct Findings {
    all: Vec<Finding>,
    marks: Vec<bool>,
}

impl Model for Findings {
    ghost use Rattle.std.specs.Prelude.{List};
    ghost use Rattle.ll_findings.specs.Alike.{AreMarked};
    ghost use Rattle.ll_findings.specs.Findings.{FindingValue};

    ghost Value = { List FindingValue };

    ghost view = { λ findings. findings.all.items };

    ghost invariant = { λ findings. AreMarked findings.all.items findings.marks.items };
}

/// What is found under a version, in front of what is found under newer ones.
fn in_front(finding: Finding, newer: Vec<Finding>) -> Result<Vec<Finding>, AllocError>
    ensures { IfOk result (λ all. all.items ≡ finding ∷ newer.items) }
{
    let mut all = newer;
    all.insert(0, finding)?;
    Ok(all)
}

impl Findings {
    /// Of no version.
    pub fn none(alloc: Global) -> Findings
        ensures { result ≡ [] }
    {
        Findings {
            all: Vec::new(alloc),
            marks: Vec::new(alloc),
        }
    }

    /// What is found under an older version too, by the answers to the records of its case. At most this many threads
    /// work its explanations out, if these are asked for.
    pub fn with<R: Threads + Sync>(
        self,
        rt: &R,
        alloc: Global,
        case: &Case<'_>,
        answers: Vec<Answer>,
        explains: bool,
        workers: usize,
    ) -> Result<Findings, AllocError>
        requires { answers.items ≡ judged case.now.tree case.now.abi case.now.records }
        ensures { IfOk result
            (StandsInFront explains case.now.tree case.now.abi case.now.records self) }
    {
        let Findings { all, mut marks } = self;
        let finding = match all.split_first() {
            Some((newer, _)) => newer.older(
                rt, alloc, case, answers, explains, &mut marks, workers,
            )?,
            None => {
                marks.resize(answers.len(), false)?;
                Finding::of(rt, alloc, case, answers, explains, workers)?
            }
        };
        Ok(Findings {
            all: in_front(finding, all)?,
            marks,
        })
    }

    /// What is found under each version, the oldest first.
    pub fn as_slice(&self) -> &[Finding]
        ensures { result.now ≡ self.now }
    {
        &self.all
    }

    /// Whether versions may differ about the record at an index.
    pub fn is_apart(&self, index: usize) -> bool
        ensures { result ≡ false → AreAlike self.now index }
    {
        match self.marks.get(index) {
            Some(is_apart) => *is_apart,
            None => true,
        }
    }
}
