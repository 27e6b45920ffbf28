//! The latest process of each pid.

ghost use Rattle.std.specs.Prelude.{◌≡◌, ◌==◌, ◌<◌, ◌%◌, ℕ, Some, OnErr, OnOk, if◌then◌else◌, length, slice_get};
ghost use Rattle.ll_trace.specs.declared.owners.RecentPid.{RecentPid as OneRecentPid};
ghost use Rattle.std.specs.FinMap as finite;

use crate::op::ProcessId;
use ll_shared::SharedMap;
use std::alloc::{AllocError, Global};
use std::marker::Model;

/// How many pids are found without the map.
const RECENT_PIDS: usize = 4096;

/// The latest process of a pid.
#[derive(Clone, Copy)]
pub(crate) struct Owner {
    pub(crate) process: ProcessId,
    pub(crate) running: bool,
}

/// A pid with which a process was started or ended, and the latest process of this pid.
#[derive(Clone, Copy)]
struct RecentPid {
    pid: u64,
    owner: Owner,
}

/// The latest process of each pid. The way to a pid in the map has a step for every two bits of it, so a table in front
/// of the map has the pids with which processes were last started or ended, one for each remainder by its length.
#[derive(Drop)]
pub(crate) struct Owners {
    alloc: Global,
    map: SharedMap<Owner>,
    recent: Vec<Option<RecentPid>>,
}

impl Model for Owners {
    ghost use Rattle.std.specs.Prelude.{◌≡◌, ◌<◌, ◌%◌, ℕ, Bool, Some, length, refl, slice_get};
    ghost use Rattle.std.specs.Ordering.{nat_cmp};
    ghost use Rattle.std.specs.FinMap as finite;
    ghost use Rattle.std.specs.Coded.{code_by, coded×, coded_bool, coded_ℕ};
    ghost use Rattle.ll_trace.specs.declared.owners.Owner.{Owner};
    ghost use Rattle.ll_trace.specs.declared.owners.RecentPid.{RecentPid};
    ghost use Rattle.ll_trace.specs.declared.owners.TheConstants.{RECENT_PIDS};

    ghost Value = { finite.FinMap nat_cmp Owner };

    ghost coded = { finite.code coded_ℕ (code_by (ℕ × Bool) (coded× coded_ℕ coded_bool)
        (λ owner. (owner.process.0, owner.running))
        (λ pair. record { process = record { 0 = pair.0 }; running = pair.1 }) (λ _. refl)) };

    ghost view = { λ owners. owners.map };

    ghost invariant = { λ owners.
        (0 < length owners.recent.items → length owners.recent.items ≡ RECENT_PIDS)
        × ((at : ℕ) (one : RecentPid) → slice_get owners.recent.items at ≡ Some (Some one)
        → (one.pid % RECENT_PIDS ≡ at) × (finite.get owners.map one.pid ≡ Some one.owner)) };
}

/// The slot of a pid in the table.
fn slot_of(pid: u64) -> usize
    ensures at { result ≡ pid % RECENT_PIDS }
    ensures within { result < RECENT_PIDS }
{
    (pid % RECENT_PIDS as u64) as usize
}

/// Makes a table without a pid, if there is no table yet.
fn make_table(alloc: Global, table: &mut Vec<Option<RecentPid>>) -> Result<(), AllocError>
    requires { 0 < length table.old.items → length table.old.items ≡ RECENT_PIDS }
    ensures size { OnOk result (length table.new.items ≡ RECENT_PIDS) }
    ensures same { OnOk result ((at : ℕ) (one : OneRecentPid)
        → slice_get table.new.items at ≡ Some (Some one)
        → slice_get table.old.items at ≡ Some (Some one)) }
    ensures err { OnErr result (table.new.items ≡ table.old.items) }
{
    if table.is_empty() {
        *table = vec![in alloc; None; RECENT_PIDS]?;
    }
    Ok(())
}

impl Owners {
    /// No pid. It takes no memory.
    pub(crate) fn new(alloc: Global) -> Owners
        ensures { result ≡ finite.empty }
    {
        Owners {
            alloc,
            map: SharedMap::new(alloc),
            recent: Vec::new(alloc),
        }
    }

    /// The latest process of a pid.
    pub(crate) fn get(&self, pid: u64) -> Option<Owner>
        ensures { result ≡ finite.get self.now pid }
    {
        match self.recent.get(slot_of(pid)) {
            Some(Some(one)) if one.pid == pid => Some(one.owner),
            _ => self.map.get(pid).copied(),
        }
    }

    /// Gives a pid its latest process.
    pub(crate) fn insert(&mut self, pid: u64, owner: Owner) -> Result<(), AllocError>
        ensures each { OnOk result ((q : ℕ)
            → finite.get self.new q ≡ (if pid == q then Some owner else finite.get self.old q)) }
    {
        make_table(self.alloc, &mut self.recent)?;
        self.map.insert(pid, owner)?;
        self.recent[slot_of(pid)] = Some(RecentPid { pid, owner });
        Ok(())
    }
}
