//! Laws on judging processes one at a time, and on distributing processes.

ghost use Rattle.std.specs.Prelude.{◌≡◌, ℕ, ◌+◌, ◌<◌, List};
ghost use Rattle.ll_trace.specs.declared.op.Record.{Record};
ghost use Rattle.ll_trace.specs.Processes.{IsNumbered, process_count, times, roots, kids};
ghost use Rattle.ll_process.specs.Orders.{ChangesNoOther, ChangesRulesetsAlone, DependsOnOwn};

/// The law of orders: a record changes only its own process, or the one that it starts, and the
/// rulesets; and its answer depends only on these. So processes may be judged one at a time, each
/// after its parent, once the rulesets are settled in the order of the trace.
pub fn law_of_orders()
    ensures others { ChangesNoOther }
    ensures rulesets { ChangesRulesetsAlone }
    ensures own { DependsOnOwn }
{}

/// If a list has the roots of a trace together with the children of its own members, each as often,
/// it has all processes of the trace, each once.
#[tactic(auto, using(ll_trace::proofs::EachOnce::each_once))]
pub fn each_process_once()
    ensures { (records : List Record) (processes : List ℕ) → IsNumbered records
        → ((process : ℕ) → times process processes
        ≡ times process (roots records) + times process (kids records processes))
        → (process : ℕ) → process < process_count records → times process processes ≡ 1 }
{}
