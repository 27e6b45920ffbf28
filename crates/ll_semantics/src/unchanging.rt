//! What only an allowed record changes.

ghost use Rattle.std.specs.Prelude.{◌≡◌, ◌≢◌, ℕ, List};
ghost use Rattle.ll_rights.specs.declared.abi.Abi.{Abi};
ghost use Rattle.ll_tree.specs.Trees.{Entry};
ghost use Rattle.ll_trace.specs.declared.op.Op.{Op};
ghost use Rattle.ll_semantics.specs.{declared.answer.Answer.TheVariants.Allowed, States.State};
ghost use Rattle.ll_semantics.specs.Effects.{begins, effect};
ghost use Rattle.ll_semantics.specs.Worlds.{World, answer_in, step};

/// A record that isn't answered allowed leaves the world as it was: the rulesets, the state of each process,
/// and which processes there are. What a record begins is guarded by its answer too: whatever begins a
/// process is allowed, in every world.
#[tactic(auto, using(crate::proofs::Steps::world_kept, crate::proofs::Steps::begins_allowed))]
pub fn only_allowed_records_change_the_world()
    ensures unchanged { (tree : List Entry) (abi : Abi) (world : World) (process : ℕ) (op : Op)
        → answer_in tree abi world process op ≢ Allowed → step tree abi world process op ≡ world }
    ensures begun { (tree : List Entry) (abi : Abi) (world : World) (process : ℕ)
        (op : Op) (begun : State)
        → effect tree world.rulesets op (world.processes process) ≡ begins begun
        → answer_in tree abi world process op ≡ Allowed }
{}
