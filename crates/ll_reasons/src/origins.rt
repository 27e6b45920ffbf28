//! What holds of the origins of layers, descriptors and rulesets.

ghost use Rattle.std.specs.Prelude.{◌≡◌, ℕ, List, All, length, filter_map, option_and_then, slice_get, Some, IfSome, is_some};
ghost use Rattle.ll_rights.specs.declared.abi.Abi.{Abi};
ghost use Rattle.ll_tree.specs.Trees.{Entry};
ghost use Rattle.ll_trace.specs.declared.op.Record.{Record};
ghost use Rattle.ll_semantics.specs.States.{Layer};
ghost use Rattle.ll_reasons.specs.Made.{enforced_at, is_restrict, opened_at, is_opening, is_create, IsEarlier, domain_there, BeganAs};
ghost use Rattle.ll_reasons.specs.Conditions.{handled, handled_on_ports};
ghost use Rattle.ll_reasons.specs.Explanations.{domain_at, origins_at, state_at, ruleset_at};

/// The layers of a process are in order the rulesets that the records restricted by which its origins name; each
/// of these records is a `restrict` at an earlier index that was allowed.
pub fn layers_come_from_their_restricts()
    ensures layers { (tree : List Entry) (abi : Abi) (records : List Record) (index process : ℕ)
        → domain_at tree abi records index process
        ≡ filter_map (enforced_at tree abi records)
        (origins_at tree abi records index process).layers }
    ensures restricts { (tree : List Entry) (abi : Abi) (records : List Record) (index process : ℕ)
        → All (IsEarlier is_restrict tree abi records index)
        (origins_at tree abi records index process).layers }
    ensures count { (tree : List Entry) (abi : Abi) (records : List Record) (index process : ℕ)
        → length (origins_at tree abi records index process).layers
        ≡ length (domain_at tree abi records index process) }
    ensures each { (tree : List Entry) (abi : Abi) (records : List Record) (index process i : ℕ)
        → slice_get (domain_at tree abi records index process) i
        ≡ option_and_then (enforced_at tree abi records)
        (slice_get (origins_at tree abi records index process).layers i) }
{}

/// A number is open exactly if its origins name an opening. It is open on what the record of that opening opened,
/// whatever numbers it was duplicated to and processes it was handed down to since. This record is an earlier `open` or
/// `adopt` that was allowed.
pub fn descriptors_come_from_their_openings()
    ensures descriptors { (tree : List Entry) (abi : Abi)
        (records : List Record) (index process fd : ℕ)
        → (state_at tree abi records index process).descriptors fd
        ≡ option_and_then (opened_at tree abi records)
        ((origins_at tree abi records index process).openings fd) }
    ensures open { (tree : List Entry) (abi : Abi) (records : List Record) (index process fd : ℕ)
        → is_some ((origins_at tree abi records index process).openings fd)
        ≡ is_some ((state_at tree abi records index process).descriptors fd) }
    ensures openings { (tree : List Entry) (abi : Abi)
        (records : List Record) (index process fd : ℕ)
        → IfSome ((origins_at tree abi records index process).openings fd)
        (IsEarlier is_opening tree abi records index) }
{}

/// A number is that of a ruleset exactly if its origins name a creation. This is an earlier `create` that was allowed,
/// and the ruleset handles exactly the rights that it names, which at best effort may be none.
pub fn rulesets_come_from_their_creations()
    ensures held { (tree : List Entry) (abi : Abi) (records : List Record) (index process rs : ℕ)
        → is_some ((origins_at tree abi records index process).rulesets rs)
        ≡ is_some ((state_at tree abi records index process).held rs) }
    ensures named { (tree : List Entry) (abi : Abi) (records : List Record) (index process rs : ℕ)
        → is_some (ruleset_at tree abi records index process rs)
        ≡ is_some ((state_at tree abi records index process).held rs) }
    ensures files { (tree : List Entry) (abi : Abi) (records : List Record)
        (index process rs : ℕ) (rules : Layer)
        → ruleset_at tree abi records index process rs ≡ Some rules
        → handled records (origins_at tree abi records index process) rs ≡ rules.handled_files }
    ensures ports { (tree : List Entry) (abi : Abi) (records : List Record)
        (index process rs : ℕ) (rules : Layer)
        → ruleset_at tree abi records index process rs ≡ Some rules
        → handled_on_ports records (origins_at tree abi records index process) rs
        ≡ rules.handled_network }
    ensures creations { (tree : List Entry) (abi : Abi)
        (records : List Record) (index process rs : ℕ)
        → IfSome ((origins_at tree abi records index process).rulesets rs)
        (IsEarlier is_create tree abi records index) }
{}

/// A descriptor's process has in front the layers that it was opened with: layer k then is layer k now.
#[tactic(auto, using(crate::proofs::Grown::grown))]
pub fn layers_keep_their_numbers()
    ensures { (tree : List Entry) (abi : Abi) (records : List Record) (index process fd : ℕ)
        → IfSome ((origins_at tree abi records index process).openings fd)
        (λ k.
        BeganAs (domain_at tree abi records index process) (domain_there tree abi records k)) }
{}
