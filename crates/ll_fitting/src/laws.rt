//! What holds of fitted policies by their definitions.

ghost use Rattle.std.specs.Prelude.{◌≡◌, ◌&&◌, ◌||◌, ℕ, true, false, List, None, All};
ghost use Rattle.ll_rights.specs.declared.kind.Kind.{Kind as ObjectKind};
ghost use Rattle.ll_rights.specs.Rights as files;
ghost use Rattle.ll_rights.specs.NetRights as network;
ghost use Rattle.ll_rights.specs.Families.{for_files, for_network};
ghost use Rattle.ll_tree.specs.Trees.{is_dir};
ghost use Rattle.ll_fitting.specs.declared.written.PathRule.{PathRule as Rule};
ghost use Rattle.ll_fitting.specs.declared.written.PortRule.{PortRule as RuleOnPort};
ghost use Rattle.ll_rights.specs.declared.abi.Abi.{Abi};
ghost use Rattle.ll_fitting.specs.Written.{Layer, listed, lists, lists_for_files};
ghost use Rattle.ll_fitting.specs.Fitting.{fitted, is_for_files, is_left, rights_at, rights_on_port};
ghost use Rattle.ll_fitting.specs.Misfits.{misfit};
ghost use Rattle.ll_fitting.specs.Taken.{IsValid};

use crate::written::Parent;
use ll_rights::Kind;

/// What a version leaves of a policy, the kernel takes at this version, but for rules on files that only directories
/// can have.
pub fn what_is_left_is_valid()
    ensures { (abi : Abi) (policy : List Layer) → misfit policy ≡ None
        → All (IsValid abi) (fitted abi policy) }
{}

/// A rule asks on a directory for each right that it lists, that its layer handles and that the version knows. On what
/// isn't a directory its groups stand for those of their rights that apply there. A rule of the policy's own that then
/// lists nothing of what its layer handles, whatever the version, is asked for as on a directory, and the kernel refuses
/// it. A rule of an included group is left out where its object is missing.
pub fn rules_ask_right_by_right()
    ensures directory { (abi : Abi) (layer : Layer) (rule : Rule) (object : ℕ)
        (right : files.FsRight)
        → files.has (listed for_files layer.handled_files) files.other ≡ false
        → files.has (rights_at abi layer rule (Parent.There object Kind.Dir)) right
        ≡ (lists for_files rule.allowed right && is_left for_files abi layer.handled_files right) }
    ensures file { (abi : Abi) (layer : Layer) (rule : Rule) (object : ℕ) (kind : ObjectKind)
        (right : files.FsRight)
        → files.has (listed for_files layer.handled_files) files.other ≡ false → is_dir kind ≡ false
        → (is_for_files layer rule || rule.included) ≡ true
        → files.has (rights_at abi layer rule (Parent.There object kind)) right
        ≡ (lists_for_files rule.allowed right && is_left for_files abi layer.handled_files right) }
    ensures whole { (abi : Abi) (layer : Layer) (rule : Rule) (object : ℕ) (kind : ObjectKind)
        → is_dir kind ≡ false
        → (is_for_files layer rule || rule.included) ≡ false
        → rights_at abi layer rule (Parent.There object kind)
        ≡ rights_at abi layer rule (Parent.There object Kind.Dir) }
    ensures missing { (abi : Abi) (layer : Layer) (rule : Rule) → rule.included ≡ true
        → rights_at abi layer rule Parent.Missing ≡ files.no_right }
    ensures port { (abi : Abi) (layer : Layer) (rule : RuleOnPort) (right : network.NetRight)
        → network.has (listed for_network layer.handled_network) network.other ≡ false
        → network.has (rights_on_port abi layer rule) right
        ≡ (lists for_network rule.allowed right
        && is_left for_network abi layer.handled_network right) }
{}
