//! Rulesets, and the layers that they become.

ghost use Rattle.std.specs.Prelude.{◌≡◌, ◌&&◌, ◌||◌, false, OnOk, OnErr, IfOk, MatchOption, IsOkUnless};
ghost use Rattle.std.specs.Result.{result_err};
ghost use Rattle.ll_rights.specs.Rights.{FsRight, has, other, is_file_right, no_right};
ghost use Rattle.ll_rights.specs.NetRights as for_ports;
ghost use Rattle.ll_tree.specs.Trees.{is_dir};
ghost use Rattle.ll_rules.specs.{Layers.without_rules, KeptLayers.SameRules, KeptLayers.GrantsOnPort};
ghost use Rattle.ll_rules.specs.InTree.{in_tree, AreInTree, IsOfTree};
ghost use Rattle.ll_rules.specs.Rulesets.{has_ports, create_fault, are_file_rights, with_rule_at};
ghost use Rattle.ll_rules.specs.RuleFaults.{add_path_fault, add_port_fault};

use crate::filter::Marks;
use crate::{Errno, RuleFault};
use ll_rights::{Abi, Fs, Kind, LARGEST_PORT, Net, RightSet};
use ll_shared::SharedMap;
use ll_tree::{NodeId, Place, Tree};
use std::alloc::{AllocError, Global};
use std::marker::Model;

/// A layer of a domain: a ruleset as it was when a process restricted itself by it.
#[derive(Drop)]
pub struct Layer {
    files: Fs,
    network: Net,
    marks: Marks,
    on_nodes: SharedMap<Fs>,
    on_ports: SharedMap<Net>,
}

impl Model for Layer {
    ghost use Rattle.std.specs.Prelude.{◌≡◌, ℕ, false};
    ghost use Rattle.std.specs.FinMap as finite;
    ghost use Rattle.ll_rights.specs.Rights as for_files;
    ghost use Rattle.ll_rights.specs.NetRights as for_ports;
    ghost use Rattle.ll_rules.specs.{Layers.RulesOn, Filters.AreMarked};

    ghost Value = { RulesOn ℕ };

    ghost view = { λ a. record {
      handled_files = a.files;
      handled_network = a.network;
      file_rules = finite.entries a.on_nodes;
      port_rules = finite.entries a.on_ports;
    } };

    ghost invariant = { λ a. (for_files.has a.files for_files.other ≡ false)
        × (for_ports.has a.network for_ports.other ≡ false)
        × AreMarked a.marks a.on_nodes };
}

/// The rights that a process is going to give up, and the rules by which it keeps some of them
/// (landlock_create_ruleset(2)).
#[derive(Drop)]
pub struct Ruleset {
    layer: Layer,
}

impl Model for Ruleset {
    ghost use Rattle.std.specs.Prelude.{ℕ};
    ghost use Rattle.ll_rules.specs.Layers.{RulesOn};

    ghost Value = { RulesOn ℕ };

    ghost view = { λ a. a.layer };
}

impl Layer {
    ghost use Rattle.std.specs.Prelude.{◌≡◌, ◌+◌, ◌<◌, ◌^◌, ◌%◌, ◌==◌, false, not, OnOk, OnErr, IfOk, IsOkUnless};
    ghost use Rattle.std.specs.Int.{bit_at};
    ghost use Rattle.ll_rights.specs.Rights.{FsRight, has, other, is_empty, is_within};
    ghost use Rattle.ll_rights.specs.NetRights as for_ports;
    ghost use Rattle.ll_tree.specs.Trees.{IsNode, path_at, kind_at};
    ghost use Rattle.ll_rules.specs.Layers.{handles, handles_nothing, granted, granted_on_port};
    ghost use Rattle.ll_rules.specs.KeptLayers.{granted_on_node, GrantsOn, GrantsOnPort};
    ghost use Rattle.ll_rules.specs.InTree.{node, in_tree, AreInTree};
    ghost use Rattle.ll_rules.specs.Checks.{lacks, lacks_on_port};
    ghost use Rattle.ll_rules.specs.Moves.{gains};

    /// The rights that the rule on a node of this number grants, by the map of all rules. It is rarely called,
    /// and the loops that call it are faster if it is a function of its own.
    #[cold]
    #[inline(never)]
    fn rule_in_map(&self, number: u32) -> Fs
        ensures { (right : FsRight)
            → has result right ≡ granted_on_node self.now (node number) right }
    {
        self.on_nodes
            .get(number as u64)
            .copied()
            .unwrap_or(Fs::NONE)
    }

    /// The rights that the rule on a node grants; none where there is no rule.
    #[tactic(auto, unfolding(crate::specs::KeptLayers::granted_on_node))]
    pub(crate) fn rule_at(&self, node: NodeId) -> Fs
        ensures { (right : FsRight) → has result right ≡ granted_on_node self.now node right }
    {
        let number = node.index();
        if !self.marks.has(number) {
            return Fs::NONE;
        }
        self.rule_in_map(number)
    }

    /// The 64-bit word of the filter that holds the mark of a node: if bit `number % 64` is not one, there is no rule
    /// on the node.
    pub(crate) fn marks_beside(&self, node: NodeId) -> u64
        ensures { (bit_at result (node.0 % 64) == 1) ≡ false → (right : FsRight)
            → granted_on_node self.now node right ≡ false }
    {
        self.marks.beside(node.index())
    }

    /// The one look-up: asks the layer for its rule on a node, and counts the question.
    pub(crate) fn rule_on(&self, node: NodeId, look_ups: &mut u64) -> Fs
        requires room { look_ups.old + 1 < 2 ^ 64 }
        ensures rule { (right : FsRight) → has result right ≡ granted_on_node self.now node right }
        ensures count { look_ups.new ≡ look_ups.old + 1 }
    {
        *look_ups += 1;
        self.rule_at(node)
    }

    /// The rights for files that the layer handles.
    pub(crate) fn handled(&self) -> Fs
        ensures handled { (right : FsRight) → has result right ≡ handles self.now right }
        ensures known { has result other ≡ false }
    {
        if self.files.is_empty() {
            self.files
        } else {
            self.files.union(Fs::REFER)
        }
    }

    /// The rights that the rule on a port grants; none where there is no rule.
    fn rule_on_port(&self, port: u16) -> Net
        ensures { (right : for_ports.NetRight)
            → for_ports.has result right ≡ granted_on_port self.now port right }
    {
        self.on_ports.get(port as u64).copied().unwrap_or(Net::NONE)
    }

    /// Whether the layer refuses a wanted right on a port.
    pub(crate) fn refuses_on_port(&self, port: u16, wanted: Net) -> bool
        ensures { result ≡ lacks_on_port self.now port wanted }
    {
        let granted = self.rule_on_port(port);
        wanted.lacks(self.network, granted)
    }

    /// Whether the layer handles any right for files.
    pub(crate) fn handles_files(&self) -> bool
        ensures { result ≡ not (is_empty self.now.handled_files) }
    {
        !self.files.is_empty()
    }

    /// Whether the layer handles no right at all, like that of `Ruleset::empty`.
    pub fn handles_nothing(&self) -> bool
        ensures { result ≡ handles_nothing self.now }
    {
        self.files.is_empty() && self.network.is_empty()
    }

    /// Whether the ruleset handles each of some rights.
    fn handles_all(&self, files: Fs) -> bool
        ensures { result ≡ is_within files self.now.handled_files }
    {
        files.is_within(self.files)
    }

    /// Whether the ruleset handles each of some rights for the network.
    fn handles_all_network(&self, network: Net) -> bool
        ensures { result ≡ for_ports.is_within network self.now.handled_network }
    {
        network.is_within(self.network)
    }

    /// Grants rights on a node in addition to those that its rule grants already.
    fn grant_on(&mut self, node: NodeId, files: Fs) -> Result<(), AllocError>
        ensures ok { OnOk result (GrantsOn self.old self.new node files) }
        ensures err { OnErr result (self.new ≡ self.old) }
    {
        let granted = self.rule_at(node).union(files);
        self.marks.mark(node.index())?;
        self.on_nodes.insert(node.index() as u64, granted)?;
        Ok(())
    }

    /// Grants rights on a port in addition to those that its rule grants already.
    fn grant_on_port(&mut self, port: u16, network: Net) -> Result<(), AllocError>
        ensures ok { OnOk result (GrantsOnPort self.old self.new port network) }
        ensures err { OnErr result (self.new ≡ self.old) }
    {
        let granted = self.rule_on_port(port).union(network);
        self.on_ports.insert(port as u64, granted)?;
        Ok(())
    }

    /// The same layer again; both share their rules.
    fn copied(&self) -> Result<Layer, AllocError>
        ensures { IfOk result (λ layer. layer ≡ self.now) }
    {
        Ok(Layer {
            files: self.files,
            network: self.network,
            marks: self.marks.again()?,
            on_nodes: self.on_nodes.clone()?,
            on_ports: self.on_ports.clone()?,
        })
    }
}

/// Whether an object of a kind is a directory.
pub(crate) fn is_directory(kind: Kind) -> bool
    ensures { result ≡ is_dir kind }
{
    matches!(kind, Kind::Dir)
}

/// Whether each of some rights applies to objects that aren't directories.
#[tactic(auto, using(crate::proofs::RightSets::file_known, crate::proofs::RightSets::file_rights_by_test))]
fn are_for_files(files: Fs) -> bool
    ensures { result ≡ are_file_rights files }
{
    files.is_within(Fs::FILE)
}

/// Whether a version of the interface has rules for ports.
fn ports_are_known(abi: Abi) -> bool
    ensures { result ≡ has_ports abi }
{
    abi.number() >= 4
}

impl Ruleset {
    /// A ruleset that handles rights for files and for the network, without a rule
    /// (landlock_create_ruleset(2)). `E2BIG` if the version has no rights for the network and some are
    /// named, else `EINVAL` if the version doesn't know a right, else `ENOMSG` if there is none.
    pub fn create(alloc: Global, abi: Abi, files: Fs, network: Net) -> Result<Ruleset, Errno>
        ensures fault { result_err result ≡ create_fault abi files network }
        ensures made { IfOk result (λ made. made ≡ without_rules files network) }
    {
        if !network.is_empty() && !ports_are_known(abi) {
            return Err(Errno::TooBig);
        }
        if !files.is_within(abi.fs()) || !network.is_within(abi.net()) {
            return Err(Errno::Inval);
        }
        if files.is_empty() && network.is_empty() {
            return Err(Errno::NoMsg);
        }
        Ok(Ruleset {
            layer: Layer {
                files,
                network,
                marks: Marks::new(alloc),
                on_nodes: SharedMap::new(alloc),
                on_ports: SharedMap::new(alloc),
            },
        })
    }

    /// The ruleset that handles nothing and has no rule. No kernel makes it (`ENOMSG`); a program that does
    /// without a ruleset is judged as if it had this one, whose layer refuses nothing, so that the layers
    /// after it have the numbers that they would have had.
    pub fn empty(alloc: Global) -> Ruleset
        ensures { result ≡ without_rules no_right for_ports.no_right }
    {
        Ruleset {
            layer: Layer {
                files: Fs::NONE,
                network: Net::NONE,
                marks: Marks::new(alloc),
                on_nodes: SharedMap::new(alloc),
                on_ports: SharedMap::new(alloc),
            },
        }
    }

    /// The object that a rule for files is on, or why there is no such rule.
    fn node_for(&self, tree: &Tree, place: Place, files: Fs) -> Result<NodeId, RuleFault>
        requires { IsOfTree tree.now place }
        ensures fault { result_err result ≡ add_path_fault tree.now self.now place files }
        ensures node { IfOk result (λ node. place ≡ Place.Node node) }
    {
        if files.is_empty() {
            return Err(RuleFault::Errno(Errno::NoMsg));
        }
        if !self.layer.handles_all(files) {
            return Err(RuleFault::Errno(Errno::Inval));
        }
        let Place::Node(node) = place else {
            return Err(RuleFault::Moot);
        };
        if !is_directory(tree.kind(node)) && !are_for_files(files) {
            return Err(RuleFault::Errno(Errno::Inval));
        }
        Ok(node)
    }

    /// Adds a rule that grants rights on an object and on all under it (landlock_add_rule(2)).
    /// `ENOMSG` if there is no right, else `EINVAL` if one isn't handled, else moot if the place isn't an
    /// object, else `EINVAL` if the object isn't a directory and some right is for directories alone.
    /// Two rules on one object grant the rights of both.
    pub fn add_path(&mut self, tree: &Tree, place: Place, files: Fs) -> Result<(), RuleFault>
        requires place { IsOfTree tree.now place }
        requires within { AreInTree tree.now self.old }
        ensures fault { MatchOption (add_path_fault tree.now self.old place files)
            (IsOkUnless result RuleFault.Memory) (λ fault. result ≡ Err fault) }
        ensures ok { OnOk result (SameRules (in_tree tree.now self.new)
            (with_rule_at tree.now (in_tree tree.now self.old) place files)) }
        ensures err { OnErr result (self.new ≡ self.old) }
        ensures in_tree { AreInTree tree.now self.new }
    {
        let node = self.node_for(tree, place, files)?;
        let Ok(()) = self.layer.grant_on(node, files) else {
            return Err(RuleFault::Memory);
        };
        Ok(())
    }

    /// The port that a rule is for, or why there is no such rule.
    fn port_for(&self, abi: Abi, port: u64, network: Net) -> Result<u16, RuleFault>
        ensures fault { result_err result ≡ add_port_fault abi self.now port network }
        ensures port { IfOk result (λ number. number ≡ port) }
    {
        if !ports_are_known(abi) {
            return Err(RuleFault::Errno(Errno::Inval));
        }
        if network.is_empty() {
            return Err(RuleFault::Errno(Errno::NoMsg));
        }
        if !self.layer.handles_all_network(network) || port > LARGEST_PORT {
            return Err(RuleFault::Errno(Errno::Inval));
        }
        Ok(port as u16)
    }

    /// Adds a rule that grants rights on one TCP port (landlock_add_rule(2)). `EINVAL` if the version has
    /// no rules for ports, else `ENOMSG` if there is no right, else `EINVAL` if one isn't handled or the
    /// port is above 65,535. Two rules on one port grant the rights of both.
    pub fn add_port(&mut self, abi: Abi, port: u64, network: Net) -> Result<(), RuleFault>
        ensures fault { MatchOption (add_port_fault abi self.old port network)
            (IsOkUnless result RuleFault.Memory) (λ fault. result ≡ Err fault) }
        ensures ok { OnOk result (GrantsOnPort self.old self.new port network) }
        ensures err { OnErr result (self.new ≡ self.old) }
    {
        let number = self.port_for(abi, port, network)?;
        let Ok(()) = self.layer.grant_on_port(number, network) else {
            return Err(RuleFault::Memory);
        };
        Ok(())
    }

    /// The layer that a process would add now; rules that are added later don't change it. It is in the
    /// same kind of memory as the ruleset.
    pub fn freeze(&self, _alloc: Global) -> Result<Layer, AllocError>
        ensures { IfOk result (λ layer. layer ≡ self.now) }
    {
        self.layer.copied()
    }
}
