//! What a domain answers.

ghost use Rattle.std.specs.Prelude.{◌≡◌, IfSome};
ghost use Rattle.ll_rights.specs.Rights.{only, truncate};
ghost use Rattle.ll_rules.specs.Checks.{refusing, refusing_port, refusing_mount};
ghost use Rattle.ll_tree.specs.Trees.{IsNode, path_at, kind_at};
ghost use Rattle.ll_tree.specs.TreeFacts.{IsPlace};
ghost use Rattle.ll_semantics.specs.Answers.{refused_by, of_request, of_move};
ghost use Rattle.ll_semantics.specs.Effects.{opened_file, opened_kind, opened};
ghost use Rattle.ll_semantics.specs.Fits.{IsFit, IsFitMove};
ghost use Rattle.ll_state.specs.ConfinedCalls.{confining};

use crate::call::ConfinedCall;
use crate::descriptors::{refused_by, unrestricted};
use ll_rights::{Fs, Kind, Net};
use ll_rules::{
    Errno, LayerSet, Move, Verdict, check_mount, check_move_by, check_path_by, check_port,
};
use ll_semantics::{Answer, Descriptor, Request};
use ll_trace::{Mode, Sort};
use ll_tree::{NodeId, Place};

impl<'a> ConfinedCall<'a> {
    /// The layers of the domain that lack something of what is wanted on a node.
    fn refusing(&self, node: NodeId, wanted: Fs) -> LayerSet
        requires { IsNode self.now.call.tree.now node }
        ensures { result
            ≡ refusing (confining self.now) (path_at self.now.call.tree.now node) wanted }
    {
        check_path_by(&self.call.known(), self.domain, node, wanted).0
    }

    /// The answer to a request; without one the tree decides the call.
    pub(crate) fn ask(&self, request: Option<Request>) -> Answer
        requires { IfSome request (IsFit self.now.call.tree.now) }
        ensures { result ≡ of_request self.now.call.tree.now (confining self.now) request }
    {
        let Some(request) = request else {
            return Answer::Moot;
        };
        refused_by(Errno::Acces, self.refusing(request.node, request.rights))
    }

    /// What opening a file makes: one that is open for writing keeps the layers that lack `truncate`.
    #[tactic(auto, unfolding(ll_rights::specs::Rights::only))]
    fn opened_file(&self, node: NodeId, mode: Mode) -> Descriptor
        requires { IsNode self.now.call.tree.now node }
        ensures { result
            ≡ opened_file (refusing (confining self.now)
            (path_at self.now.call.tree.now node) (only truncate)) mode }
    {
        match mode {
            Mode::Read => unrestricted(Sort::Other),
            Mode::Write | Mode::Both => Descriptor {
                sort: Sort::Regular,
                kept: self.refusing(node, Fs::TRUNCATE),
            },
        }
    }

    /// What opening an object makes: a device keeps the layers that lack `ioctl_dev`.
    #[tactic(auto, unfolding(ll_semantics::specs::Effects::opened_kind, ll_rights::specs::Rights::only))]
    fn opened_node(&self, node: NodeId, mode: Mode) -> Descriptor
        requires { IsNode self.now.call.tree.now node }
        ensures { result ≡ opened_kind self.now.call.tree.now (confining self.now)
            (kind_at self.now.call.tree.now node) node mode }
    {
        match self.call.tree.kind(node) {
            Kind::Reg => self.opened_file(node, mode),
            Kind::Char | Kind::Block => Descriptor {
                sort: Sort::Device,
                kept: self.refusing(node, Fs::IOCTL_DEV),
            },
            _ => unrestricted(Sort::Other),
        }
    }

    /// What opening a place makes.
    #[tactic(auto, unfolding(ll_semantics::specs::Effects::opened))]
    pub(crate) fn opened(&self, place: Place, mode: Mode) -> Descriptor
        requires { IsPlace self.now.call.tree.now place }
        ensures { result ≡ opened self.now.call.tree.now (confining self.now) place mode }
    {
        match place {
            Place::Node(node) => self.opened_node(node, mode),
            Place::Gap(directory) => self.opened_file(directory, mode),
            Place::Nowhere => unrestricted(Sort::Other),
        }
    }

    /// The answer to rights asked on a TCP port.
    #[tactic(auto, using(crate::proofs::SameLayers::refusing_port_in_tree))]
    pub(crate) fn ask_port(&self, port: u16, wanted: Net) -> Answer
        ensures { result ≡ refused_by Errno.Acces (refusing_port (confining self.now) port wanted) }
    {
        refused_by(
            Errno::Acces,
            check_port(self.call.layers, self.domain, port, wanted),
        )
    }

    /// The answer to a change of what is mounted: each layer refuses it that handles a right for files.
    #[tactic(auto, using(crate::proofs::SameLayers::refusing_mount_in_tree))]
    pub(crate) fn ask_mount(&self) -> Answer
        ensures { result ≡ refused_by Errno.Perm (refusing_mount (confining self.now)) }
    {
        refused_by(Errno::Perm, check_mount(self.call.layers, self.domain))
    }

    /// The answer to a move; without one the tree decides the call.
    pub(crate) fn ask_move(&self, asked: Option<Move>) -> Answer
        requires { IfSome asked (IsFitMove self.now.call.tree.now) }
        ensures { result ≡ of_move self.now.call.tree.now (confining self.now) asked }
    {
        let Some(asked) = asked else {
            return Answer::Moot;
        };
        let (verdict, _) = check_move_by(&self.call.known(), self.domain, &asked);
        match verdict {
            Verdict::Passed => Answer::Allowed,
            Verdict::Refused(error, layers) => Answer::Refused(error, layers),
        }
    }
}
