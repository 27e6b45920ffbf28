//! What a call asks of the file tree.

ghost use Rattle.std.specs.Prelude.{◌≡◌, IfSome};
ghost use Rattle.ll_tree.specs.Trees.{IsNode, parent_at};
ghost use Rattle.ll_tree.specs.TreeFacts.{IsPlace};
ghost use Rattle.ll_semantics.specs.Fits.{IsFit};
ghost use Rattle.ll_semantics.specs.Requests.{rights_of_mode, file_rights, new_file_rights, open_kind, remove_from, asks, request, wanted};

use crate::call::Call;
use ll_rights::{Fs, Kind, RightSet};
use ll_semantics::{Request, Wanted, wanted};
use ll_trace::Mode;
use ll_tree::{NodeId, Place, Tree};

/// The rights to open a file for reading, writing or both (landlock(7), "Filesystem actions").
#[tactic(auto, unfolding(ll_rights::specs::Rights::only, ll_rights::specs::Rights::united))]
fn rights_of_mode(mode: Mode) -> Fs
    ensures { result ≡ rights_of_mode mode }
{
    match mode {
        Mode::Read => Fs::READ_FILE,
        Mode::Write => Fs::WRITE_FILE,
        Mode::Both => Fs::READ_FILE.union(Fs::WRITE_FILE),
    }
}

/// The rights to open a regular file, and to truncate it by that.
#[tactic(auto, unfolding(ll_rights::specs::Rights::only))]
fn file_rights(mode: Mode, trunc: bool) -> Fs
    ensures { result ≡ file_rights mode trunc }
{
    let rights = rights_of_mode(mode);
    if trunc {
        return rights.union(Fs::TRUNCATE);
    }
    rights
}

/// The rights to make a file and open it, which ask nothing for truncating it.
#[tactic(auto, unfolding(ll_rights::specs::Rights::only))]
fn new_file_rights(mode: Mode) -> Fs
    ensures { result ≡ new_file_rights mode }
{
    Fs::MAKE_REG.union(rights_of_mode(mode))
}

/// What opening an object of a kind asks.
#[tactic(auto, unfolding(ll_semantics::specs::Requests::open_kind, ll_rights::specs::Rights::only))]
fn open_kind(kind: Kind, node: NodeId, mode: Mode, create: bool, trunc: bool) -> Option<Request>
    ensures exact { result ≡ open_kind kind node mode create trunc }
    ensures same_node { IfSome result (λ request. request.node ≡ node) }
{
    let rights = match kind {
        Kind::Dir => match mode {
            Mode::Read if !create && !trunc => Fs::READ_DIR,
            _ => return None,
        },
        Kind::Reg => file_rights(mode, trunc),
        Kind::Char | Kind::Block | Kind::Fifo => rights_of_mode(mode),
        Kind::Sym | Kind::Sock => return None,
    };
    Some(Request { node, rights })
}

/// What removing an object of a kind asks of the directory that it is in, which the root hasn't.
#[tactic(auto, unfolding(ll_semantics::specs::Requests::remove_from))]
fn remove_from(tree: &Tree, kind: Kind, node: NodeId) -> Option<Request>
    requires { IsNode tree.now node }
    ensures exact { result ≡ remove_from kind (parent_at tree.now node) }
    ensures fit { IfSome result (IsFit tree.now) }
{
    tree.parent(node).map(|directory| Request {
        node: directory,
        rights: kind.remove_right(),
    })
}

/// What a call asks that wants this of an object.
#[tactic(auto, unfolding(ll_semantics::specs::Requests::asks, ll_semantics::specs::Requests::regular_kind))]
fn asks_of_object(tree: &Tree, node: NodeId, wanted: Wanted) -> Option<Request>
    requires { IsNode tree.now node }
    ensures exact { result ≡ asks tree.now (Place.Node node) wanted }
    ensures fit { IfSome result (IsFit tree.now) }
{
    let kind = tree.kind(node);
    match wanted {
        Wanted::Open {
            mode,
            create,
            trunc,
        } => open_kind(kind, node, mode, create, trunc),
        Wanted::OnFile(rights) if kind == Kind::Reg => Some(Request { node, rights }),
        Wanted::Unlink if kind != Kind::Dir => remove_from(tree, kind, node),
        Wanted::Rmdir if kind == Kind::Dir => remove_from(tree, kind, node),
        Wanted::OnFile(_) | Wanted::Make(_) | Wanted::Unlink | Wanted::Rmdir => None,
    }
}

/// What a call asks that wants this of a gap: rights on its directory.
#[tactic(auto, unfolding(ll_semantics::specs::Requests::asks))]
fn asks_of_gap(tree: &Tree, node: NodeId, wanted: Wanted) -> Option<Request>
    requires { IsNode tree.now node }
    ensures exact { result ≡ asks tree.now (Place.Gap node) wanted }
    ensures fit { IfSome result (IsFit tree.now) }
{
    let rights = match wanted {
        Wanted::Open {
            mode,
            create: true,
            ..
        } => new_file_rights(mode),
        Wanted::Make(rights) => rights,
        Wanted::Open { .. } | Wanted::OnFile(_) | Wanted::Unlink | Wanted::Rmdir => return None,
    };
    Some(Request { node, rights })
}

/// What a call asks that wants this at a place.
#[tactic(auto, unfolding(ll_semantics::specs::Requests::asks))]
pub fn asks(tree: &Tree, place: Place, wanted: Wanted) -> Option<Request>
    requires { IsPlace tree.now place }
    ensures exact { result ≡ asks tree.now place wanted }
    ensures fit { IfSome result (IsFit tree.now) }
{
    match place {
        Place::Node(node) => asks_of_object(tree, node, wanted),
        Place::Gap(node) => asks_of_gap(tree, node, wanted),
        Place::Nowhere => None,
    }
}

impl<'a> Call<'a> {
    /// What the call asks, where it wants something at a path.
    pub(crate) fn request(&self) -> Option<Request>
        ensures exact { result ≡ request self.now.tree.now (wanted self.now.op.now) }
        ensures fit { IfSome result (IsFit self.now.tree.now) }
    {
        let (_, wanted) = wanted(self.op)?;
        asks(self.tree, self.place, wanted)
    }
}
