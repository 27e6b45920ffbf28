//! The tree in memory.

ghost use Rattle.std.specs.Prelude.{◌≡◌, ◌≤◌, ◌<◌, [], ◌∷◌, ◌++◌, length, Some, ◌≢◌, IfOk, IfErr, OnOk, OnErr, ◌==◌, ◌&&◌, IsTrue, is_some, IfSome, IfNone};
ghost use Rattle.std.specs.{String.string_bytes, Str.bytes_eq};
ghost use Rattle.serde_json.specs.Data.{Data};
ghost use Rattle.ll_lines.specs.{declared.fault.Cause.TheVariants.Memory, Readers.Gives};
ghost use Rattle.ll_members.specs.Slots.{Hold};
ghost use Rattle.ll_lines.specs.Reading.{IsBad};
ghost use Rattle.ll_lines.specs.LineByLine.{GivesReading, reading, with_line, with_entry, line_view};
ghost use Rattle.ll_tree.specs.declared.tree.TheConstants.{MOST_NODES};
ghost use Rattle.ll_tree.specs.TreeReading.{IsTreeOf, tree_format};
ghost use Rattle.ll_tree.specs.Kept.{IsRooted, below_root, with_value};
ghost use Rattle.ll_lines.specs.Paths.{Path, path_of, is_prefix, text_of};
ghost use Rattle.ll_tree.specs.Trees.{Entry, root, IsNode, is_dir, path_at, kind_at, parent_at, node_at, gap_in, place};
ghost use Rattle.ll_tree.specs.TreeFacts.{spelt, named, IsTree, IsPlace, StandsIn, depth_at};

use crate::chains::{
    LONGEST_CHAIN, head, head_over, mark_of, next_of, no_heads, set_head, slot_of,
};
use crate::object::object_of;
use crate::place::{NodeId, Place, SmallPlace};
use json::Scratch;
use ll_lines::lines::{FileLine, FilledLines};
use ll_lines::{Cause, ReadFault, front_text, path_ok};
use ll_members::{Members, read_members};
use ll_rights::Kind;
use std::alloc::{AllocError, Global};
use std::collections::BTreeMap;
use std::marker::Model;

/// The most nodes of a tree, including the root.
pub const MOST_NODES: u32 = 65_536;

/// What is kept of an object.
#[derive(Drop)]
struct Object {
    text: String,
    kind: Kind,
    parent: Option<NodeId>,
    depth: u32,
    /// The mark of the text's hash.
    mark: u32,
    /// A number above each earlier node of the text's slot, and not above this node's own.
    next: u32,
    /// The number of nodes after this one in its chain.
    behind: u8,
}

impl Object {
    /// Whether this is the object of a text that has this mark.
    fn is_of(&self, mark: u32, text: &str) -> bool
        ensures { result ≡ ((self.now.mark == mark)
            && bytes_eq (string_bytes self.now.text) text.now) }
    {
        self.mark == mark && self.text.as_str() == text
    }
}

/// A listed file tree: the root, and objects in the order of their lines, each in a directory that
/// comes before it.
#[derive(Drop)]
pub struct Tree {
    objects: Vec<Object>,
    numbers: BTreeMap<String, u32>,
    heads: Vec<u32>,
}

impl Model for Tree {
    ghost use Rattle.std.specs.Prelude.{List};
    ghost use Rattle.ll_tree.specs.Trees.{Entry};

    ghost Value = { List Entry };

    ghost use Rattle.ll_tree.specs.Kept.{entries_of, IsSound};

    ghost view = { λ tree. entries_of tree.objects.items };

    ghost invariant = { λ tree. IsSound tree.objects.items tree.numbers.entries tree.heads.items };
}

impl Tree {
    /// Reads a tree file: one JSON object on each line, with the path and the kind of an object.
    ///
    /// A file that does not read is refused with the number of its first faulty line and the first
    /// fault of that line. If memory runs out, the line is the one that was being read.
    ///
    /// ```
    /// let lines =
    ///     "{\"path\":\"/etc\",\"kind\":\"dir\"}\n{\"path\":\"/etc/hosts\",\"kind\":\"reg\"}\n";
    /// let tree = Tree::read(rt.alloc(), lines.as_bytes())?;
    /// assert_eq!(rt; tree.nodes(), 3);
    /// ```
    #[tactic(auto, using(crate::proofs::TreeLines::is_tree_of, crate::proofs::TreeLines::is_bad))]
    pub fn read(alloc: Global, bytes: &[u8]) -> Result<Tree, ReadFault>
        ensures ok { IfOk result (IsTreeOf bytes.now) }
        ensures err { IfErr result (λ fault. fault.cause ≢ Memory
            → IsBad tree_format bytes.now fault) }
    {
        Tree::read_lines(alloc, bytes)
    }

    /// Reads line after line.
    #[tactic(auto, using(ll_lines::proofs::ReadingLemmas::read_lines_next, ll_lines::proofs::ReadingLemmas::read_lines_end))]
    fn read_lines(alloc: Global, bytes: &[u8]) -> Result<Tree, ReadFault>
        ensures reading { GivesReading below_root result (reading tree_format bytes.now) }
        ensures rooted { IfOk result IsRooted }
    {
        let Ok(mut tree) = Tree::root_only(alloc) else {
            return Err(ReadFault {
                line: 1,
                cause: Cause::Memory,
            });
        };
        let mut scratch = Scratch::new(alloc);
        for line in FilledLines::new(bytes) {
            if let Err(cause) = tree.read_line(alloc, &line, &mut scratch) {
                return Err(ReadFault {
                    line: line.number,
                    cause,
                });
            }
        }
        Ok(tree)
    }

    /// Reads the object on a line.
    #[tactic(auto, unfolding(crate::specs::TreeReading::entry_on))]
    fn read_line(
        &mut self,
        alloc: Global,
        line: &FileLine,
        scratch: &mut Scratch,
    ) -> Result<(), Cause>
        ensures line { Gives (λ _. below_root self.new) result
            (with_line tree_format (below_root self.old) (line_view line.now)) }
        ensures rooted { OnOk result (IsRooted self.new) }
    {
        let members = read_members(line.bytes, scratch)?;
        self.read_object(alloc, &members)
    }

    /// Reads the object that members describe.
    fn read_object(&mut self, alloc: Global, members: &Members<'_>) -> Result<(), Cause>
        ensures value { (value : Data) → Hold members.now value
            → Gives (λ _. below_root self.new) result (with_value (below_root self.old) value) }
        ensures rooted { OnOk result (IsRooted self.new) }
    {
        let (path, kind) = object_of(members)?;
        self.list(alloc, path, kind)
    }

    /// Adds an object at the end, unless it is in the tree already, has no directory, or is one too many.
    fn list(&mut self, alloc: Global, path: &str, kind: Kind) -> Result<(), Cause>
        requires { IsTrue (is_some (path_of path.now)) }
        ensures entry { Gives (λ _. below_root self.new) result
            (with_entry tree_format (below_root self.old) (named path.now kind)) }
        ensures rooted { OnOk result (IsRooted self.new) }
    {
        match self.place_of(path) {
            Place::Node(_) => Err(Cause::Twice),
            Place::Nowhere => Err(Cause::NoParent),
            Place::Gap(_) if self.nodes() >= MOST_NODES => Err(Cause::TooMany),
            Place::Gap(parent) => {
                self.add(alloc, path, kind, parent)?;
                Ok(())
            }
        }
    }

    /// The tree that has only the root.
    fn root_only(alloc: Global) -> Result<Tree, AllocError>
        ensures { IfOk result (λ tree. tree ≡ root ∷ []) }
    {
        let mut heads = no_heads(alloc)?;
        let mark = mark_of("/");
        set_head(&mut heads, slot_of(mark), 1);
        let mut numbers = BTreeMap::new(alloc);
        numbers.insert(String::from_str(alloc, "/")?, 0)?;
        let root = Object {
            text: String::from_str(alloc, "/")?,
            kind: Kind::Dir,
            parent: None,
            depth: 0,
            mark,
            next: 0,
            behind: 0,
        };
        let mut objects = Vec::with_capacity(alloc, 1)?;
        objects.push(root)?;
        Ok(Tree {
            objects,
            numbers,
            heads,
        })
    }

    /// Adds an object at the end, if its path names a gap in the directory `parent`.
    fn add(
        &mut self,
        alloc: Global,
        text: &str,
        kind: Kind,
        parent: NodeId,
    ) -> Result<(), AllocError>
        requires path { IsTrue (is_some (path_of text.now)) }
        requires gap { place self.old text.now ≡ Place.Gap parent }
        requires room { length self.old < MOST_NODES }
        ensures ok { OnOk result (self.new ≡ self.old ++ named text.now kind ∷ []) }
        ensures err { OnErr result (self.new ≡ self.old) }
    {
        let depth = self.depth(parent) + 1;
        let number = self.nodes();
        let mark = mark_of(text);
        let slot = slot_of(mark);
        let before = head(&self.heads, slot);
        let behind = self.behind(before);
        let key = String::from_str(alloc, text)?;
        let kept = String::from_str(alloc, text)?;
        self.objects.reserve(1)?;
        self.numbers.insert(key, number)?;
        set_head(&mut self.heads, slot, head_over(number, behind));
        self.objects.push_reserved(Object {
            text: kept,
            kind,
            parent: Some(parent),
            depth,
            mark,
            next: next_of(number, before),
            behind,
        });
        Ok(())
    }

    /// What is kept of a node.
    fn object(&self, node: NodeId) -> &Object
        requires { IsNode self.now node }
        ensures text { string_bytes result.now.text ≡ text_of (path_at self.now node) }
        ensures kind { result.now.kind ≡ kind_at self.now node }
        ensures parent { result.now.parent ≡ parent_at self.now node }
        ensures depth { result.now.depth ≡ depth_at self.now node }
        ensures tree { IsTree self.now }
    {
        &self.objects[node.0 as usize]
    }

    /// The text of a node's path.
    pub fn text(&self, node: NodeId) -> &str
        requires { IsNode self.now node }
        ensures { result.now ≡ text_of (path_at self.now node) }
    {
        &self.object(node).text
    }

    /// The number of nodes of the tree, including the root: at most 65,536.
    pub fn nodes(&self) -> u32
        ensures count { result ≡ length self.now }
        ensures tree { IsTree self.now }
        ensures limit { length self.now ≤ MOST_NODES }
    {
        self.objects.len() as u32
    }

    /// The node of a number, if the tree has as many.
    pub fn node(&self, number: u32) -> Option<NodeId>
        ensures some { IfSome result
            (λ node. (node.0 ≡ number) × IsNode self.now node) }
        ensures none { IfNone result (length self.now ≤ number) }
    {
        if number < self.nodes() {
            Some(NodeId(number))
        } else {
            None
        }
    }

    /// A place of the tree in four bytes.
    pub fn small(&self, place: Place) -> SmallPlace
        requires { IsPlace self.now place }
        ensures { result ≡ place }
    {
        let _few = self.nodes();
        SmallPlace::of(place)
    }

    /// The kind of a node's object.
    pub fn kind(&self, node: NodeId) -> Kind
        requires { IsNode self.now node }
        ensures { result ≡ kind_at self.now node }
    {
        self.object(node).kind
    }

    /// Whether a node is a directory.
    pub fn is_directory(&self, node: NodeId) -> bool
        requires { IsNode self.now node }
        ensures { result ≡ is_dir (kind_at self.now node) }
    {
        self.kind(node) == Kind::Dir
    }

    /// The directory that a node is in; None for the root.
    #[tactic(auto, using(crate::proofs::Positions::if_none, crate::proofs::Positions::if_some))]
    pub fn parent(&self, node: NodeId) -> Option<NodeId>
        requires { IsNode self.now node }
        ensures exact { result ≡ parent_at self.now node }
        ensures root { IfNone result (path_at self.now node ≡ []) }
        ensures front { IfSome result (StandsIn self.now node) }
        ensures tree { IsTree self.now }
    {
        self.object(node).parent
    }

    /// The number of directories above a node: 0 for the root.
    pub fn depth(&self, node: NodeId) -> u32
        requires { IsNode self.now node }
        ensures { result ≡ depth_at self.now node }
    {
        self.object(node).depth
    }

    /// Whether the first node is the second or a directory above it.
    pub fn is_above(&self, upper: NodeId, lower: NodeId) -> bool
        requires upper_is_node { IsNode self.now upper }
        requires lower_is_node { IsNode self.now lower }
        ensures { result ≡ is_prefix (path_at self.now upper) (path_at self.now lower) }
    {
        let depth = self.depth(upper);
        let mut node = lower;
        while let Some(up) = self.parent(node) {
            if self.depth(node) <= depth {
                break;
            }
            node = up;
        }
        node == upper
    }

    /// The place that a text names: a node, the gap in a directory without such a name, or nowhere.
    #[tactic(auto, using(crate::proofs::Positions::place_other))]
    pub fn resolve(&self, text: &str) -> Place
        ensures place { result ≡ place self.now text.now }
        ensures inside { IsPlace self.now result }
    {
        if !path_ok(text) {
            return Place::Nowhere;
        }
        self.place_of(text)
    }

    /// The place of a text that is known to be a path (`path_ok`): its node, the gap in a directory without such a
    /// name, or nowhere.
    pub fn place_of(&self, path: &str) -> Place
        requires { IsTrue (is_some (path_of path.now)) }
        ensures place { result ≡ place self.now path.now }
        ensures inside { IsPlace self.now result }
        ensures tree { IsTree self.now }
    {
        match self.find(path) {
            Some(node) => Place::Node(node),
            None => self.gap(self.find(front_text(path))),
        }
    }

    /// The node of a text that is known to be a path (`path_ok`), if the tree has one.
    pub fn node_of(&self, path: &str) -> Option<NodeId>
        requires { IsTrue (is_some (path_of path.now)) }
        ensures exact { (spelt : Path) → path_of path.now ≡ Some spelt
            → result ≡ node_at self.now spelt }
        ensures node { IfSome result (IsNode self.now) }
    {
        self.find(path)
    }

    /// The node whose path this text spells.
    fn find(&self, text: &str) -> Option<NodeId>
        requires { IsTrue (is_some (path_of text.now)) }
        ensures found { result ≡ node_at self.now (spelt text.now) }
        ensures node { IfSome result (IsNode self.now) }
        ensures tree { IsTree self.now }
    {
        let mark = mark_of(text);
        let slot = slot_of(mark);
        let mut bound = head(&self.heads, slot);
        while bound > 0 {
            let number = bound - 1;
            match self.objects.get(number as usize) {
                Some(object) if slot_of(object.mark) == slot => {
                    if object.is_of(mark, text) {
                        return Some(NodeId(number));
                    }
                    bound = object.next;
                }
                _ => return self.numbers.get(text).map(|number| NodeId(*number)),
            }
        }
        None
    }

    /// The number of nodes of a chain with this head: no fewer than the longest chain has if the slot is crowded.
    fn behind(&self, head: u32) -> u8 {
        if head == 0 {
            return 0;
        }
        match self.objects.get(head as usize - 1) {
            Some(object) => object.behind.saturating_add(1),
            None => LONGEST_CHAIN,
        }
    }

    /// The gap in a directory.
    #[tactic(auto, unfolding(crate::specs::Trees::gap_in))]
    fn gap(&self, node: Option<NodeId>) -> Place
        requires { IfSome node (IsNode self.now) }
        ensures gap { result ≡ gap_in self.now node }
        ensures inside { IsPlace self.now result }
    {
        match node {
            None => Place::Nowhere,
            Some(node) if self.is_directory(node) => Place::Gap(node),
            Some(_) => Place::Nowhere,
        }
    }
}
