//! One climb from a node to the root, for all layers of a domain at once.

ghost use Rattle.std.specs.Prelude.{◌≡◌, ℕ, ◌+◌, ◌*◌, ◌^◌, ◌≤◌, ◌<◌, ◌&&◌, not, true, false, length, take, count_by, IfSome, ◌==◌};
ghost use Rattle.std.specs.List.{list_any};
ghost use Rattle.ll_rights.specs.Rights.{FsRight, has};
ghost use Rattle.ll_tree.specs.Trees.{IsNode, path_at};
ghost use Rattle.ll_tree.specs.TreeFacts.{depth_at};
ghost use Rattle.ll_rules.specs.InTree.{granted_above, in_tree, nodes_up};
ghost use Rattle.ll_rules.specs.Layers.{handles, granted};
ghost use Rattle.ll_rules.specs.KeptLayers.{granted_on_node};
ghost use Rattle.ll_rules.specs.Lanes.{set_of, lane, stacked};

use crate::Layer;
use crate::check::layer_of;
use crate::domain::{MOST_LAYERS, Stack};
use crate::lanes::{bits_of, without_granted};
use ll_rights::Fs;
use ll_tree::NodeId;

/// The rights that one layer handles, as the bits of a lane.
#[tactic(auto, using(crate::proofs::LaneSets::known_bits))]
fn handled_bits(layer: &Layer) -> u32
    ensures { (right : FsRight) → has (set_of result) right ≡ handles layer.now right }
{
    bits_of(layer.handled())
}

/// Those of some rights that one layer handles, as the bits of a lane.
pub(crate) fn asked_of(layer: &Layer, wanted: Fs) -> u32
    ensures { (right : FsRight)
        → has (set_of result) right ≡ (handles layer.now right && has wanted right) }
{
    handled_bits(layer) & bits_of(wanted)
}

/// What is left in a lane after its layer was asked for its rule on a node. A layer with an empty lane isn't asked.
pub(crate) fn left_of(layer: &Layer, node: NodeId, lane: u32, look_ups: &mut u64) -> u32
    requires room { look_ups.old + 1 < 2 ^ 64 }
    ensures left { (right : FsRight) → has (set_of result) right
        ≡ (has (set_of lane) right && not (granted_on_node layer.now node right)) }
    ensures count { look_ups.new ≤ look_ups.old + 1 }
{
    if lane == 0 {
        return 0;
    }
    without_granted(lane, layer.rule_on(node, look_ups))
}

impl<'a> Stack<'a> {
    /// The rights that each layer handles, in its lane.
    pub(crate) fn handled_in(&self) -> [u32; MOST_LAYERS]
        ensures { (index : ℕ) (right : FsRight)
            → has (lane result index) right ≡ handles (stacked self.now index) right }
    {
        let mut row = [0; MOST_LAYERS];
        for (index, id) in self.ids.iter().enumerate() {
            row[index] = handled_bits(layer_of(self.layers, *id));
        }
        row
    }

    /// Those of some rights that each layer handles, in its lane.
    pub(crate) fn asked_in(&self, wanted: Fs) -> [u32; MOST_LAYERS]
        ensures { (index : ℕ) (right : FsRight) → has (lane result index) right
            ≡ (handles (stacked self.now index) right && has wanted right) }
    {
        let mut row = [0; MOST_LAYERS];
        for (index, id) in self.ids.iter().enumerate() {
            row[index] = asked_of(layer_of(self.layers, *id), wanted);
        }
        row
    }

    /// Asks each layer whose lane isn't empty for its rule on a node, and takes from the lane what the rule
    /// grants. Answers whether anything is left in the lanes of these layers, and the number of look-ups.
    pub(crate) fn ask_on(&self, node: NodeId, lanes: &mut [u32; MOST_LAYERS]) -> (bool, u64)
        ensures left { (index : ℕ) (right : FsRight)
            → has (lane lanes.new index) right
            ≡ (has (lane lanes.old index) right
            && not (granted_on_node (stacked self.now index) node right)) }
        ensures none { result.0 ≡ false → (index : ℕ) → index < length self.now.ids.now
            → (right : FsRight) → has (lane lanes.new index) right ≡ false }
        ensures count { result.1 ≤ length self.now.ids.now }
    {
        let mut look_ups = 0;
        let mut all = 0;
        for (index, id) in self.ids.iter().enumerate() {
            let left = left_of(
                layer_of(self.layers, *id),
                node,
                lanes[index],
                &mut look_ups,
            );
            lanes[index] = left;
            all |= left;
        }
        (all != 0, look_ups)
    }

    /// Which of two nodes some layer may have a rule on, by the filters of all layers. Each layer is looked at once for
    /// both nodes.
    fn marked_of(&self, lower: NodeId, upper: NodeId) -> (bool, bool)
        ensures lower { result.0 ≡ false → (index : ℕ) (right : FsRight)
            → granted_on_node (stacked self.now index) lower right ≡ false }
        ensures upper { result.1 ≡ false → (index : ℕ) (right : FsRight)
            → granted_on_node (stacked self.now index) upper right ≡ false }
    {
        let mut at_lower = 0;
        let mut at_upper = 0;
        for id in self.ids {
            let layer = layer_of(self.layers, *id);
            at_lower |= layer.marks_beside(lower);
            at_upper |= layer.marks_beside(upper);
        }
        let lower_is = at_lower >> (lower.index() % 64) & 1 == 1;
        let upper_is = at_upper >> (upper.index() % 64) & 1 == 1;
        (lower_is, upper_is)
    }

    /// The first node, from a given one up, on which some layer may have a rule, if there is one. It goes up two nodes
    /// at a time; if only the root is left, the root may have one. On each node before, where the filters say that
    /// there is none, the layers whose lanes hold a right are counted.
    fn next_marked(
        &self,
        from: Option<NodeId>,
        lanes: &[u32; MOST_LAYERS],
        look_ups: &mut u64,
    ) -> Option<NodeId>
        requires from { IfSome from (IsNode self.now.tree.now) }
        requires room { look_ups.old + length self.now.ids.now * nodes_up self.now.tree.now from
            < 2 ^ 64 }
        ensures inside { IfSome result (IsNode self.now.tree.now) }
        ensures above { nodes_up self.now.tree.now result ≤ nodes_up self.now.tree.now from }
        ensures passed { (index : ℕ) (right : FsRight)
            → granted_above self.now.tree.now (stacked self.now index) result right
            ≡ granted_above self.now.tree.now (stacked self.now index) from right }
        ensures count { look_ups.new + length self.now.ids.now * nodes_up self.now.tree.now result
            ≤ look_ups.old + length self.now.ids.now * nodes_up self.now.tree.now from }
    {
        let asked = self.count_filled(lanes);
        let mut cursor = from;
        while let Some(here) = cursor {
            let Some(up) = self.tree.parent(here) else {
                return cursor;
            };
            let (here_is, up_is) = self.marked_of(here, up);
            if here_is {
                return cursor;
            }
            *look_ups += asked;
            if up_is {
                return Some(up);
            }
            *look_ups += asked;
            cursor = self.tree.parent(up);
        }
        None
    }

    /// Whether the lane of some layer holds a right.
    #[tactic(auto, using(crate::proofs::LaneSets::nothing_in))]
    fn is_any_filled(&self, lanes: &[u32; MOST_LAYERS]) -> bool
        ensures exact { result
            ≡ list_any (λ bits. not (bits == 0)) (take (length self.now.ids.now) lanes.now) }
        ensures none { result ≡ false → (index : ℕ) → index < length self.now.ids.now
            → (right : FsRight) → has (lane lanes.now index) right ≡ false }
    {
        for index in 0..self.ids.len() {
            if lanes[index] != 0 {
                return true;
            }
        }
        false
    }

    /// The number of layers whose lanes hold a right.
    fn count_filled(&self, lanes: &[u32; MOST_LAYERS]) -> u64
        ensures exact { result
            ≡ count_by (λ bits. not (bits == 0)) (take (length self.now.ids.now) lanes.now) }
        ensures few { result ≤ length self.now.ids.now }
    {
        let mut filled = 0;
        for index in 0..self.ids.len() {
            filled += u64::from(lanes[index] != 0);
        }
        filled
    }

    /// Takes from each lane what its layer grants by its rules from a node up to the root, and answers the number
    /// of look-ups: none where that is known. A layer whose lane is empty isn't asked any more.
    pub(crate) fn climb(&self, node: NodeId, lanes: &mut [u32; MOST_LAYERS]) -> u64
        requires { IsNode self.now.tree.now node }
        ensures left { (index : ℕ) (right : FsRight)
            → has (lane lanes.new index) right
            ≡ (has (lane lanes.old index) right
            && not (granted (in_tree self.now.tree.now (stacked self.now index))
            (path_at self.now.tree.now node) right)) }
        ensures count { result ≤ length self.now.ids.now * (depth_at self.now.tree.now node + 1) }
        ensures little { result ≤ 2 ^ 40 }
    {
        // The depth has 32 bits, so the count has room.
        let _depth = self.tree.depth(node);
        let mut look_ups = 0;
        if let Some(left) = self.left_by_grants(node, *lanes) {
            *lanes = left;
            return look_ups;
        }
        if !self.is_any_filled(lanes) {
            return look_ups;
        }
        let mut cursor = Some(node);
        while let Some(here) = self.next_marked(cursor, lanes, &mut look_ups) {
            cursor = self.tree.parent(here);
            let (is_any_left, asked) = self.ask_on(here, lanes);
            look_ups += asked;
            if !is_any_left {
                return look_ups;
            }
        }
        look_ups
    }
}
