// A segment tree for the smallest place in a span of slots (document 01, "The shelf and its cells"), in lent cells. Node n stands above nodes 2n and
// 2n + 1, slot s at width + s. A node holds the smallest place under it, FFFF for none. Only the lower levels are kept: the nodes of the uppermost of these
// stand side by side, and a search goes along them. The shelves of all windows stand side by side over one row of slots, in one tree: a shelf's own measures tell only
// how many nodes document 01 counts.
#![tactic(auto)]

ghost use Rattle.std.specs.Prelude.{◌≡◌, ◌-◌, ◌<◌, ◌≤◌, min, length};
ghost use Rattle.std.specs.Int.Count.{count_trailing_zeros};
ghost use Rattle.model.specs.Cells.{place_in};
ghost use Rattle.model.specs.Jobs.{job_limit};
ghost use Rattle.model.specs.Visits.{levels, visits};
ghost use Rattle.sweep_laws.specs.SegmentTree.{SegmentTree, Clearable, Cleared, Insertable, Inserted, Removed, entries_in, smallest, ShelfSpan, Searchable};
ghost use Rattle.laws.specs.Least.{least_of};
ghost use Rattle.sweep_laws.specs.Nodes.{Siblings};
ghost use Rattle.sweep_laws.specs.NodeSpans.{node_at, Narrowable, Narrowed};
ghost use Rattle.sweep_laws.specs.VisitCount.{levels_inside, levels_apart, Countable};
ghost use Rattle.sweep_laws.specs.Levels.{ShapeFor};

use model::Rank;

// The measures of a tree: it has `width` slots, and the nodes from `kept` on, so `kept` of them on the uppermost level.
#[derive(Clone, Copy)]
pub struct Shape {
    pub kept: usize,
    pub width: usize,
}

// How many nodes the uppermost level that is kept has, at most, where a shelf may take the whole row: a compiler compares many side by side at once, so that a search
// goes along all of them in a few dozen steps, and a tree with no more slots needs no other nodes.
const KEPT: usize = 1024;

// How many it has, by the longest shelf: twice as many where that takes no more than half of the tree's slots, and so on, since a search does not leave its
// shelf.
fn kept_for(width: usize, longest: usize) -> usize
    requires { 1 ≤ width }
    ensures { (1 ≤ result) × (result ≤ width) }
{
    let mut kept = width.min(KEPT);
    let mut slots = longest;
    while slots.max(kept) <= width / 2 {
        slots *= 2;
        kept *= 2;
    }
    kept
}

// The other node under the same parent.
fn sibling(node: usize) -> usize
    ensures { Siblings result node }
{
    node ^ 1
}

// Part of a search: what is left of a span, with the smallest place taken in so far.
#[derive(Clone, Copy)]
struct Span {
    left: usize,
    right: usize,
    least: Rank,
}

// The smallest of the nodes from `left` up to `right`, which stand on one level, and of `least`.
fn level_minimum(nodes: &[u16], left: usize, right: usize, least: Rank) -> Rank
    requires left_le_right { left ≤ right }
    requires right_in_bounds { right ≤ length nodes.now }
    ensures { result.0 ≡ min least.0 (least_of (node_at nodes.now) left (right - left)) }
{
    nodes[left..right]
        .iter()
        .fold(least, |least, &node| least.min(Rank(node)))
}

// The places that can wait in a span: none before the first, and none after the last.
#[derive(Clone, Copy)]
pub struct Candidates {
    pub first: Rank,
    pub last: Rank,
}

impl Shape {
    // The shape for so many places, of which the longest shelf has `longest`: as wide as the smallest power of two that holds them.
    pub fn for_places(count: usize, longest: usize) -> Shape
        requires { count ≤ job_limit }
        ensures { ShapeFor count result.kept result.width }
    {
        let mut width = 1;
        while width < count {
            width *= 2;
        }
        let kept = kept_for(width, longest);
        Shape { kept, width }
    }

    // Empties every slot.
    pub fn clear(self, nodes: &mut [u16])
        requires { Clearable self.kept self.width nodes.old }
        ensures { Cleared self.kept self.width nodes.old nodes.new }
    {
        nodes[..2 * self.width].fill(model::ABSENT);
    }

    // Puts a place into an empty slot: each node above it takes the smaller. It has no early end, so that no step waits for the one before.
    pub fn insert(self, nodes: &mut [u16], slot: usize, place: Rank)
        requires { Insertable self.kept self.width nodes.old slot place.0 }
        ensures { Inserted self.kept self.width nodes.old slot place.0 nodes.new }
    {
        let leaf = self.width + slot;
        nodes[leaf] = place.0;
        let mut node = leaf / 2;
        while self.kept <= node {
            nodes[node] = Rank(nodes[node]).min(place).0;
            node /= 2;
        }
    }

    // Empties a slot: each node above it takes the smaller of its two children again.
    pub fn remove(self, nodes: &mut [u16], slot: usize)
        requires segment_tree { SegmentTree self.kept self.width nodes.old }
        requires slot_lt_width { slot < self.width }
        ensures { Removed self.kept self.width nodes.old slot nodes.new }
    {
        let mut node = self.width + slot;
        let mut least = Rank(model::ABSENT);
        nodes[node] = least.0;
        while 2 * self.kept <= node {
            least = least.min(Rank(nodes[sibling(node)]));
            node /= 2;
            nodes[node] = least.0;
        }
    }

    // Narrows a span of nodes, level by level up to the uppermost that is kept: the first and the last node are taken in, and what is left is the span of
    // the parents that lie wholly inside.
    fn narrow(self, nodes: &[u16], from: usize, to: usize) -> Span
        requires { Narrowable self.kept self.width nodes.now from to }
        ensures { Narrowed self.kept self.width nodes.now from to result.left result.right result.least.0 }
    {
        let mut left = from;
        let mut right = to;
        let mut least = Rank(model::ABSENT);
        while left < right && 2 * self.kept <= left {
            least = least.min(Rank(nodes[left]).min(Rank(nodes[right - 1])));
            left = (left + 1) / 2;
            right /= 2;
        }
        Span { left, right, least }
    }

    // The smallest place in the slots from `from` up to `to`, FFFF for none, from the slots up.
    fn range_minimum(self, nodes: &[u16], from: usize, to: usize) -> Rank
        requires segment_tree { SegmentTree self.kept self.width nodes.now }
        requires from_le_to { from ≤ to }
        requires to_le_width { to ≤ self.width }
        ensures { result.0 ≡ smallest (entries_in self.width nodes.now) from to }
    {
        let span = self.narrow(nodes, self.width + from, self.width + to);
        level_minimum(nodes, span.left, span.right, span.least)
    }

    // The smallest place in the slots from `from` up to `to`. Where the first that can wait there does, in `slot`, or comes after the last, there is nothing to
    // search for; another slot than its own costs a search and no more.
    pub fn lookup(
        self,
        nodes: &[u16],
        from: usize,
        to: usize,
        slot: usize,
        candidates: Candidates,
    ) -> Option<Rank>
        requires { Searchable self.kept self.width nodes.now from to candidates.first.0 candidates.last.0 }
        ensures { result ≡ place_in (smallest (entries_in self.width nodes.now) from to) }
    {
        if to <= from {
            return None;
        }
        let first = candidates.first;
        let last = candidates.last;
        if last < first {
            return None;
        }
        if from <= slot && slot < to {
            if first == Rank(nodes[self.width + slot]) {
                return Some(first);
            }
        }
        Rank::in_cell(self.range_minimum(nodes, from, to).0)
    }
}

// How many levels have a node with x strictly inside: x is a border of a node as long as its trailing zeros last.
fn levels_inside(levels: u32, x: usize) -> u32
    requires { count_trailing_zeros 64 x ≤ levels }
    ensures { result ≡ levels_inside 0 levels x }
{
    levels - x.trailing_zeros()
}

// How many levels have a node with `from` strictly inside and `to` in another one: those past the trailing zeros of `from`, up to the highest digit in which the
// two differ, as above it both lie in one node.
fn levels_apart(levels: u32, from: usize, to: usize) -> u32
    requires { from < to }
    ensures { result ≡ levels_apart levels from to }
{
    let digit = 63 - (from ^ to).leading_zeros();
    let zeros = levels.min(from.trailing_zeros());
    digit.max(zeros) - zeros
}

// How many nodes document 01 counts for a lookup of the slots from `from` up to `to`, of which there are some: the topmost, and two for each node with an end strictly
// inside.
fn count_visits(levels: u32, from: usize, to: usize) -> u32
    requires { Countable levels from to }
    ensures { result ≡ visits levels from to }
{
    let inside = levels_inside(levels, to) + levels_apart(levels, from, to);
    1 + 2 * inside
}

// Where a shelf begins in the row of slots, and how many slots it has.
#[derive(Clone, Copy)]
pub struct Shelf {
    pub base: usize,
    pub size: usize,
}

impl Shelf {
    // The shelf of the slots from `begin` up to `end`.
    pub fn between(begin: u16, end: u16) -> Shelf
        requires { begin ≤ end }
        ensures { (result.base ≡ begin) × (result.size ≡ end - begin) }
    {
        Shelf {
            base: usize::from(begin),
            size: usize::from(end - begin),
        }
    }

    // How many levels its tree has, below the topmost node: as many as its last slot has binary digits.
    fn levels(self) -> u32
        requires { 1 ≤ self.size }
        ensures { result ≡ levels self.size }
    {
        64 - (self.size - 1).leading_zeros()
    }

    // How many nodes document 01 counts for a lookup of the slots from `from` up to `to`, which are its own.
    pub fn lookup_visits(self, from: usize, to: usize) -> u32
        requires { ShelfSpan self.base self.size from to }
        ensures { result ≡ visits (levels self.size) (from - self.base) (to - self.base) }
    {
        if from < to {
            return count_visits(self.levels(), from - self.base, to - self.base);
        }
        1
    }
}
