// Depth, branch, first leaf and last leaf of each layout of a settled tree, and the check of the parents that they come from.
#![tactic(auto)]

ghost use Rattle.std.specs.Prelude.{◌≡◌, List, [], ℕ, ◌^◌, ◌<◌, ◌≤◌, length, get_or, replicate, ltb};
ghost use Rattle.model.specs.Verdict.{answer, refuse_if, ◌then◌};
ghost use Rattle.model.specs.Tree.{layout_limit, right_parent, tree_verdict, ancestor_or_self};
ghost use Rattle.model.specs.Answers.{settled_answer};
ghost use Rattle.tree_laws.specs.WellFormed.{Tree};
ghost use Rattle.settle.specs.Spanned.{branch_below, WaysUp, Spanned};
ghost use Rattle.settle.specs.Numbering.{FirstWrong, linked_layout, Unlinked, Linked, SomeNumberable, EachNumbered, in_subtree, properly_in_subtree};

use model::{LayoutNumber, Reason, Refusal};

// Depth, branch, first leaf and last leaf of each layout, by number.
#[derive(Clone, Copy)]
pub struct SettledTree {
    pub depths: [u16; LayoutNumber::LIMIT],
    pub branches: [u16; LayoutNumber::LIMIT],
    pub first_leaves: [u16; LayoutNumber::LIMIT],
    pub last_leaves: [u16; LayoutNumber::LIMIT],
}

// Where numbering goes: from each layout to its first child, and from each child to the next one of the same parent.
#[derive(Drop)]
struct Links {
    first_children: [u16; LayoutNumber::LIMIT],
    next_siblings: [u16; LayoutNumber::LIMIT],
}

impl SettledTree {
    // One with 0 in every cell, in which no layouts are settled yet.
    pub fn new() -> SettledTree
        ensures depths { result.depths ≡ replicate layout_limit 0 }
        ensures branches { result.branches ≡ replicate layout_limit 0 }
        ensures first_leaves { result.first_leaves ≡ replicate layout_limit 0 }
        ensures last_leaves { result.last_leaves ≡ replicate layout_limit 0 }
    {
        SettledTree {
            depths: [0; LayoutNumber::LIMIT],
            branches: [0; LayoutNumber::LIMIT],
            first_leaves: [0; LayoutNumber::LIMIT],
            last_leaves: [0; LayoutNumber::LIMIT],
        }
    }

    // The depth of layout x.
    pub fn depth(&self, x: LayoutNumber) -> u16
        requires { x.0 < layout_limit }
        ensures { result ≡ get_or self.now.depths x.0 0 }
    {
        self.depths[usize::from(x.0)]
    }

    // The branch of layout x: its highest ancestor other than layout 0, itself included; 0 for layout 0.
    pub fn branch(&self, x: LayoutNumber) -> LayoutNumber
        requires { x.0 < layout_limit }
        ensures { result.0 ≡ get_or self.now.branches x.0 0 }
    {
        LayoutNumber(self.branches[usize::from(x.0)])
    }

    // The number of the first leaf of layout x.
    pub fn first_leaf(&self, x: LayoutNumber) -> usize
        requires { x.0 < layout_limit }
        ensures value { result ≡ get_or self.now.first_leaves x.0 0 }
        ensures small { result < 2 ^ 16 }
    {
        usize::from(self.first_leaves[usize::from(x.0)])
    }

    // The number of the last leaf of layout x.
    pub fn last_leaf(&self, x: LayoutNumber) -> usize
        requires { x.0 < layout_limit }
        ensures value { result ≡ get_or self.now.last_leaves x.0 0 }
        ensures small { result < 2 ^ 16 }
    {
        usize::from(self.last_leaves[usize::from(x.0)])
    }

    // Whether layout u is layout x or an ancestor of it, by spans and depths, in constant time (000, section 2).
    pub fn is_ancestor(&self, u: LayoutNumber, x: LayoutNumber) -> bool
        requires u_lt_layout_limit { u.0 < layout_limit }
        requires x_lt_layout_limit { x.0 < layout_limit }
        ensures { (ps : List ℕ) → Spanned ps self.now → u.0 < length ps → x.0 < length ps → result ≡ ancestor_or_self ps u.0 x.0 }
    {
        let leaf = self.first_leaf(x);
        self.first_leaf(u) <= leaf && leaf <= self.last_leaf(u) && self.depth(u) <= self.depth(x)
    }

    // Settles layouts whose parents are right.
    pub fn settle(&mut self, parents: &[u16])
        requires { Tree parents.now }
        ensures { Spanned parents.now self.new }
    {
        self.set_ways_up(parents);
        let mut links = Links {
            first_children: [model::ABSENT; LayoutNumber::LIMIT],
            next_siblings: [model::ABSENT; LayoutNumber::LIMIT],
        };
        links.link_children(parents);
        self.number(&links, LayoutNumber(0), 0);
    }

    // Sets the way up from each layout, by its parent's, which has a smaller number and is set already: its depth, one more, and its branch. It is one loop, since
    // along a chain both wait for the layout before.
    fn set_ways_up(&mut self, parents: &[u16])
        requires { Tree parents.now }
        ensures { WaysUp parents.now (length parents.now) self.new }
    {
        self.depths[0] = 0;
        self.branches[0] = 0;
        for x in 1..parents.len() {
            let p = parents[x] as usize;
            let branch = branch_below(LayoutNumber(x as u16), LayoutNumber(self.branches[p]));
            self.depths[x] = self.depths[p] + 1;
            self.branches[x] = branch.0;
        }
    }

    // Numbers the leaves of x and of its descendants from `next` on, and answers the number after its last.
    // Calls go as deep as the tree of layouts, so they are kept light: the parents are in the contract alone, and each struct is lent as one word.
    #[cycle(number_number_children)]
    fn number(&mut self, links: &Links, x: LayoutNumber, next: u16) -> u16
        requires { SomeNumberable links.now x.0 next }
        ensures { EachNumbered in_subtree links.now x.0 next self.old result self.new }
    {
        let at = x.0 as usize;
        let after = self.number_children(links, x, next);
        self.first_leaves[at] = next;
        self.last_leaves[at] = after - 1;
        after
    }

    // The same for the descendants of x alone: its children's leaves, child by child; a layout with no children is a leaf.
    #[cycle(number_number_children)]
    fn number_children(&mut self, links: &Links, x: LayoutNumber, next: u16) -> u16
        requires { SomeNumberable links.now x.0 next }
        ensures { EachNumbered properly_in_subtree links.now x.0 next self.old result self.new }
    {
        let mut child = linked(links.first_children[usize::from(x.0)]);
        if child.is_none() {
            return next + 1;
        }
        let mut after = next;
        while let Some(c) = child {
            child = linked(links.next_siblings[usize::from(c.0)]);
            after = self.number(links, c, after);
        }
        after
    }
}

impl Links {
    // Links each layout to its first child and each child to its next sibling, from the last layout down.
    fn link_children(&mut self, parents: &[u16])
        requires tree { Tree parents.now }
        requires unlinked { Unlinked parents.now self.old }
        ensures { Linked parents.now self.new }
    {
        for y in (1..parents.len()).rev() {
            let p = parents[y] as usize;
            self.next_siblings[y] = self.first_children[p];
            self.first_children[p] = y as u16;
        }
    }
}

// The layout that a link leads to.
fn linked(link: u16) -> Option<LayoutNumber>
    ensures { result ≡ linked_layout link }
{
    if link == model::ABSENT {
        return None;
    }
    Some(LayoutNumber(link))
}

// The branch of a layout, given its parent's: that one, or the layout itself where its parent is layout 0, which has branch 0.
fn branch_below(x: LayoutNumber, above: LayoutNumber) -> LayoutNumber
    ensures { result.0 ≡ branch_below x.0 above.0 }
{
    if above == LayoutNumber(0) {
        return x;
    }
    above
}

// Whether p can be the parent of layout x: FFFF for layout 0, else a smaller number.
pub fn right_parent(x: LayoutNumber, p: LayoutNumber) -> bool
    ensures { result ≡ right_parent x.0 p.0 }
{
    if x == LayoutNumber(0) {
        return p.is_none();
    }
    p < x
}

// The first layout whose parent is wrong.
fn first_wrong(parents: &[u16]) -> Option<LayoutNumber>
    requires { length parents.now ≤ layout_limit }
    ensures { FirstWrong parents.now result }
{
    for (x, &parent) in parents.iter().enumerate() {
        let layout = LayoutNumber(x as u16);
        if !right_parent(layout, LayoutNumber(parent)) {
            return Some(layout);
        }
    }
    None
}

// Whether the layouts can be settled: refusal 3 over the limit, 4 at the first layout whose parent is wrong, or at place 0 for no layout.
pub fn check_layouts(parents: &[u16]) -> Result<(), Refusal>
    ensures { settled_answer result ≡ answer (refuse_if (ltb layout_limit (length parents.now)) 3 0 then tree_verdict parents.now) [] }
{
    let count = parents.len();
    if LayoutNumber::LIMIT < count {
        return Err(Refusal {
            reason: Reason::TooMany,
            place: 0,
        });
    }
    if count == 0 {
        return Err(Refusal {
            reason: Reason::WrongParent,
            place: 0,
        });
    }
    if let Some(wrong) = first_wrong(parents) {
        return Err(Refusal {
            reason: Reason::WrongParent,
            place: wrong.0,
        });
    }
    Ok(())
}
