// The lowest common ancestor of two layouts, by range minimum. It is the smallest of the two and of the parents of the layouts whose first leaf lies after
// that of the left one, up to that of the right one: an ancestor has a smaller number than what stands below it. Minima of these parents stand in a
// sparse table.
#![tactic(auto)]

ghost use Rattle.std.specs.Prelude.{◌≡◌, List, ℕ, ◌+◌, ◌-◌, ◌^◌, ◌<◌, ◌≤◌, length, replicate};
ghost use Rattle.model.specs.Tree.{FFFF};
ghost use Rattle.laws.specs.Least.{least_of};
ghost use Rattle.settle.specs.Spanned.{Spanned};
ghost use Rattle.ancestry.specs.Ancestry.{LowestCommonAncestor};
ghost use Rattle.ancestry.specs.SparseTable.{stride_of, smallest_parent, Roomy, RowsTo, RowSet, Minima};
ghost use Rattle.ancestry.specs.Searching.{SearchableBy};

use model::LayoutNumber;
use settle::SettledTree;

// Cells for the minima of every tree.
pub const CELLS: usize = 12 * (LayoutNumber::LIMIT + 1);

// Where a row has at most FEW cells, so few are enough.
pub const FEW: usize = 128;

pub const FEW_CELLS: usize = 8 * FEW;

// How many cells a row of minima has: one for each leaf, and one more.
pub fn stride_of(tree: &SettledTree) -> usize
    requires { (ps : List ℕ) × Spanned ps tree.now }
    ensures value { (ps : List ℕ) → Spanned ps tree.now → result ≡ stride_of ps }
    ensures small { result < 2 ^ 16 + 2 }
{
    tree.last_leaf(LayoutNumber(0)) + 2
}

// Row 1: at each leaf the smallest parent of the layouts that have it as first leaf.
fn set_parents(parents: &[u16], tree: &SettledTree, stride: usize, minima: &mut [u16])
    requires spanned { Spanned parents.now tree.now }
    requires stride_value { stride ≡ stride_of parents.now }
    requires roomy { Roomy parents.now minima.old }
    requires minima_value { minima.old ≡ replicate (length minima.old) FFFF }
    ensures { RowsTo parents.now 1 minima.new }
{
    for x in 1..parents.len() {
        let parent = LayoutNumber(parents[x]);
        let at = stride + tree.first_leaf(LayoutNumber(x as u16));
        minima[at] = LayoutNumber(minima[at]).min(parent).0;
    }
}

// The row after the one that begins at `at`: a minimum of twice as many leaves is the smaller of two.
fn set_row(minima: &mut [u16], at: usize, stride: usize, half: usize)
    requires stride_in_bounds { at + stride + stride ≤ length minima.old }
    requires half_bound { half + half ≤ stride }
    ensures { RowSet at stride half (stride - (half + half)) minima.old minima.new }
{
    for k in 0..stride - 2 * half {
        let left = LayoutNumber(minima[at + k]);
        let right = LayoutNumber(minima[at + k + half]);
        minima[at + stride + k] = left.min(right).0;
    }
}

// The minima of a tree, in cells that hold FFFF: row after row, as long as a minimum is of fewer leaves than a row has cells.
pub fn set_minima(parents: &[u16], tree: &SettledTree, minima: &mut [u16])
    requires spanned { Spanned parents.now tree.now }
    requires roomy { Roomy parents.now minima.old }
    requires minima_value { minima.old ≡ replicate (length minima.old) FFFF }
    ensures { Minima parents.now minima.new }
{
    let stride = stride_of(tree);
    set_parents(parents, tree, stride, minima);
    let mut at = stride;
    let mut half = 1;
    while 2 * half < stride {
        set_row(minima, at, stride, half);
        at += stride;
        half *= 2;
    }
}

// What lowest common ancestors are found by: a settled tree, and the minima over the parents of its layouts.
#[derive(Clone, Copy)]
pub struct CommonAncestors<'a> {
    pub tree: &'a SettledTree,
    pub minima: &'a [u16],
}

impl<'a> CommonAncestors<'a> {
    // Those of a tree, with its minima set in cells that hold FFFF.
    pub fn new(parents: &[u16], tree: &'a SettledTree, minima: &'a mut [u16]) -> CommonAncestors<'a>
        requires spanned { Spanned parents.now tree.now }
        requires roomy { Roomy parents.now minima.old }
        requires minima_value { minima.old ≡ replicate (length minima.old) FFFF }
        ensures same_tree { result.tree.now ≡ tree.now }
        ensures searchable { SearchableBy parents.now result }
    {
        set_minima(parents, tree, minima);
        CommonAncestors { tree, minima }
    }

    // The smallest parent of the layouts whose first leaf lies from `from` up to `to`: these leaves are covered by two blocks as long as the largest power of two
    // among their number. Of no leaves it is FFFF, which row 0 holds.
    fn smallest_parent(&self, from: usize, to: usize) -> LayoutNumber
        requires { (ps : List ℕ) × SearchableBy ps self.now × (from ≤ to) × (to < stride_of ps) }
        ensures { (ps : List ℕ) → SearchableBy ps self.now → from ≤ to → to < stride_of ps → result.0 ≡ least_of (smallest_parent ps) from (to - from) }
    {
        let bits = (usize::BITS - (to - from).leading_zeros()) as usize;
        let row = bits * stride_of(self.tree);
        let block = (1usize << bits) / 2;
        let left = LayoutNumber(self.minima[row + from]);
        let right = LayoutNumber(self.minima[row + to - block]);
        left.min(right)
    }

    // The lowest common ancestor of x and y; a layout counts as its own.
    pub fn lowest_common(&self, x: LayoutNumber, y: LayoutNumber) -> LayoutNumber
        requires { (ps : List ℕ) × SearchableBy ps self.now × (x.0 < length ps) × (y.0 < length ps) }
        ensures { (ps : List ℕ) → SearchableBy ps self.now → x.0 < length ps → y.0 < length ps → LowestCommonAncestor ps x.0 y.0 result.0 }
    {
        let first = self.tree.first_leaf(x);
        let second = self.tree.first_leaf(y);
        let from = first.min(second) + 1;
        let to = first.max(second) + 1;
        x.min(y).min(self.smallest_parent(from, to))
    }
}
