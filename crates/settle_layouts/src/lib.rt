// *Settle layouts* (document 01, "What each operation turns away"): depth, first leaf and last leaf of each layout, in lent results.
#![tactic(auto)]

ghost use Rattle.std.specs.Prelude.{◌≡◌, ℕ, ◌<◌, ◌≤◌, ◌++◌, map, drop, length, get_or};
ghost use Rattle.model.specs.Lists.{numbers};
ghost use Rattle.model.specs.Tree.{layout_limit};
ghost use Rattle.model.specs.Outcomes.{SettleOutcome};

use model::{LayoutNumber, Reason, Refusal};
use settle::SettledTree;

// Copies what a column of the tree has for the first `count` layouts, and leaves the cells after them as they were.
fn copy_out(column: &[u16; LayoutNumber::LIMIT], count: usize, results: &mut [u16])
    requires count_bound { count ≤ layout_limit }
    requires count_in_bounds { count ≤ length results.old }
    ensures { (f : ℕ → ℕ) → ((x : ℕ) → x < count → get_or column.now x 0 ≡ f x) → results.new ≡ map f (numbers count) ++ drop count results.old }
{
    results[..count].copy_from_slice(&column[..count]);
}

// Depth, first leaf and last leaf of each layout, or one refusal.
pub fn settle_layouts(
    parents: &[u16],
    depths: &mut [u16],
    firsts: &mut [u16],
    lasts: &mut [u16],
) -> Result<(), Refusal>
    ensures { SettleOutcome parents.now depths.old firsts.old lasts.old result depths.new firsts.new lasts.new }
{
    let count = parents.len();
    if depths.len() < count || firsts.len() < count || lasts.len() < count {
        return Err(Refusal {
            reason: Reason::WrongBuffers,
            place: 0,
        });
    }
    settle::check_layouts(parents)?;
    let mut tree = SettledTree::new();
    tree.settle(parents);
    copy_out(&tree.depths, count, depths);
    copy_out(&tree.first_leaves, count, firsts);
    copy_out(&tree.last_leaves, count, lasts);
    Ok(())
}
