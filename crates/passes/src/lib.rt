// The passes of a plan (document 01, "The plan"): made in the work cells, from a table to its schedule and by a sweep over it, and read off them.
#![tactic(auto)]

ghost use Rattle.std.specs.Prelude.{List, ℕ};
ghost use Rattle.settle.specs.Spanned.{Spanned};
ghost use Rattle.jobs.specs.Columns.{table_with, jobs_in, SameColumns};
ghost use Rattle.jobs.specs.Accepted.{Accepted};
ghost use Rattle.ancestry.specs.Searching.{SearchableBy};
ghost use Rattle.passes.specs.Making.{Roomy, Made};
ghost use Rattle.passes.specs.Read.{PassCells, PairCells, PairRead, PassRead};

use ancestry::CommonAncestors;
use jobs::{JobColumns, layout_at};
use model::{JobNumber, LayoutNumber, Totals};
use schedule::{OPENER, job_at, mate_at, place_in};
use settle::SettledTree;

// A pass of the press: two jobs, the earlier first, with the layout that they print on, or one job alone.
#[derive(Clone, Copy)]
pub enum Pass {
    Pair(JobNumber, JobNumber, LayoutNumber),
    Single(JobNumber),
}

// Makes the passes of an accepted table in the work cells, and answers what they come to. The marks are used up, and the highest layouts stand in the place of the tops.
pub fn make_passes(
    parents: &[u16],
    tree: &SettledTree,
    columns: &mut JobColumns,
    work: &mut [u16],
) -> Totals
    requires accepted { Accepted (table_with parents.now columns.old) }
    requires spanned { Spanned parents.now tree.now }
    requires roomy { Roomy (jobs_in columns.old) work.old }
    ensures same_columns { SameColumns columns.old columns.new }
    ensures made { Made (table_with parents.now columns.old) parents.now tree.now columns.old.bottoms.now work.old result columns.new.tops.now work.new }
{
    let count = columns.tops.len();
    let starts = prepare::prepare(parents, tree, columns, work);
    let matched = sweep::sweep(work, count, &starts, columns.marks);
    let pairs = usize::from(matched.pairs);
    Totals {
        pairs: matched.pairs,
        singles: (count - 2 * pairs) as u16,
        visits: matched.visits,
    }
}

// The pass of two jobs: they print on the deepest layout that is above both bottoms.
fn pair_of(common: &CommonAncestors, bottoms: &[u16], one: JobNumber, other: JobNumber) -> Pass
    requires { (ps : List ℕ) × SearchableBy ps common.now × PairCells ps bottoms.now one.0 other.0 }
    ensures { (ps : List ℕ) → SearchableBy ps common.now → PairCells ps bottoms.now one.0 other.0 → PairRead ps bottoms.now one.0 other.0 result }
{
    let first = layout_at(bottoms, one);
    let second = layout_at(bottoms, other);
    let layout = common.lowest_common(first, second);
    Pass::Pair(one, other, layout)
}

// Pass k, by the earlier place in it.
pub fn pass_at(common: &CommonAncestors, bottoms: &[u16], work: &[u16], k: usize) -> Pass
    requires { (ps : List ℕ) × SearchableBy ps common.now × PassCells ps bottoms.now work.now k }
    ensures { (ps : List ℕ) → SearchableBy ps common.now → PassCells ps bottoms.now work.now k → PassRead ps bottoms.now work.now k result }
{
    let count = bottoms.len();
    let opener = place_in::<OPENER>(work, count, k);
    let one = job_at(work, opener);
    match mate_at(work, count, opener) {
        Some(mate) => pair_of(common, bottoms, one, job_at(work, mate)),
        None => Pass::Single(one),
    }
}
