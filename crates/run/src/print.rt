// A plan as lines: a line for each pass, by the running order, and the totals (document 01, "The plan").
ghost use Rattle.std.specs.Prelude.{◌≡◌, List, ℕ, ◌+◌, ◌<◌, ◌≤◌, length, replicate};
ghost use Rattle.model.specs.Tree.{FFFF};
ghost use Rattle.model.specs.Jobs.{Table};
ghost use Rattle.model.specs.Output.{plan_bytes, output_bytes};
ghost use Rattle.ancestry.specs.SparseTable.{Roomy};
ghost use Rattle.ancestry.specs.Searching.{SearchableBy};
ghost use Rattle.lines.specs.Writing.{Printed};
ghost use Rattle.lines.specs.Writers.{written, output, Same, Room, Put};
ghost use Rattle.passes.specs.PlanPass.{Plan, TotalsOf};
ghost use Rattle.run.specs.Printing.{PairKnown, line_length, line_of, PassesAppended};

use crate::OUTPUT;
use ancestry::CommonAncestors;
use jobs::layout_at;
use lines::Writer;
use model::Totals;
use passes::Pass;
use settle::SettledTree;

// The line of a pass. What two jobs share begins at the highest layout of the earlier.
fn put_pass(highests: &[u16], pass: Pass, writer: &mut Writer)
    requires pair_known { PairKnown «pass» (length highests.now) }
    requires pass_in_bounds { Room writer.old (line_length «pass») }
    ensures { Put (line_length «pass») (line_of highests.now «pass») writer.old writer.new }
{
    match pass {
        Pass::Pair(one, other, lower) => {
            let upper = layout_at(highests, one);
            writer.put_pair(one, other, upper, lower);
        }
        Pass::Single(job) => writer.put_single(job),
    }
}

// The lines of all passes.
fn put_passes(
    common: &CommonAncestors,
    highests: &[u16],
    bottoms: &[u16],
    work: &[u16],
    count: usize,
    writer: &mut Writer,
)
    requires by_index { (tb : Table) × (ps : List ℕ) × Plan tb ps common.now.tree.now highests.now bottoms.now work.now count × SearchableBy ps common.now }
    requires none_written { written writer.old ≡ 0 }
    requires output_bytes_in_bounds { output_bytes ≤ length (output writer.old) }
    ensures same { Same writer.old writer.new }
    ensures appended { (tb : Table) (ps : List ℕ) → Plan tb ps common.now.tree.now highests.now bottoms.now work.now count → SearchableBy ps common.now → PassesAppended tb count (output writer.old) (written writer.new) (output writer.new) }
{
    for k in 0..count {
        let pass = passes::pass_at(common, bottoms, work, k);
        put_pass(highests, pass, writer);
    }
}

// The whole plan, with the minima in so many cells, and zeros after it.
fn print_in_cells<const CELLS: usize>(
    parents: &[u16],
    tree: &SettledTree,
    highests: &[u16],
    bottoms: &[u16],
    work: &[u16],
    totals: Totals,
    out: &mut [u8; OUTPUT],
) -> usize
    requires cells_bound { CELLS < 65536 }
    requires roomy { Roomy parents.now (replicate CELLS FFFF) }
    requires plan { (tb : Table) × Plan tb parents.now tree.now highests.now bottoms.now work.now (totals.pairs + totals.singles) × TotalsOf tb totals }
    ensures { (tb : Table) → Plan tb parents.now tree.now highests.now bottoms.now work.now (totals.pairs + totals.singles) → TotalsOf tb totals → Printed (plan_bytes tb) out.old result out.new }
{
    let mut minima = [model::ABSENT; CELLS];
    let common = CommonAncestors::new(parents, tree, &mut minima);
    let count = usize::from(totals.pairs) + usize::from(totals.singles);
    let mut writer = Writer::new(out);
    put_passes(&common, highests, bottoms, work, count, &mut writer);
    writer.put_totals(totals);
    writer.finish()
}

// The minima of a small tree stand in few cells, so that little memory is touched.
pub fn print_plan(
    parents: &[u16],
    tree: &SettledTree,
    highests: &[u16],
    bottoms: &[u16],
    work: &[u16],
    totals: Totals,
    out: &mut [u8; OUTPUT],
) -> usize
    requires plan { (tb : Table) × Plan tb parents.now tree.now highests.now bottoms.now work.now (totals.pairs + totals.singles) × TotalsOf tb totals }
    ensures { (tb : Table) → Plan tb parents.now tree.now highests.now bottoms.now work.now (totals.pairs + totals.singles) → TotalsOf tb totals → Printed (plan_bytes tb) out.old result out.new }
{
    if ancestry::stride_of(tree) <= ancestry::FEW {
        print_in_cells::<{ ancestry::FEW_CELLS }>(
            parents, tree, highests, bottoms, work, totals, out,
        )
    } else {
        print_in_cells::<{ ancestry::CELLS }>(parents, tree, highests, bottoms, work, totals, out)
    }
}
