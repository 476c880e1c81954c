// A grouping as lines: a line for each group, by its first job, and their number (document 02, 2026-07).
#![tactic(auto)]

ghost use Rattle.std.specs.Prelude.{◌≡◌, List, ℕ, ◌+◌, ◌*◌, ◌≤◌, length};
ghost use Rattle.model.specs.Jobs.{Table};
ghost use Rattle.model.specs.Output.{group_bytes, output_bytes};
ghost use Rattle.ancestry.specs.Searching.{SearchableBy};
ghost use Rattle.lines.specs.Writing.{Printed};
ghost use Rattle.lines.specs.Writers.{written, output, Same, Room};
ghost use Rattle.groups.specs.GroupPlan.{GroupPlan};
ghost use Rattle.group_lines.specs.Lines.{GroupCells, GroupAppended};
ghost use Rattle.group_lines.specs.OfTable.{GroupsAppended};

use ancestry::CommonAncestors;
use jobs::layout_at;
use lines::Writer;
use model::{LaneCount, Rank};
use schedule::job_at;
use settle::SettledTree;

// The line of a group, given by place: its jobs, and the deepest layout on all their paths, which is the lowest common ancestor of their bottoms.
fn put_group(
    common: &CommonAncestors,
    bottoms: &[u16],
    work: &[u16],
    group: &[u16],
    writer: &mut Writer,
)
    requires by_index { (ps : List ℕ) × SearchableBy ps common.now × GroupCells ps bottoms.now work.now group.now }
    requires group_in_bounds { Room writer.old (4 * length group.now + 7) }
    ensures same { Same writer.old writer.new }
    ensures appended { (ps : List ℕ) → SearchableBy ps common.now → GroupCells ps bottoms.now work.now group.now → GroupAppended ps bottoms.now work.now group.now (written writer.old) (output writer.old) (written writer.new) (output writer.new) }
{
    writer.start_group();
    let first = job_at(work, Rank(group[0]));
    let mut layout = layout_at(bottoms, first);
    writer.put_job(first);
    for &place in &group[1..] {
        let job = job_at(work, Rank(place));
        let bottom = layout_at(bottoms, job);
        layout = common.lowest_common(layout, bottom);
        writer.put_job(job);
    }
    writer.end_group(layout);
}

// The lines of all groups.
fn put_groups(
    common: &CommonAncestors,
    bottoms: &[u16],
    work: &[u16],
    members: &[u16],
    lanes: LaneCount,
    writer: &mut Writer,
)
    requires by_index { (tb : Table) × (ps : List ℕ) × (count : ℕ) × GroupPlan tb lanes.0 ps common.now.tree.now members.now bottoms.now work.now count × SearchableBy ps common.now }
    requires none_written { written writer.old ≡ 0 }
    requires output_bytes_in_bounds { output_bytes ≤ length (output writer.old) }
    ensures same { Same writer.old writer.new }
    ensures appended { (tb : Table) (ps : List ℕ) (count : ℕ) → GroupPlan tb lanes.0 ps common.now.tree.now members.now bottoms.now work.now count → SearchableBy ps common.now → GroupsAppended tb lanes.0 count (output writer.old) (written writer.new) (output writer.new) }
{
    for group in members.chunks_exact(lanes.0) {
        put_group(common, bottoms, work, group, writer);
    }
}

// The whole grouping, with zeros after it.
pub fn print_groups(
    parents: &[u16],
    tree: &SettledTree,
    bottoms: &[u16],
    work: &[u16],
    members: &[u16],
    lanes: LaneCount,
    groups: usize,
    out: &mut [u8],
) -> usize
    requires group_plan { (tb : Table) × GroupPlan tb lanes.0 parents.now tree.now members.now bottoms.now work.now groups }
    requires output_bytes_in_bounds { output_bytes ≤ length out.old }
    ensures { (tb : Table) → GroupPlan tb lanes.0 parents.now tree.now members.now bottoms.now work.now groups → Printed (group_bytes lanes.0 tb) out.old result out.new }
{
    let mut minima = [model::ABSENT; ancestry::CELLS];
    let common = CommonAncestors::new(parents, tree, &mut minima);
    let mut writer = Writer::new(out);
    put_groups(&common, bottoms, work, members, lanes, &mut writer);
    writer.put_group_count(groups as u16);
    writer.finish()
}
