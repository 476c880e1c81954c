// The groups of a table for a press with more lanes (document 02, 2026-07): made by place, from a table to its schedule and by a sweep over it.
#![tactic(auto)]

ghost use Rattle.std.specs.Prelude.{◌≤◌, length};
ghost use Rattle.model.specs.Grouping.{least_lanes, most_lanes};
ghost use Rattle.settle.specs.Spanned.{Spanned};
ghost use Rattle.jobs.specs.Columns.{table_with, jobs_in, SameColumns};
ghost use Rattle.jobs.specs.Accepted.{Accepted};
ghost use Rattle.passes.specs.Making.{Roomy};
ghost use Rattle.groups.specs.GroupPlan.{GroupsMade};

use jobs::JobColumns;
use model::LaneCount;
use settle::SettledTree;

// Makes the groups of an accepted table, and answers how many, or None where one of them is not full. The marks and tops are used up: the places of the groups stand in the
// place of the tops, group by group.
pub fn make_groups(
    parents: &[u16],
    tree: &SettledTree,
    columns: &mut JobColumns,
    work: &mut [u16],
    lanes: LaneCount,
) -> Option<usize>
    requires accepted { Accepted (table_with parents.now columns.old) }
    requires spanned { Spanned parents.now tree.now }
    requires roomy { Roomy (jobs_in columns.old) work.old }
    requires least_lanes_le_lanes { least_lanes ≤ lanes.0 }
    requires lanes_le_most_lanes { lanes.0 ≤ most_lanes }
    ensures same_columns { SameColumns columns.old columns.new }
    ensures groups_made { GroupsMade (table_with parents.now columns.old) lanes.0 parents.now tree.now columns.old.bottoms.now result columns.new.tops.now work.new }
{
    let count = columns.tops.len();
    let starts = prepare::prepare(parents, tree, columns, work);
    let gaps = &mut *columns.marks;
    let members = &mut *columns.tops;
    group_sweep::group_sweep(work, count, &starts, gaps, lanes, members)
}
