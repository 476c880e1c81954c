// Hands a plan back by job number: at its own number each job finds its partner and the highest and the deepest layout that they share, FFFF for none.
#![tactic(auto)]

ghost use Rattle.std.specs.Prelude.{◌≡◌, ◌<◌, length, set};
ghost use Rattle.model.specs.Tree.{FFFF};
ghost use Rattle.model.specs.Jobs.{Table};
ghost use Rattle.passes.specs.PlanPass.{Plan};
ghost use Rattle.hand_back.specs.HandBack.{partners_with, uppers_with, printed_with, Inside, Returned};

use ancestry::CommonAncestors;
use jobs::layout_at;
use model::{JobNumber, LayoutNumber};
use passes::Pass;
use settle::SettledTree;

// Each of two jobs finds the other.
fn set_partners(partners: &mut [u16], one: JobNumber, other: JobNumber)
    requires one_in_bounds { one.0 < length partners.old }
    requires other_in_bounds { other.0 < length partners.old }
    ensures { partners.new ≡ set (set partners.old one.0 other.0) other.0 one.0 }
{
    partners[usize::from(one.0)] = other.0;
    partners[usize::from(other.0)] = one.0;
}

// Both of two jobs find a layout.
fn set_layout(layouts: &mut [u16], one: JobNumber, other: JobNumber, layout: LayoutNumber)
    requires one_in_bounds { one.0 < length layouts.old }
    requires other_in_bounds { other.0 < length layouts.old }
    ensures { layouts.new ≡ set (set layouts.old one.0 layout.0) other.0 layout.0 }
{
    layouts[usize::from(one.0)] = layout.0;
    layouts[usize::from(other.0)] = layout.0;
}

// A job finds nothing.
fn set_absent(cells: &mut [u16], job: JobNumber)
    requires { job.0 < length cells.old }
    ensures { cells.new ≡ set cells.old job.0 FFFF }
{
    cells[usize::from(job.0)] = model::ABSENT;
}

// The jobs of a pass find their partners and layouts. What two jobs share begins at the highest layout of the earlier.
fn write_pass(pass: Pass, partners: &mut [u16], uppers: &mut [u16], printed: &mut [u16])
    requires inside { Inside «pass» (length partners.old) }
    requires uppers_len { length uppers.old ≡ length partners.old }
    requires printed_len { length printed.old ≡ length partners.old }
    ensures partners_after { partners.new ≡ partners_with «pass» partners.old }
    ensures uppers_after { uppers.new ≡ uppers_with «pass» uppers.old }
    ensures printed_after { printed.new ≡ printed_with «pass» printed.old }
{
    match pass {
        Pass::Pair(one, other, lower) => {
            let upper = layout_at(uppers, one);
            set_partners(partners, one, other);
            set_layout(uppers, one, other, upper);
            set_layout(printed, one, other, lower);
        }
        Pass::Single(job) => {
            set_absent(partners, job);
            set_absent(uppers, job);
            set_absent(printed, job);
        }
    }
}

// Hands all passes back, into results of one cell for each job. The uppers hold the highest layout of each job at first. It stays a function of its own, so that its
// minima take no stack while the schedule is worked out.
#[inline(never)]
pub fn hand_back(
    parents: &[u16],
    tree: &SettledTree,
    bottoms: &[u16],
    work: &[u16],
    count: usize,
    partners: &mut [u16],
    uppers: &mut [u16],
    printed: &mut [u16],
)
    requires plan { (tb : Table) × Plan tb parents.now tree.now uppers.old bottoms.now work.now count }
    requires partners_len { length partners.old ≡ length bottoms.now }
    requires printed_len { length printed.old ≡ length bottoms.now }
    ensures { (tb : Table) → Plan tb parents.now tree.now uppers.old bottoms.now work.now count → Returned tb partners.new uppers.new printed.new }
{
    let mut minima = [model::ABSENT; ancestry::CELLS];
    let common = CommonAncestors::new(parents, tree, &mut minima);
    for k in 0..count {
        let pass = passes::pass_at(&common, bottoms, work, k);
        write_pass(pass, partners, uppers, printed);
    }
}
