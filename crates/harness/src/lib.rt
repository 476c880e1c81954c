// A test aid, no part of the product: the public operations under plain C names, so that the programs in tests/ can call them. Each
// answer is packed into one number. No function here asks anything of its caller.
#![tactic(auto)]

ghost use Rattle.std.specs.Prelude.{◌≡◌};
ghost use Rattle.harness.specs.Packed.{packed_refusal, packed_settled, packed_read, PackedSettle, PackedTable, copied, CopiedStretch, packed_planned, PackedPlan};

use model::{Counts, Refusal, Totals};

// A refusal as number × 65536 + place.
fn packed_refusal(refusal: Refusal) -> u32
    ensures { result ≡ packed_refusal «refusal» }
{
    u32::from(refusal.reason.number()) * 65536 + u32::from(refusal.place)
}

// 0, or the refusal.
fn packed_settled(answer: Result<(), Refusal>) -> u32
    ensures { result ≡ packed_settled «answer» }
{
    match answer {
        Ok(()) => 0,
        Err(refusal) => packed_refusal(refusal),
    }
}

// Layouts × 65536 + jobs, or 2^32 times the refusal.
fn packed_read(answer: Result<Counts, Refusal>) -> u64
    ensures { result ≡ packed_read «answer» }
{
    match answer {
        Ok(counts) => u64::from(counts.layouts) * 65536 + u64::from(counts.jobs),
        Err(refusal) => u64::from(packed_refusal(refusal)) * 4294967296,
    }
}

// *Read a table*: layouts × 65536 + jobs, or a refusal as number × 2^48 + place × 2^32. No refusal has number 0, so the upper 16 bits tell
// the two apart.
#[unsafe(no_mangle)]
pub extern "C" fn harness_read(
    bytes: &[u8],
    parents: &mut [u16],
    tops: &mut [u16],
    bottoms: &mut [u16],
    marks: &mut [u8],
    windows: &mut [u8],
) -> u64
    ensures { PackedTable bytes.now parents.old tops.old bottoms.old marks.old windows.old result parents.new tops.new bottoms.new marks.new windows.new }
{
    packed_read(table::read_table(bytes, parents, tops, bottoms, marks, windows))
}

// *Settle layouts*: 0 for done, or a refusal as number × 65536 + place.
#[unsafe(no_mangle)]
pub extern "C" fn harness_settle(
    parents: &[u16],
    depths: &mut [u16],
    firsts: &mut [u16],
    lasts: &mut [u16],
) -> u32
    ensures { PackedSettle parents.now depths.old firsts.old lasts.old result depths.new firsts.new lasts.new }
{
    packed_settled(settle_layouts::settle_layouts(parents, depths, firsts, lasts))
}

// Copies the leading numbers of `from` into `to`, as far as there is room.
fn copy_leading(from: &[u16], to: &mut [u16])
    ensures { to.new ≡ copied from.now to.old }
{
    let count = from.len().min(to.len());
    // `copy_from_slice` would call `memmove`, which the archive needs for nothing else.
    for i in 0..count {
        to[i] = from[i];
    }
}

// *Shared stretch*: the length of the stretch. Its numbers are copied to `out`, as far as there is room.
#[unsafe(no_mangle)]
pub extern "C" fn harness_stretch<'a>(first: &'a [u16], second: &'a [u16], out: &mut [u16]) -> usize
    ensures { CopiedStretch first.now second.now out.old result out.new }
{
    let shared = stretch::shared_stretch(first, second);
    copy_leading(shared, out);
    shared.len()
}

// Pairs × 2^48 + singles × 2^32 + visits, or 2^63 + the refusal.
fn packed_planned(answer: Result<Totals, Refusal>) -> u64
    ensures { result ≡ packed_planned «answer» }
{
    match answer {
        Ok(plan) => u64::from(plan.pairs) * 281474976710656
            + u64::from(plan.singles) * 4294967296
            + u64::from(plan.visits),
        Err(refusal) => u64::from(packed_refusal(refusal)) + 9223372036854775808,
    }
}

// *Plan*: pairs × 2^48 + singles × 2^32 + visits, or a refusal as 2^63 + number × 65536 + place. A plan has at most 2,048 pairs, so the highest bit tells the two
// apart.
#[unsafe(no_mangle)]
pub extern "C" fn harness_plan(
    parents: &[u16],
    tops: &[u16],
    bottoms: &[u16],
    marks: &[u8],
    windows: &[u8],
    partners: &mut [u16],
    uppers: &mut [u16],
    printed: &mut [u16],
    work: &mut [u16],
) -> u64
    ensures { PackedPlan parents.now tops.now bottoms.now marks.now windows.now partners.old uppers.old printed.old work.old result partners.new uppers.new printed.new work.new }
{
    packed_planned(planner::plan(
        parents, tops, bottoms, marks, windows, partners, uppers, printed, work,
    ))
}
