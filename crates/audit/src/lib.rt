// Is a heap sound? The rows may hold anything.
#![tactic(auto)]

ghost use Rattle.std.specs.Prelude.{◌≡◌, ◌≤◌, length, replicate};
ghost use Rattle.rules.specs.Head.{Says, Within};
ghost use Rattle.rules.specs.Sound.{CellsSound, TablesSound, FreeList, pointers_to, Agree, ZctHeld, Lengths, Sized, Sound};
ghost use Rattle.rules.specs.Refusals.{counted_as, numbers_of, leaves, audit_of};
ghost use Rattle.cells.specs.Lending.{shown_in, lengths_in};
ghost use Rattle.checks.specs.CellRows.{CellRows};
ghost use Rattle.checks.specs.Counts.{TablesFit};

use cells::{RowLengths, View, mark_held};
use checks::{Cells, Kinds, all_held, compare, counts, zero_from};
use rules::{Head, Outcome, Refused};

// Are fields and variables as they are to be?
fn cells_sound(cells: Cells<'_>, variables: &[i32]) -> bool
    ensures { let k = cells.entry.kinds in Says result (CellsSound k.n k.row.now cells.entry.values.now variables.now) }
{
    cells.words() && cells.kinds.variables(variables)
}

// Are the tables' rows as they are to be?
fn tables_sound(head: Head, view: View<'_>) -> bool
    requires { let r = shown_in view view.log.now in TablesFit head r.kinds r.tables }
    ensures { let r = shown_in view.entry view.entry.log.now in Says result (TablesSound head r.kinds r.tables) }
{
    let kinds = Kinds {
        n: head.sizes.n,
        row: view.kinds,
    };
    kinds.table(view.zct, head.zct)
        && kinds.table(view.mrt, head.mrt)
        && counts(view.counts, head.mrt, head.sizes.cap)
}

// Do the tables agree with the pointers?
fn pointers_sound(head: Head, view: View<'_>, work: &mut [u32]) -> bool
    requires cell_rows { CellRows head.sizes.n view.kinds.now view.values.now }
    requires work_len { length work.old ≡ head.sizes.n }
    requires tables_fit { let r = shown_in view work.old in TablesFit head r.kinds r.tables × TablesSound head r.kinds r.tables }
    ensures { let r = shown_in view.entry work.old in Says result (Agree head r.kinds r.tables (pointers_to head.sizes.n r.kinds r.values)) }
{
    let kinds = Kinds {
        n: head.sizes.n,
        row: view.kinds,
    };
    let cells = Cells {
        kinds,
        values: view.values,
    };
    work.fill(0);
    cells.count(work);
    compare(head, view, work)
}

// Does some variable hold each ZCT cell?
fn held_sound(head: Head, view: View<'_>, work: &mut [u32]) -> bool
    requires used_in_bounds { (head.zct ≤ length view.zct.now) × (length work.old ≡ head.sizes.n) }
    requires rows_sound { let r = shown_in view work.old in CellsSound head.sizes.n r.kinds r.values r.variables × TablesSound head r.kinds r.tables }
    ensures { Says result (ZctHeld head.sizes.n view.entry.variables.now view.entry.zct.now head.zct) }
{
    mark_held(view.variables, work);
    all_held(view.zct, head.zct, work)
}

// Does the free list meet every free cell once?
fn frees_sound(cells: Cells<'_>, first: usize, work: &mut [u32]) -> bool
    requires { length work.old ≡ cells.kinds.n }
    ensures { let k = cells.entry.kinds in Says result (FreeList k.n k.row.now cells.entry.values.now first) }
{
    work.fill(0);
    cells.walk(first, work) && cells.kinds.all_met(work)
}

// Is every part of the heap sound? First what shows without the work row.
fn parts_sound(head: Head, view: View<'_>, work: &mut [u32]) -> bool
    requires { Sized head (shown_in view work.old) }
    ensures { Says result (Sound head (shown_in view.entry work.old)) }
{
    let kinds = Kinds {
        n: head.sizes.n,
        row: view.kinds,
    };
    let cells = Cells {
        kinds,
        values: view.values,
    };
    cells_sound(cells, view.variables)
        && tables_sound(head, view)
        && zero_from(view.log, 0)
        && frees_sound(cells, head.free, work)
        && pointers_sound(head, view, work)
        && held_sound(head, view, work)
}

// Is the heap sound? The work row may hold anything, and is zero afterwards.
// Stays: head, view and work side by side: the work row is written while the view is read, and document 01 gives the head beside the rows.
pub fn sound(head: Head, view: View<'_>, work: &mut [u32]) -> bool
    requires { Sized head (shown_in view work.old) }
    ensures says { Says result (Sound head (shown_in view.entry work.old)) }
    ensures work_after { work.new ≡ replicate head.sizes.n 0 }
{
    let yes = parts_sound(head, view, work);
    work.fill(0);
    yes
}

// Are the head's numbers within the limits, and the rows' lengths as it says?
pub fn sized(head: Head, rows: RowLengths) -> bool
    ensures { Says result (Within head × Lengths head.sizes (lengths_in rows)) }
{
    let n = head.sizes.n;
    head.within()
        && rows.kinds == 2 * n
        && rows.values == 2 * n
        && rows.variables == head.sizes.m
        && rows.zct == n
        && rows.mrt == n
        && rows.counts == n
        && rows.log == 2 * head.sizes.l
        && rows.work == n
}

// What says no to the heap, 1 where a number or a length is outside its limits, else 4; or that no cell was freed.
fn judge(head: Head, view: View<'_>, work: &mut [u32]) -> Result<usize, Refused>
    ensures { leaves (counted_as head result) (shown_in view.entry work.new) ≡ audit_of head (shown_in view.entry work.old) }
{
    if !sized(head, view.lengths(work)) {
        return Err(Refused::Limits);
    }
    if !sound(head, view, work) {
        return Err(Refused::Unsound);
    }
    Ok(0)
}

// The audit: a count of 0 exactly when the heap is sound, else what says no.
pub fn audit(head: Head, view: View<'_>, work: &mut [u32]) -> Outcome
    ensures { leaves (numbers_of result) (shown_in view.entry work.new) ≡ audit_of head (shown_in view.entry work.old) }
{
    Outcome {
        head,
        count: judge(head, view, work),
    }
}
