// The entry points: fresh, audit, batch. No requires, one outcome for each input.
#![tactic(auto)]

ghost use Rattle.std.specs.Prelude.{◌≡◌};
ghost use Rattle.rules.specs.Refusals.{numbers_of, leaves, leaves_with, fresh_of, audit_of, batch_of};
ghost use Rattle.heap.specs.Judging.{Judged};
ghost use Rattle.cells.specs.Lending.{lent_in, shown_in, SameFields};
ghost use Rattle.tables.specs.Lending.{SameTables};

use audit::{sized, sound};
use cells::fresh_rows;
pub use cells::{Fields, View};
use rules::{Head, Outcome, Refused, Sizes};
pub use tables::Tables;
use words::calls_right;
use working::run_batch;

// A fresh heap of the sizes, written into the rows: its head and a count of 0, or a head of zeros and what says no.
// Stays: the rows side by side, here and below; the reason stands at `settle` of settle.
pub fn fresh(
    sizes: Sizes,
    fields: &mut Fields,
    variables: &mut [i32],
    tables: &mut Tables,
    log: &mut [u32],
    work: &mut [u32],
) -> Outcome
    ensures same { SameFields fields.old fields.new × SameTables tables.old tables.new }
    ensures leaves { leaves (numbers_of result) (lent_in fields.new variables.new tables.new log.new work.new)
        ≡ fresh_of sizes (lent_in fields.old variables.old tables.old log.old work.old) }
{
    let head = Head::fresh(sizes);
    if !sized(head, View::of(fields, variables, tables, log).lengths(work)) {
        return Outcome {
            head: Head::fresh(Sizes::plain(0, 0, 0, 0)),
            count: Err(Refused::Limits),
        };
    }
    fresh_rows(fields, variables, tables, log, work, sizes);
    Outcome { head, count: Ok(0) }
}

// Is the heap sound? No cells freed for yes; what says no where a number or a length is outside its limits, or it isn't.
pub fn audit(head: Head, view: View<'_>, work: &mut [u32]) -> Outcome
    ensures { leaves (numbers_of result) (shown_in view.entry work.new) ≡ audit_of head (shown_in view.entry work.old) }
{
    audit::audit(head, view, work)
}

// What says no to a batch, in the order of the numbers.
// Stays: the audit's two tests, and between them the two of the calls, in the order of the numbers.
fn judge(
    head: Head,
    view: View<'_>,
    work: &mut [u32],
    calls: &[i32],
    answers: &[i32],
) -> Result<(), Refused>
    ensures { Judged head (shown_in view.entry work.old) calls.now answers.now (shown_in view.entry work.new) result }
{
    if !sized(head, view.lengths(work)) {
        return Err(Refused::Limits);
    }
    if !calls_right(calls, head.sizes.m) {
        return Err(Refused::Calls);
    }
    if answers.len() < calls.len() / 2 {
        return Err(Refused::Answers);
    }
    let good = sound(head, view, work);
    if !good {
        return Err(Refused::Unsound);
    }
    Ok(())
}

// A batch of calls, four words each; their answers, two words each, go into the answers row.
pub fn batch(
    head: Head,
    fields: &mut Fields,
    variables: &mut [i32],
    tables: &mut Tables,
    log: &mut [u32],
    work: &mut [u32],
    calls: &[i32],
    answers: &mut [i32],
) -> Outcome
    ensures same { SameFields fields.old fields.new × SameTables tables.old tables.new }
    ensures leaves { leaves_with (numbers_of result) (lent_in fields.new variables.new tables.new log.new work.new) answers.new
        ≡ batch_of head (lent_in fields.old variables.old tables.old log.old work.old) calls.now answers.old }
{
    let seen = View::of(fields, variables, tables, log);
    match judge(head, seen, work, calls, answers) {
        Err(refused) => Outcome {
            head,
            count: Err(refused),
        },
        Ok(()) => run_batch(calls, fields, variables, tables, log, work, answers, head),
    }
}
