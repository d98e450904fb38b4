// A batch's calls, worked one after the other, and the settle at its end.
#![tactic(auto)]

ghost use Rattle.std.specs.Prelude.{◌≡◌, ◌+◌, ◌*◌, ◌≤◌, length};
ghost use Rattle.rules.specs.Heap.{Heap};
ghost use Rattle.rules.specs.Call.{answer_of};
ghost use Rattle.rules.specs.Step.{needs, wants};
ghost use Rattle.rules.specs.Whole.{start_of};
ghost use Rattle.rules.specs.Refusals.{numbers_of};
ghost use Rattle.cells.specs.Lending.{lent_in, SameFields};
ghost use Rattle.tables.specs.Lending.{SameTables};
ghost use Rattle.working.specs.Working.{Workable, Works, answering, Runnable, Runs, ended_at};

use before::{check, need};
use calls::act;
use cells::{Fields, View};
use rules::{Call, Head, Outcome, Refusal, Sizes, State, Used};
use settle::{settle, settle_for};
use tables::Tables;
use words::call_at;

// Is a settle made before the call, which needs so many entries?
fn settles_first(call: Call, need: usize, sizes: Sizes, at: State) -> bool
    requires { (need ≤ 2) × (at.len ≤ 1024) }
    ensures { (h : Heap) → at.len ≡ length h.log → at.first ≡ h.first → need ≡ needs call h.shape → result ≡ wants sizes call h }
{
    let full = sizes.l < at.len + need;
    match call {
        // Stays: n ends the free list, in document 01.
        Call::New(_) => full || at.first == sizes.n,
        Call::Do(_) => full,
        Call::Settle => true,
    }
}

// The call at the start of these words is worked: refused by its check, or settled first where it wants that, and then done.
// (A batch's words were found right before.)
// Stays: the rows side by side, here and below; the reason stands at `settle` of settle.
fn step(
    words: &[i32],
    fields: &mut Fields,
    variables: &mut [i32],
    tables: &mut Tables,
    log: &mut [u32],
    work: &mut [u32],
    sizes: Sizes,
    at: &mut State,
) -> Result<i32, Refusal>
    requires { Workable sizes words.now (lent_in fields.old variables.old tables.old log.old work.old) at.old }
    ensures same { SameFields fields.old fields.new × SameTables tables.old tables.new }
    ensures works { Works sizes words.now (lent_in fields.old variables.old tables.old log.old work.old) at.old
        (lent_in fields.new variables.new tables.new log.new work.new) at.new result }
{
    // Stays: as before the words are looked at again; `Workable` does not ask that they are a call.
    let Some(call) = call_at(words, 0, sizes.m) else {
        return Ok(0);
    };
    let seen = View::of(fields, variables, tables, log);
    check(call, seen, sizes.n)?;
    let entries = need(call, seen, sizes.n);
    let make = settles_first(call, entries, sizes, *at);
    let before = at.freed;
    settle_for(call, make, fields, variables, tables, log, work, at, sizes);
    act(
        call,
        fields,
        variables,
        tables,
        log,
        sizes,
        at,
        at.freed - before,
    )
}

// The answer of call i is written: its status, and its value beside it.
fn write_answer(answers: &mut [i32], i: usize, answer: Result<i32, Refusal>)
    requires { 2 * i + 2 ≤ length answers.old }
    ensures { answers.new ≡ answering i (answer_of answer) answers.old }
{
    let (status, value) = match answer {
        Ok(value) => (0, value),
        Err(refusal) => (i32::from(refusal), 0),
    };
    let q = 2 * i;
    answers[q] = status;
    answers[q + 1] = value;
}

// Where a batch starts.
// Stays: no conversion: it says that a batch starts with an empty log and nothing freed.
fn start(head: Head) -> State
    ensures { result ≡ start_of head }
{
    State {
        len: 0,
        first: head.free,
        used: Used {
            zct: head.zct,
            mrt: head.mrt,
        },
        freed: 0,
    }
}

// What a batch returns that ended here.
fn ended(sizes: Sizes, at: State) -> Outcome
    ensures { numbers_of result ≡ ended_at sizes at }
{
    let head = Head {
        sizes,
        free: at.first,
        zct: at.used.zct,
        mrt: at.used.mrt,
    };
    Outcome {
        head,
        count: Ok(at.freed),
    }
}

// A batch that passed every check: each call is worked from the four words where it starts, and a settle is made at the end.
pub fn run_batch(
    calls: &[i32],
    fields: &mut Fields,
    variables: &mut [i32],
    tables: &mut Tables,
    log: &mut [u32],
    work: &mut [u32],
    answers: &mut [i32],
    head: Head,
) -> Outcome
    requires { Runnable head calls.now (lent_in fields.old variables.old tables.old log.old work.old) answers.old }
    ensures same { SameFields fields.old fields.new × SameTables tables.old tables.new }
    ensures runs { Runs head calls.now (lent_in fields.old variables.old tables.old log.old work.old) answers.old
        (lent_in fields.new variables.new tables.new log.new work.new) answers.new (numbers_of result) }
{
    let sizes = head.sizes;
    let mut at = start(head);
    // Stays: the part of the calls row from its middle on is the form that document 01 names.
    for i in 0..calls.len() / 4 {
        let words = &calls[4 * i..];
        let answer = step(words, fields, variables, tables, log, work, sizes, &mut at);
        write_answer(answers, i, answer);
    }
    settle(fields, variables, tables, log, work, &mut at, sizes);
    ended(sizes, at)
}
