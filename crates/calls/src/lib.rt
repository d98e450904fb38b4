// What a call does, on rows, after the settle before it.
#![tactic(auto)]

ghost use Rattle.std.specs.Prelude.{◌≡◌, List, ℕ, ◌<◌, ◌≤◌, length, get_or, set};
ghost use Rattle.std.proofs.Math.Option.{Option, none};
ghost use Rattle.rules.specs.declared.Call.TheVariants.{Do};
ghost use Rattle.rules.specs.Field.{option_of};
ghost use Rattle.rules.specs.Heap.{Shape};
ghost use Rattle.rules.specs.Call.{at as field_at, target, figure_of, same_cell, value};
ghost use Rattle.rules.specs.Step.{no_cell_free, do_new, acted};
ghost use Rattle.cells.specs.Lending.{call_in, seen_in, SameFields, LengthsStay};
ghost use Rattle.before.specs.Seen.{Held, Shown, Reach, Reaches};
ghost use Rattle.calls.specs.Doing.{Does, Changes, Writes, Links, Writable, Linkable, Takeable, Able};

use before::field_of;
use cells::{Entry, Fields, View, add_entry, held, hold, log_old, value_of};
use rules::{Call, Deed, Field, Refusal, Sizes, State};
use tables::Tables;

// ---- what it answers

// The figure that a field is, else 0.
// Stays: 0 for none, as `figure_of` of the rules has it.
fn figure_of(f: Field) -> i32
    ensures { result ≡ figure_of f }
{
    if let Field::Figure(x) = f { x } else { 0 }
}

// Do v and w hold one cell?
fn same(view: View<'_>, v: usize, w: usize) -> bool
    requires { (v < length view.variables.now) × (w < length view.variables.now) }
    ensures { (n : ℕ) (hs : List (Option ℕ)) → Held n view.entry.variables.now hs → result ≡ same_cell (get_or hs v none) (get_or hs w none) }
{
    let a = held(view.variables, v);
    a.is_some() && a == held(view.variables, w)
}

// A deed's value: the figure that is read; 1 for one cell, else 0; else 0.
fn answer(deed: Deed, view: View<'_>, n: usize) -> i32
    requires { Reaches n (seen_in view) (Do deed) }
    ensures { (s : Shape) → Shown n (seen_in view.entry) s → result ≡ value deed s }
{
    match deed {
        Deed::Read(v, f) => figure_of(field_of(view, n, v, f)),
        Deed::Same(v, w) => i32::from(same(view, v, w)),
        _ => 0,
    }
}

// ---- what it does
// Stays: the rows side by side, here and below; the reason stands at `settle` of settle.

// The cell that a field names.
fn target(f: Field) -> Option<usize>
    ensures { option_of result ≡ target f }
{
    if let Field::Cell(a) = f {
        Some(a)
    } else {
        None
    }
}

// The cell that field f of v's cell names.
fn follow(view: View<'_>, n: usize, v: usize, f: usize) -> Option<usize>
    requires { Reach n (seen_in view) v f }
    ensures { (s : Shape) → Shown n (seen_in view.entry) s → option_of result ≡ target (field_at s v f) }
{
    target(field_of(view, n, v, f))
}

// Field f of v's cell becomes x: a destroy is logged for its old target. The log's length afterwards.
fn write(
    fields: &mut Fields,
    variables: &[i32],
    log: &mut [u32],
    len: usize,
    v: usize,
    f: usize,
    x: Field,
) -> usize
    requires { Writable v f x (call_in fields.old variables.now log.old) len }
    ensures writes { Writes v f x (call_in fields.old variables.now log.old) len (call_in fields.new variables.now log.new) result }
    ensures lengths { LengthsStay fields.old fields.new }
    ensures same { SameFields fields.old fields.new }
{
    let Some(a) = held(variables, v) else {
        return len;
    };
    let i = 2 * a + f;
    let old = fields.field_at(i);
    fields.put_field(i, x);
    log_old(log, len, old)
}

// Field f of v's cell becomes w's cell: a destroy for its old target is logged, then a create. The log's length afterwards.
fn link(
    fields: &mut Fields,
    variables: &[i32],
    log: &mut [u32],
    len: usize,
    v: usize,
    f: usize,
    w: usize,
) -> usize
    requires { Linkable v f w (call_in fields.old variables.now log.old) len }
    ensures links { Links v f w (call_in fields.old variables.now log.old) len (call_in fields.new variables.now log.new) result }
    ensures lengths { LengthsStay fields.old fields.new }
    ensures same { SameFields fields.old fields.new }
{
    let Some(b) = held(variables, w) else {
        unreachable!()
    };
    let logged = write(fields, variables, log, len, v, f, Field::Cell(b));
    add_entry(log, logged, Entry::Create(b))
}

// A deed does what it says: it passed its check, and its entries have room in the log.
fn change(
    deed: Deed,
    fields: &mut Fields,
    variables: &mut [i32],
    tables: &Tables,
    log: &mut [u32],
    sizes: Sizes,
    at: &mut State,
)
    requires { Able sizes (Do deed) (call_in fields.old variables.old log.old) at.old }
    ensures changes { Changes sizes deed (call_in fields.old variables.old log.old) at.old (call_in fields.new variables.new log.new) at.new }
    ensures lengths { LengthsStay fields.old fields.new }
    ensures same { SameFields fields.old fields.new }
{
    match deed {
        Deed::Copy(v, w) => variables[v] = variables[w],
        Deed::Clear(v) => hold(variables, v, None),
        Deed::Link(v, f, w) => at.len = link(fields, variables, log, at.len, v, f, w),
        Deed::Put(v, f, x) => {
            at.len = write(fields, variables, log, at.len, v, f, Field::Figure(x))
        }
        Deed::Blank(v, f) => at.len = write(fields, variables, log, at.len, v, f, Field::Nothing),
        Deed::Follow(v, f, w) => {
            let a = follow(View::of(fields, variables, tables, log), sizes.n, v, f);
            hold(variables, w, a);
        }
        Deed::Read(_, _) | Deed::Same(_, _) => {}
    }
}

// The first free cell is taken, both fields nothing: v holds it, an allocate is logged. 14 where no cell is free.
fn take(
    fields: &mut Fields,
    variables: &mut [i32],
    log: &mut [u32],
    sizes: Sizes,
    at: &mut State,
    v: usize,
) -> Result<i32, Refusal>
    requires { Takeable sizes.n v (call_in fields.old variables.old log.old) at.old }
    ensures does { Does sizes (λ h. do_new (no_cell_free sizes h) v h) (call_in fields.old variables.old log.old) at.old (call_in fields.new variables.new log.new) at.new result }
    ensures lengths { LengthsStay fields.old fields.new }
    ensures same { SameFields fields.old fields.new }
{
    let a = at.first;
    // Stays: n ends the free list, in document 01.
    if a == sizes.n {
        return Err(Refusal::NoneFree);
    }
    at.first = fields.take_free(a);
    hold(variables, v, Some(a));
    at.len = add_entry(log, at.len, Entry::Allocate(a));
    Ok(0)
}

// What a call does, after the settle before it, which freed so many cells.
pub fn act(
    call: Call,
    fields: &mut Fields,
    variables: &mut [i32],
    tables: &Tables,
    log: &mut [u32],
    sizes: Sizes,
    at: &mut State,
    freed: usize,
) -> Result<i32, Refusal>
    requires { Able sizes call (call_in fields.old variables.old log.old) at.old × (freed ≤ 1024) }
    ensures does { Does sizes (acted sizes call freed) (call_in fields.old variables.old log.old) at.old (call_in fields.new variables.new log.new) at.new result }
    ensures lengths { LengthsStay fields.old fields.new }
    ensures same { SameFields fields.old fields.new }
{
    match call {
        Call::New(v) => take(fields, variables, log, sizes, at, v),
        Call::Do(deed) => {
            let value = answer(deed, View::of(fields, variables, &*tables, log), sizes.n);
            change(deed, fields, variables, tables, log, sizes, at);
            Ok(value)
        }
        Call::Settle => Ok(value_of(freed)),
    }
}
