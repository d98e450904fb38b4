// Before a call, on rows: what refuses it, and how many entries it will log.
#![tactic(auto)]

ghost use Rattle.std.specs.Prelude.{◌≡◌, ◌&&◌, List, ◌++◌, ℕ, ◌*◌, ◌<◌, ◌≤◌, length, get_or, pos};
ghost use Rattle.std.proofs.Math.Option.{Option, none, some};
ghost use Rattle.rules.specs.declared.Deed.TheVariants.{Follow, Read};
ghost use Rattle.rules.specs.declared.Call.TheVariants.{Do};
ghost use Rattle.rules.specs.Field.{held_of};
ghost use Rattle.rules.specs.Heap.{Shape};
ghost use Rattle.rules.specs.Call.{drops, var, at, is_held, is_cell, no_figure, want, refuses, check, makes, logs, status_of};
ghost use Rattle.rules.specs.Step.{needs};
ghost use Rattle.cells.specs.Lending.{seen_in};
ghost use Rattle.before.specs.Seen.{Held, Shown, field_below, Reach, Reaches};

use cells::{View, field_at, held};
use rules::{Call, Deed, Field, Refusal};

// Field f of cell a, nothing where a is n or more.
#[tactic(auto, unfolding(crate::specs::Seen::field_below))]
fn field_below(view: View<'_>, n: usize, a: usize, f: usize) -> Field
    requires { (length view.kinds.now ≡ 2 * n) × (length view.values.now ≡ 2 * n) × (f < 2) }
    ensures { result ≡ field_below n view.entry.kinds.now view.entry.values.now (some a) f }
{
    if a < n {
        field_at(view.kinds, view.values, 2 * a + f)
    } else {
        Field::Nothing
    }
}

// Field f of v's cell, nothing where v holds nothing.
pub fn field_of(view: View<'_>, n: usize, v: usize, f: usize) -> Field
    requires { Reach n (seen_in view) v f }
    ensures field { result ≡ field_below n view.entry.kinds.now view.entry.values.now (held_of (get_or view.entry.variables.now v (pos 0))) f }
    ensures seen { (s : Shape) → Shown n (seen_in view.entry) s → result ≡ at s v f }
{
    match held(view.variables, v) {
        Some(a) => field_below(view, n, a, f),
        None => Field::Nothing,
    }
}

// ---- what refuses a call

// Variable v has to hold a cell.
fn check_held(view: View<'_>, v: usize) -> Result<(), Refusal>
    requires { v < length view.variables.now }
    ensures { (n : ℕ) (hs : List (Option ℕ)) → Held n view.entry.variables.now hs → status_of result ≡ want (is_held (get_or hs v none)) 11 }
{
    held(view.variables, v)
        .map(|_| ())
        .ok_or(Refusal::NothingHeld)
}

// Both v and w have to.
fn check_both(view: View<'_>, v: usize, w: usize) -> Result<(), Refusal>
    requires { (v < length view.variables.now) × (w < length view.variables.now) }
    ensures { (n : ℕ) (hs : List (Option ℕ)) → Held n view.entry.variables.now hs → status_of result ≡ want (is_held (get_or hs v none) && is_held (get_or hs w none)) 11 }
{
    match held(view.variables, v) {
        Some(_) => check_held(view, w),
        None => Err(Refusal::NothingHeld),
    }
}

// A follow wants a cell.
fn check_cell(f: Field) -> Result<(), Refusal>
    ensures { status_of result ≡ want (is_cell f) 12 }
{
    if matches!(f, Field::Cell(_)) {
        Ok(())
    } else {
        Err(Refusal::NoCell)
    }
}

// A read wants a figure.
fn check_figure(f: Field) -> Result<(), Refusal>
    ensures { status_of result ≡ no_figure f }
{
    match f {
        Field::Figure(_) => Ok(()),
        Field::Nothing => Err(Refusal::NothingThere),
        Field::Cell(_) | Field::Free(_) => Err(Refusal::CellThere),
    }
}

// Variable v has to hold a cell, and a follow wants a cell in its field f.
fn check_follow(view: View<'_>, n: usize, v: usize, f: usize) -> Result<(), Refusal>
    requires { Reach n (seen_in view) v f }
    ensures { (w : ℕ) (s : Shape) → Shown n (seen_in view.entry) s → status_of result ≡ refuses (Follow v f w) s }
{
    check_held(view, v)?;
    check_cell(field_of(view, n, v, f))
}

// And a read a figure.
// Stays: `refuses` says of Follow and of Read apart; one function that answers the field or NothingHeld would need a clause for both, and each arm its own from that.
fn check_read(view: View<'_>, n: usize, v: usize, f: usize) -> Result<(), Refusal>
    requires { Reach n (seen_in view) v f }
    ensures { (s : Shape) → Shown n (seen_in view.entry) s → status_of result ≡ refuses (Read v f) s }
{
    check_held(view, v)?;
    check_figure(field_of(view, n, v, f))
}

// What says no to a deed.
#[tactic(auto, unfolding(rules::specs::Call::refuses, rules::specs::Call::var))]
fn check_deed(deed: Deed, view: View<'_>, n: usize) -> Result<(), Refusal>
    requires { Reaches n (seen_in view) (Do deed) }
    ensures { (s : Shape) → Shown n (seen_in view.entry) s → status_of result ≡ refuses deed s }
{
    match deed {
        Deed::Copy(_, _) | Deed::Clear(_) => Ok(()),
        Deed::Link(v, _, w) | Deed::Same(v, w) => check_both(view, v, w),
        Deed::Put(v, _, _) | Deed::Blank(v, _) => check_held(view, v),
        Deed::Follow(v, f, _) => check_follow(view, n, v, f),
        Deed::Read(v, f) => check_read(view, n, v, f),
    }
}

// What says no to a call: new and settle need no variable's cell.
pub fn check(call: Call, view: View<'_>, n: usize) -> Result<(), Refusal>
    requires { Reaches n (seen_in view) call }
    ensures { (s : Shape) → Shown n (seen_in view.entry) s → status_of result ≡ check call s }
{
    match call {
        Call::Do(deed) => check_deed(deed, view, n),
        Call::New(_) | Call::Settle => Ok(()),
    }
}

// ---- what it logs

// How many entries a field's old target takes.
fn drop_count(f: Field) -> usize
    ensures { (result ≡ length (drops f)) × (result ≤ 1) }
{
    usize::from(matches!(f, Field::Cell(_)))
}

// How many entries a new target takes.
fn make_count(view: View<'_>, w: usize) -> usize
    requires { w < length view.variables.now }
    ensures small { result ≤ 1 }
    ensures count { (n : ℕ) (hs : List (Option ℕ)) → Held n view.entry.variables.now hs → result ≡ length (makes (get_or hs w none)) }
{
    usize::from(held(view.variables, w).is_some())
}

// How many entries a deed logs.
#[tactic(auto, unfolding(rules::specs::Call::logs, rules::specs::Call::var))]
fn entries(deed: Deed, view: View<'_>, n: usize) -> usize
    requires { Reaches n (seen_in view) (Do deed) }
    ensures { (s : Shape) → Shown n (seen_in view.entry) s → result ≡ length (logs deed s) }
{
    match deed {
        Deed::Link(v, f, w) => drop_count(field_of(view, n, v, f)) + make_count(view, w),
        Deed::Put(v, f, _) | Deed::Blank(v, f) => drop_count(field_of(view, n, v, f)),
        Deed::Copy(_, _)
        | Deed::Clear(_)
        | Deed::Follow(_, _, _)
        | Deed::Read(_, _)
        | Deed::Same(_, _) => 0,
    }
}

// How many entries a call needs.
pub fn need(call: Call, view: View<'_>, n: usize) -> usize
    requires { Reaches n (seen_in view) call }
    ensures { (s : Shape) → Shown n (seen_in view.entry) s → result ≡ needs call s }
{
    match call {
        Call::New(_) => 1,
        Call::Do(deed) => entries(deed, view, n),
        Call::Settle => 0,
    }
}
