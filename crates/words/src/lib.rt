// The words of a call: which call four words are, and whether a row of words is calls.
#![tactic(auto)]

ghost use Rattle.std.specs.Prelude.{◌≡◌, ◌&&◌, ◌+◌, ◌≤◌, length};
ghost use Rattle.rules.specs.Field.{option_of};
ghost use Rattle.rules.specs.Call.{call_of, is_below};
ghost use Rattle.words.specs.Words.{call_at, Decides};

use cells::address;
use rules::{Call, Deed};

// A field is below this: 0 or 1.
const FIELD: usize = 2;

// Calls have at most so many words: 256 calls, four to each.
const WORDS_MOST: usize = 1024;

// A word not named is below this: 0.
const UNUSED: usize = 1;

// Is the word a variable of m, or a field of 2?
fn is_below(x: i32, m: usize) -> bool
    ensures { result ≡ is_below m x }
{
    usize::try_from(x).is_ok_and(|a| a < m)
}

// Is each of the three words below its bound?
fn below(a: i32, x: usize, b: i32, y: usize, c: i32, z: usize) -> bool
    ensures { result ≡ (is_below x a && is_below y b && is_below z c) }
{
    is_below(a, x) && is_below(b, y) && is_below(c, z)
}

// The call that four words are, over m variables: the operation number picks it and the words it takes (5: any figure).
// Stays: the numbers 1 to 10 are those of the calls row, and one match on them, with ranges, checks the words and picks the call.
#[tactic(auto, using(crate::proofs::Words::word_laws), unfolding(rules::specs::Call::call_of))]
pub fn call_of(op: i32, a: i32, b: i32, c: i32, m: usize) -> Option<Call>
    ensures { option_of result ≡ call_of m op a b c }
{
    // Stays: 0 stands for a negative word, which `below` refuses; `number` of the rules says so.
    let p = address(a);
    let q = address(b);
    let r = address(c);
    match op {
        1 => below(a, m, b, UNUSED, c, UNUSED).then_some(Call::New(p)),
        2 => below(a, m, b, m, c, UNUSED).then_some(Call::Do(Deed::Copy(p, q))),
        3 => below(a, m, b, UNUSED, c, UNUSED).then_some(Call::Do(Deed::Clear(p))),
        4 => below(a, m, b, FIELD, c, m).then_some(Call::Do(Deed::Link(p, q, r))),
        5 => below(a, m, b, FIELD, 0, UNUSED).then_some(Call::Do(Deed::Put(p, q, c))),
        6 => below(a, m, b, FIELD, c, UNUSED).then_some(Call::Do(Deed::Blank(p, q))),
        7 => below(a, m, b, FIELD, c, m).then_some(Call::Do(Deed::Follow(p, q, r))),
        8 => below(a, m, b, FIELD, c, UNUSED).then_some(Call::Do(Deed::Read(p, q))),
        9 => below(a, m, b, m, c, UNUSED).then_some(Call::Do(Deed::Same(p, q))),
        10 => below(a, UNUSED, b, UNUSED, c, UNUSED).then_some(Call::Settle),
        ..=0 | 11.. => None,
    }
}

// The call that the four words from place i on are.
pub fn call_at(calls: &[i32], i: usize, m: usize) -> Option<Call>
    requires { i + 4 ≤ length calls.now }
    ensures { option_of result ≡ call_at m calls.now i }
{
    call_of(calls[i], calls[i + 1], calls[i + 2], calls[i + 3], m)
}

// Are the words calls as they should be: at most 1,024, a multiple of 4, and each four of them a call?
pub fn calls_right(calls: &[i32], m: usize) -> bool
    ensures { Decides result m calls.now }
{
    calls.len() <= WORDS_MOST
        && calls.len() % 4 == 0
        && calls
            .chunks_exact(4)
            .all(|words| call_at(words, 0, m).is_some())
}
