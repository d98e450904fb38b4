// The reading of a tally script: its lines, the fields of a line, numbers, and what a line says.
#![tactic(auto)]

ghost use Rattle.std.specs.Prelude.{◌≡◌, [], ◌+◌, ◌≤◌, length, get_or};
ghost use Rattle.rules.specs.Field.{option_of};
ghost use Rattle.script.specs.Text.{fields_of, line_at, line_end, next_line};
ghost use Rattle.script.specs.Number.{digits_from, number_of, plain_of, figure_of};
ghost use Rattle.script.specs.Line.{operation_of, arity, word_of, call_line, line_of, heap_line, head_line_of, capped, number_named, number_of_operation};

use rules::Sizes;
use words::call_of;

// A line holds at most so many bytes besides its LF.
const LONGEST: usize = 80;

// The least figure with its minus off: no line has a use for a number above it.
const MOST: usize = 2147483648;

// The byte 0, which only the number 0 begins with.
const NOUGHT: u8 = b'0';

// What a line says.
#[derive(Clone, Copy)]
pub enum Line {
    Heap(Sizes),
    Call(i32, i32, i32, i32),
    Batch,
}

// Where the line that starts at a place ends.
fn line_end(text: &[u8], at: usize) -> usize
    requires { at ≤ length text.now }
    ensures { result ≡ line_end text.now at }
{
    let rest = &text[at..];
    at + rest.iter().position(|b| *b == b'\n').unwrap_or(rest.len())
}

// The line that starts at a place, as a part of the text.
pub fn line_at(text: &[u8], at: usize) -> &[u8]
    requires { at ≤ length text.now }
    ensures { result.now ≡ line_at text.now at }
{
    &text[at..line_end(text, at)]
}

// Where the next line starts; past the end where there is none.
pub fn line_next(text: &[u8], at: usize) -> usize
    requires { at ≤ length text.now }
    ensures { result ≡ next_line text.now at }
{
    line_end(text, at) + 1
}

// Field k of a line; empty where there is none.
fn field(s: &[u8], k: usize) -> &[u8]
    ensures { result.now ≡ get_or (fields_of s.now) k [] }
{
    s.split(|b| *b == b'\t').nth(k).unwrap_or(&[])
}

// How many fields a line has.
fn fields(s: &[u8]) -> usize
    ensures { result ≡ length (fields_of s.now) }
{
    s.split(|b| *b == b'\t').count()
}

// The number that digits are, as far as it counts.
// Stays: std's parse would take a plus sign; `digits_from` of the promise takes digits alone.
#[tactic(auto, using(crate::proofs::NumberLaws::digit_laws), unfolding(crate::specs::Number::digits_from))]
fn digits(s: &[u8]) -> Option<usize>
    ensures { option_of result ≡ capped (digits_from 0 s.now) }
{
    let mut n = 0;
    for b in s {
        if !b.is_ascii_digit() {
            return None;
        }
        n = n * 10 + usize::from(*b - b'0');
        if MOST < n {
            return None;
        }
    }
    Some(n)
}

// A number in decimal, as far as it counts.
#[tactic(auto, unfolding(crate::specs::Number::number_of))]
fn number(s: &[u8]) -> Option<usize>
    ensures { option_of result ≡ capped (number_of s.now) }
{
    match s {
        [] | [NOUGHT, _, ..] => None,
        _ => digits(s),
    }
}

// A variable or a field, as a word of a call.
fn plain(s: &[u8]) -> Option<i32>
    ensures { option_of result ≡ plain_of s.now }
{
    i32::try_from(number(s)?).ok()
}

// A figure, as a word of a call.
#[tactic(auto, using(crate::proofs::NumberLaws::figure_laws), unfolding(crate::specs::Number::figure_of))]
fn figure(s: &[u8]) -> Option<i32>
    ensures { option_of result ≡ figure_of s.now }
{
    let [b'-', rest @ ..] = s else {
        return plain(s);
    };
    match number(rest)? {
        0 => None,
        n => i32::try_from(-(n as i64)).ok(),
    }
}

// The words that a line may begin with, by the numbers of their operations; batch comes after them.
#[derive(Clone, Copy)]
enum Operation {
    New = 1,
    Copy = 2,
    Clear = 3,
    Link = 4,
    Put = 5,
    Blank = 6,
    Follow = 7,
    Read = 8,
    Same = 9,
    Settle = 10,
    Batch = 11,
}

impl Operation {
    // The operation of a word.
    #[tactic(auto, using(crate::proofs::Names::name_laws))]
    fn named(word: &[u8]) -> Option<Operation>
        ensures { number_named result ≡ operation_of word.now }
    {
        match word {
            b"new" => Some(Operation::New),
            b"copy" => Some(Operation::Copy),
            b"clear" => Some(Operation::Clear),
            b"link" => Some(Operation::Link),
            b"put" => Some(Operation::Put),
            b"blank" => Some(Operation::Blank),
            b"follow" => Some(Operation::Follow),
            b"read" => Some(Operation::Read),
            b"same" => Some(Operation::Same),
            b"settle" => Some(Operation::Settle),
            b"batch" => Some(Operation::Batch),
            _ => None,
        }
    }

    // How many words it takes.
    #[tactic(auto, unfolding(crate::specs::Line::arity))]
    fn words(self) -> usize
        ensures { result ≡ arity (number_of_operation self) }
    {
        match self {
            Operation::Settle | Operation::Batch => 0,
            Operation::New | Operation::Clear => 1,
            Operation::Copy | Operation::Blank | Operation::Read | Operation::Same => 2,
            Operation::Link | Operation::Put | Operation::Follow => 3,
        }
    }
}

// Word i of an operation, from its line.
#[tactic(auto, unfolding(crate::specs::Line::word_of))]
fn word_at(line: &[u8], operation: Operation, i: usize) -> Option<i32>
    ensures { option_of result ≡ word_of (number_of_operation operation) i (fields_of line.now) }
{
    if operation.words() < i {
        return Some(0);
    }
    let word = field(line, i);
    match operation {
        Operation::Put if i == 3 => figure(word),
        _ => plain(word),
    }
}

// The call that a line of an operation says.
#[tactic(auto, unfolding(crate::specs::Line::call_with))]
fn call_line(line: &[u8], m: usize, operation: Operation) -> Option<Line>
    ensures { option_of result ≡ call_line m (number_of_operation operation) (fields_of line.now) }
{
    let op = operation as i32;
    let a = word_at(line, operation, 1)?;
    let b = word_at(line, operation, 2)?;
    let c = word_at(line, operation, 3)?;
    call_of(op, a, b, c, m)?;
    Some(Line::Call(op, a, b, c))
}

// What a line after the first says, over m variables; none where it breaks the rules.
#[tactic(auto, using(crate::proofs::LineLaws::no_operation), unfolding(crate::specs::Line::line_of, crate::specs::Line::operation_line))]
pub fn later_line(line: &[u8], m: usize) -> Option<Line>
    ensures { option_of result ≡ line_of m line.now }
{
    if LONGEST < line.len() {
        return None;
    }
    let operation = Operation::named(field(line, 0))?;
    if fields(line) - 1 != operation.words() {
        return None;
    }
    match operation {
        Operation::Batch => Some(Line::Batch),
        _ => call_line(line, m, operation),
    }
}

// The heap that line 1 says, after its word.
#[tactic(auto, using(crate::proofs::LineLaws::heap_laws))]
fn heap_line(line: &[u8]) -> Option<Line>
    ensures { option_of result ≡ heap_line (fields_of line.now) }
{
    let n = number(field(line, 1))?;
    let m = number(field(line, 2))?;
    let l = number(field(line, 3))?;
    let cap = number(field(line, 4))?;
    let sizes = Sizes::plain(n, m, l, cap);
    sizes.within().then_some(Line::Heap(sizes))
}

// What line 1 says; none where it breaks the rules.
#[tactic(auto, using(crate::proofs::TextLaws::same_pointwise), unfolding(crate::specs::Line::head_line_of))]
pub fn first_line(line: &[u8]) -> Option<Line>
    ensures { option_of result ≡ head_line_of line.now }
{
    if LONGEST < line.len() || fields(line) != 5 || field(line, 0) != b"heap".as_slice() {
        return None;
    }
    heap_line(line)
}
