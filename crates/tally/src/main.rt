// The text program: a script of calls from standard input, run on a heap; its answers and the heap at the end.
#![tactic(auto)]

ghost use Rattle.std.specs.Prelude.{◌≡◌, ◌<◌, ◌≤◌, ◌==◌, length, count_by, IfSome};
ghost use Rattle.rules.specs.Head.{Limits};
ghost use Rattle.tally.specs.Place.{Gathered};

use heap::{Fields, Tables, View};
use print::Integer;
use reader::Reader;
use rules::{Head, Kind, Sizes};
use script::Line;
use std::io;
use std::io::Write;

// A script has at most so many bytes.
const BYTES_MOST: usize = 65536;

// Room for a byte more, which tells a script that is too long.
const ROOM: usize = BYTES_MOST + 1;

// More lines than any script has.
const LINES_MOST: usize = 1000000;

// A batch has at most so many calls.
const CALLS_MOST: usize = 256;

// What ends a script early: it is too long, a line is bad (by its number), or its output fails.
#[derive(Drop)]
enum Stop {
    TooLong,
    Bad(usize),
    Output(io::Error),
}

impl From<io::Error> for Stop {
    fn from(error: io::Error) -> Stop {
        Stop::Output(error)
    }
}

// The rest of a line: bytes and a number.
// Stays: by print, which ends at a write that a signal cuts off, as before; std's write! would go on.
fn end_line<W: Write, N: Integer>(out: &mut W, before: &[u8], n: N) -> io::Result<()> {
    print::number(out, before, n)?;
    print::text(out, b"\n")
}

// The lines of a batch's calls, a status and a value each; the first is number first + 1.
fn print_answers<W: Write>(out: &mut W, answers: &[[i32; 2]], first: usize) -> io::Result<()>
    requires { (length answers.now ≤ 256) × (first ≤ 1000000) }
{
    for (i, [status, value]) in answers.iter().enumerate() {
        print::number(out, b"a ", first + i + 1)?;
        print::number(out, b" ", *status)?;
        print::number(out, b" ", *value)?;
        print::text(out, b"\n")?;
    }
    Ok(())
}

// The v lines: what each variable holds.
fn print_variables<W: Write>(out: &mut W, variables: &[i32]) -> io::Result<()> {
    for (v, x) in variables.iter().enumerate() {
        print::number(out, b"v ", v)?;
        match usize::try_from(*x) {
            Ok(address) => print::number(out, b" ", address)?,
            Err(_) => print::text(out, b" -")?,
        }
        print::text(out, b"\n")?;
    }
    Ok(())
}

// The number of free cells: each has one field of the kind free.
fn free_cells(kinds: &[u8]) -> usize
    ensures { result ≡ count_by (λ k. k == 3) kinds.now }
{
    let free = u8::from(Kind::Free);
    kinds.iter().filter(|kind| **kind == free).count()
}

// The lines at the end: the heap's tables, its variables, its free cells.
fn print_end<W: Write>(out: &mut W, head: Head, rows: View) -> io::Result<()> {
    for address in rows.zct.iter().take(head.zct) {
        end_line(out, b"z ", *address)?;
    }
    for (address, count) in rows.mrt.iter().zip(rows.counts).take(head.mrt) {
        print::number(out, b"m ", *address)?;
        end_line(out, b" ", *count)?;
    }
    print_variables(out, rows.variables)?;
    end_line(out, b"f ", free_cells(rows.kinds))
}

// The heap that line 1 says; nothing where the line is bad, or there is none.
fn first_line(reader: &mut Reader) -> Option<Sizes>
    requires { reader.old.number ≡ 0 }
    ensures { (reader.new.number ≤ 1) × IfSome result Limits }
{
    match reader.next_line(0)?.line? {
        Line::Heap(sizes) => Some(sizes),
        _ => None,
    }
}

// The lines up to the end of a batch: how many calls they say; nothing where no line is left.
fn gather(
    reader: &mut Reader,
    m: usize,
    calls: &mut [[i32; 4]; CALLS_MOST],
) -> Result<Option<usize>, Stop>
    requires { reader.old.number ≤ 1000000 }
    ensures same { reader.new.text ≡ reader.old.text }
    ensures gathered { Gathered reader.old reader.new result }
{
    let before = reader.number;
    let mut count = 0;
    // Stays: the reader goes on by itself, and needs m at each line, so it is no iterator.
    while reader.number < LINES_MOST
        && let Some(read) = reader.next_line(m)
    {
        match read.line {
            Some(Line::Call(op, a, b, c)) if count < CALLS_MOST => {
                calls[count] = [op, a, b, c];
                count += 1;
            }
            Some(Line::Batch) => return Ok(Some(count)),
            _ => return Err(Stop::Bad(read.number)),
        }
    }
    Ok((before < reader.number).then_some(count))
}

// A script after its heap line, on rows of the heap's lengths: its batches, and the lines at the end.
// Stays: the rows side by side, as heap takes them.
fn run<W: Write>(
    out: &mut W,
    mut reader: Reader,
    sizes: Sizes,
    fields: &mut Fields,
    variables: &mut [i32],
    tables: &mut Tables,
    log: &mut [u32],
    work: &mut [u32],
) -> Result<(), Stop>
    requires { reader.number ≤ 1000000 }
{
    let mut head = heap::fresh(sizes, fields, variables, tables, log, work).head;
    let mut calls = [[0; 4]; CALLS_MOST];
    let mut answers = [[0; 2]; CALLS_MOST];
    let mut closed = 0;
    // Stays: each turn gathers a batch from the reader: it counts no index.
    while let Some(count) = gather(&mut reader, sizes.m, &mut calls)? {
        let words = calls[..count].as_flattened();
        let said = answers.as_flattened_mut();
        let done = heap::batch(head, fields, variables, tables, log, work, words, said);
        head = done.head;
        if done.count.is_ok() {
            print_answers(out, &answers[..count], closed)?;
        }
        closed += count;
    }
    print_end(out, head, View::of(fields, variables, tables, log))?;
    Ok(())
}

// A script: line 1 says the heap, and each row is lent at its length.
fn tally<W: Write>(out: &mut W, text: &[u8]) -> Result<(), Stop> {
    if BYTES_MOST < text.len() {
        return Err(Stop::TooLong);
    }
    let mut reader = Reader::at(text, 0, 0);
    let sizes = first_line(&mut reader).ok_or(Stop::Bad(1))?;
    let Sizes { n, m, l, cap: _ } = sizes;
    let mut kinds = [0; 2 * Sizes::CELLS_MOST];
    let mut values = [0; 2 * Sizes::CELLS_MOST];
    let mut variables = [0; Sizes::VARIABLES_MOST];
    let mut zct = [0; Sizes::CELLS_MOST];
    let mut mrt = [0; Sizes::CELLS_MOST];
    let mut counts = [0; Sizes::CELLS_MOST];
    let mut log = [0; 2 * Sizes::ENTRIES_MOST];
    let mut work = [0; Sizes::CELLS_MOST];
    let mut fields = Fields {
        kinds: &mut kinds[..2 * n],
        values: &mut values[..2 * n],
    };
    let mut tables = Tables {
        zct: &mut zct[..n],
        mrt: &mut mrt[..n],
        counts: &mut counts[..n],
    };
    run(
        out,
        reader,
        sizes,
        &mut fields,
        &mut variables[..m],
        &mut tables,
        &mut log[..2 * l],
        &mut work[..n],
    )
}

fn main(rt: HostRuntime) -> io::Result<()> {
    let mut space = [0u8; ROOM];
    let n = print::read_full(&mut rt.stdin(), &mut space)?;
    let mut out = rt.stdout();
    match tally(&mut out, &space[..n]) {
        Ok(()) => Ok(()),
        Err(Stop::TooLong) => end_line(&mut out, b"bad ", 0u8),
        Err(Stop::Bad(line)) => end_line(&mut out, b"bad ", line),
        Err(Stop::Output(error)) => Err(error),
    }
}
