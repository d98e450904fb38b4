// The reading of a script line by line: what a line says, its number, and where the next starts.
#![tactic(auto)]

ghost use Rattle.std.specs.Prelude.{◌≡◌, ◌<◌, ◌≤◌, length};
ghost use Rattle.rules.specs.Field.{option_of};
ghost use Rattle.reader.specs.Reading.{said_after_lem, Reads, NextRead, reader_at_lem};

use script::{Line, first_line, later_line, line_at, line_next};

// What a line says (nothing where it is bad), its number, and where the next starts.
#[derive(Clone, Copy)]
pub struct Read {
    pub line: Option<Line>,
    pub number: usize,
    pub next: usize,
}

// What a line says after so many: the first says the heap, the others are over its m variables.
// Stays: the number says which line is the first: `said_after_lem`, and so the promise `Reads`, goes by it.
fn said_after(line: &[u8], number: usize, m: usize) -> Option<Line>
    ensures { option_of result ≡ said_after_lem number m line.now }
{
    if number == 0 {
        first_line(line)
    } else {
        later_line(line, m)
    }
}

// The reader over the script's text, which keeps its place and its line number: how many lines it has read.
#[derive(Clone, Copy)]
pub struct Reader<'a> {
    pub text: &'a [u8],
    pub at: usize,
    pub number: usize,
}

impl<'a> Reader<'a> {
    // A reader at a place, after so many lines.
    pub fn at(text: &'a [u8], at: usize, number: usize) -> Reader<'a>
        ensures { result ≡ reader_at_lem text.entry at number }
    {
        Reader { text, at, number }
    }

    // What it reads at its place, over m variables.
    pub fn read(self, m: usize) -> Read
        requires { (self.at ≤ length self.text.now) × (self.number < 1000000) }
        ensures { Reads m self.entry.text.now self.entry.at self.entry.number result }
    {
        let line = line_at(self.text, self.at);
        Read {
            line: said_after(line, self.number, m),
            number: self.number + 1,
            next: line_next(self.text, self.at),
        }
    }

    // The next line, over m variables, behind which it goes on; none where no line is left.
    pub fn next_line(&mut self, m: usize) -> Option<Read>
        requires { self.old.number < 1000000 }
        ensures { NextRead m self.old result self.new }
    {
        if self.text.len() <= self.at {
            return None;
        }
        let read = self.read(m);
        self.at = read.next;
        self.number = read.number;
        Some(read)
    }
}
