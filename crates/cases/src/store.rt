// The eight rows: their names, what is set in them and printed, and the entry points run on them.
use crate::read::Left;
use crate::row::Row;
use crate::show;
use heap::{Fields, Tables, View};
use rules::{Head, Outcome};
use std::io;
use std::io::Write;

// A row has room for a heap of one cell too many.
const WORDS_MOST: usize = 2050;

// The heap's entry points.
#[derive(Clone, Copy)]
pub(crate) enum Entry {
    Fresh,
    Audit,
    Batch,
}

// The rows' names.
#[derive(Clone, Copy)]
pub(crate) enum Name {
    Kinds,
    Values,
    Variables,
    Zct,
    Mrt,
    Counts,
    Log,
    Work,
}

impl Name {
    const ALL: [Name; 8] = [
        Name::Kinds,
        Name::Values,
        Name::Variables,
        Name::Zct,
        Name::Mrt,
        Name::Counts,
        Name::Log,
        Name::Work,
    ];

    fn text(self) -> &'static [u8] {
        match self {
            Name::Kinds => b"kinds",
            Name::Values => b"values",
            Name::Variables => b"variables",
            Name::Zct => b"zct",
            Name::Mrt => b"mrt",
            Name::Counts => b"counts",
            Name::Log => b"log",
            Name::Work => b"work",
        }
    }

    // The row that a name is.
    pub(crate) fn of(text: &[u8]) -> Option<Name> {
        match text {
            b"kinds" => Some(Name::Kinds),
            b"values" => Some(Name::Values),
            b"variables" => Some(Name::Variables),
            b"zct" => Some(Name::Zct),
            b"mrt" => Some(Name::Mrt),
            b"counts" => Some(Name::Counts),
            b"log" => Some(Name::Log),
            b"work" => Some(Name::Work),
            _ => None,
        }
    }
}

#[derive(Drop)]
pub(crate) struct Store {
    kinds: Row<u8, WORDS_MOST>,
    values: Row<i32, WORDS_MOST>,
    variables: Row<i32, WORDS_MOST>,
    zct: Row<u32, WORDS_MOST>,
    mrt: Row<u32, WORDS_MOST>,
    counts: Row<u32, WORDS_MOST>,
    log: Row<u32, WORDS_MOST>,
    work: Row<u32, WORDS_MOST>,
}

impl Store {
    // Rows of no length.
    pub(crate) fn new() -> Store {
        Store {
            kinds: Row::new(0, 0),
            values: Row::new(0, 0),
            variables: Row::new(0, 0),
            zct: Row::new(0, 0),
            mrt: Row::new(0, 0),
            counts: Row::new(0, 0),
            log: Row::new(0, 0),
            work: Row::new(0, 0),
        }
    }

    // The length of a row becomes this; its words stay.
    pub(crate) fn resize(&mut self, name: Name, length: usize) {
        match name {
            Name::Kinds => self.kinds.resize(length),
            Name::Values => self.values.resize(length),
            Name::Variables => self.variables.resize(length),
            Name::Zct => self.zct.resize(length),
            Name::Mrt => self.mrt.resize(length),
            Name::Counts => self.counts.resize(length),
            Name::Log => self.log.resize(length),
            Name::Work => self.work.resize(length),
        }
    }

    // The word at place i of a row is the number that is left of the line; None where there is no such place.
    pub(crate) fn set(&mut self, name: Name, i: usize, mut left: Left) -> Option<()> {
        match name {
            Name::Kinds => self.kinds.set(i, left.byte()),
            Name::Values => self.values.set(i, left.word()),
            Name::Variables => self.variables.set(i, left.word()),
            Name::Zct => self.zct.set(i, left.unsigned()),
            Name::Mrt => self.mrt.set(i, left.unsigned()),
            Name::Counts => self.counts.set(i, left.unsigned()),
            Name::Log => self.log.set(i, left.unsigned()),
            Name::Work => self.work.set(i, left.unsigned()),
        }
    }

    // A line for each row.
    pub(crate) fn show<W: Write>(&self, out: &mut W) -> io::Result<()> {
        for name in Name::ALL {
            let text = name.text();
            match name {
                Name::Kinds => show::row(out, text, self.kinds.shown())?,
                Name::Values => show::row(out, text, self.values.shown())?,
                Name::Variables => show::row(out, text, self.variables.shown())?,
                Name::Zct => show::row(out, text, self.zct.shown())?,
                Name::Mrt => show::row(out, text, self.mrt.shown())?,
                Name::Counts => show::row(out, text, self.counts.shown())?,
                Name::Log => show::row(out, text, self.log.shown())?,
                Name::Work => show::row(out, text, self.work.shown())?,
            }
        }
        Ok(())
    }

    // An entry point on the rows, each lent at its length.
    pub(crate) fn enter(
        &mut self,
        entry: Entry,
        head: Head,
        calls: &[i32],
        answers: &mut [i32],
    ) -> Outcome {
        let fields = &mut Fields {
            kinds: self.kinds.lent(),
            values: self.values.lent(),
        };
        let variables = self.variables.lent();
        let tables = &mut Tables {
            zct: self.zct.lent(),
            mrt: self.mrt.lent(),
            counts: self.counts.lent(),
        };
        let log = self.log.lent();
        let work = self.work.lent();
        match entry {
            Entry::Fresh => heap::fresh(head.sizes, fields, variables, tables, log, work),
            Entry::Audit => heap::audit(head, View::of(fields, variables, tables, log), work),
            Entry::Batch => heap::batch(head, fields, variables, tables, log, work, calls, answers),
        }
    }
}
