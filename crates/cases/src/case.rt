// A case: a head, the eight rows, calls and answers, which its lines set and hand to the heap's entry points.
use crate::read::Left;
use crate::row::Row;
use crate::show;
use crate::store::{Entry, Name, Store};
use rules::{Head, Sizes};
use std::io;
use std::io::Write;

const CALL_WORDS_MOST: usize = 1100;

const ANSWERS_MOST: usize = 600;

// The answers are None where their length is more than there is room for.
#[derive(Drop)]
pub(crate) struct Case {
    head: Head,
    store: Store,
    calls: Row<i32, CALL_WORDS_MOST>,
    answers: Option<Row<i32, ANSWERS_MOST>>,
}

impl Case {
    pub(crate) fn new() -> Case {
        Case {
            head: Head::fresh(Sizes::plain(0, 0, 0, 0)),
            store: Store::new(),
            calls: Row::new(0, 0),
            answers: Some(Row::new(-7, 0)),
        }
    }

    // One line, with its end. One that says nothing known is printed.
    pub(crate) fn line<W: Write>(&mut self, out: &mut W, line: &[u8]) -> io::Result<()> {
        let Some((first, rest)) = line.split_first() else {
            return Ok(());
        };
        let left = Left { bytes: rest };
        let known = match *first {
            b'#' => return print::text(out, line),
            b'F' => return self.run(out, Entry::Fresh),
            b'A' => return self.run(out, Entry::Audit),
            b'B' => return self.run(out, Entry::Batch),
            b'h' => self.set_head(left),
            b'r' => self.set_lengths(left),
            b's' => self.set_word(left),
            b'c' => self.set_calls(left),
            b'a' => self.set_answers(left),
            b'\n' => Some(()),
            _ => None,
        };
        if known.is_none() {
            print::text(out, b"? ")?;
            print::text(out, line)?;
        }
        Ok(())
    }

    // h n=N m=M l=L cap=C free=F zct=Z mrt=R: a number not given is 0.
    fn set_head(&mut self, mut left: Left) -> Option<()> {
        let mut head = Head::fresh(Sizes::plain(0, 0, 0, 0));
        // Stays: each turn takes its part off the line's front: it counts no index.
        while left.take(b' ') {
            let name = left.name();
            let size = left.setting()?;
            match name {
                b"n" => head.sizes.n = size,
                b"m" => head.sizes.m = size,
                b"l" => head.sizes.l = size,
                b"cap" => head.sizes.cap = size,
                b"free" => head.free = size,
                b"zct" => head.zct = size,
                b"mrt" => head.mrt = size,
                _ => return None,
            }
        }
        self.head = head;
        Some(())
    }

    // r kinds=K values=V ..: the lengths, 0 where none is given, and rows of zeros.
    fn set_lengths(&mut self, mut left: Left) -> Option<()> {
        let mut store = Store::new();
        // Stays: each turn takes its part off the line's front: it counts no index.
        while left.take(b' ') {
            let name = Name::of(left.name())?;
            store.resize(name, left.setting()?);
        }
        self.store = store;
        Some(())
    }

    // s ROW PLACE VALUE
    fn set_word(&mut self, mut left: Left) -> Option<()> {
        let (_, rest) = left.bytes.split_first()?;
        left.bytes = rest;
        let name = Name::of(left.name())?;
        left.take(b' ');
        let place = left.size();
        left.take(b' ');
        self.store.set(name, place, left)
    }

    // c WORDS.. or, after those of the last line, c+ WORDS..: as many as there is room for.
    fn set_calls(&mut self, mut left: Left) -> Option<()> {
        if !left.take(b'+') {
            self.calls = Row::new(0, 0);
        }
        // Stays: each turn takes its part off the line's front: it counts no index.
        while self.calls.has_room() && left.take(b' ') {
            self.calls.push(left.word());
        }
        Some(())
    }

    // a LENGTH: every word is -7.
    fn set_answers(&mut self, mut left: Left) -> Option<()> {
        left.take(b' ');
        let length = left.size();
        self.answers = (length <= ANSWERS_MOST).then(|| Row::new(-7, length));
        Some(())
    }

    // F, A or B, where there are answers: the outcome and the rows, and of a batch the answers.
    fn run<W: Write>(&mut self, out: &mut W, entry: Entry) -> io::Result<()> {
        let Some(answers) = &mut self.answers else {
            return Ok(());
        };
        let calls = self.calls.shown();
        let outcome = self.store.enter(entry, self.head, calls, answers.lent());
        self.head = outcome.head;
        show::outcome(out, outcome)?;
        self.store.show(out)?;
        if let Entry::Batch = entry {
            show::row(out, b"answers", answers.shown())?;
        }
        Ok(())
    }
}
