// Leaves of the audit: what one word, one row or one walk over the rows shows of a sound heap.
#![tactic(auto)]

ghost use Rattle.std.specs.Prelude.{◌≡◌, ℕ, ◌+◌, ◌*◌, ◌<◌, ◌≤◌, length, get_or, replicate, pos, MatchOption};
ghost use Rattle.rules.specs.Head.{Says};
ghost use Rattle.cells.specs.Lending.{shown_in};
ghost use Rattle.rules.specs.Sound.{mark, Live, Mark, WordAt, Words, Variable, Variables, ZeroFrom, TableRow, CountsRow, TablesSound, points_to, At, Agree};
ghost use Rattle.checks.specs.CellRows.{CellRows, WordIn};
ghost use Rattle.checks.specs.Walk.{Walked, AllMet};
ghost use Rattle.checks.specs.Counts.{CountedTo, TablesFit, tallied, AllMarked, EntriesBelow};

use cells::{View, address_or};
use rules::{Head, Kind};

// The work row's mark of a cell that was not met, and of one that was.
const UNMARKED: u32 = 0;

const MARKED: u32 = 1;

// The number of pointers to a cell in neither table.
const SINGLE: u32 = 1;

// The two rows that show the cells' fields.
#[derive(Clone, Copy)]
enum Row {
    Kinds,
    Values,
}

// The kinds of n cells' fields, two for each cell. They may be any bytes.
#[derive(Clone, Copy)]
pub struct Kinds<'a> {
    pub n: usize,
    pub row: &'a [u8],
    pub ghost long: { length row.now ≡ 2 * n },
    pub ghost most: { n ≤ 1024 },
}

impl Kinds<'_> {
    // Is cell a free?
    fn free(self, a: usize) -> bool
        requires { a < self.n }
        ensures { Says result (mark self.entry.row.now a ≡ 3) }
    {
        self.row[2 * a] == Kind::Free as u8
    }

    // Does b name a cell that isn't free?
    fn live(self, b: usize) -> bool
        ensures { Says result (Live self.entry.n self.entry.row.now b) }
    {
        b < self.n && !self.free(b)
    }

    // Is the word in field f of cell a a free cell's mark, as it is to be?
    // Stays: `Mark` of the rules speaks of the address by `address_of`, which gives n + 1 for none.
    fn mark(self, a: usize, f: usize, x: i32) -> bool
        requires { a < self.n }
        ensures { Says result (Mark self.entry.n self.entry.row.now a f x) }
    {
        f == 0 && address_or(x, self.n + 1) <= self.n && self.row[2 * a + 1] == Kind::Nothing as u8
    }

    // Is one pointer there to cell a, if it isn't free?
    fn single(self, a: usize, w: u32) -> bool
        requires { a < self.n }
        ensures { Says result ((mark self.entry.row.now a ≡ 3 → ⊥) → w ≡ 1) }
    {
        self.free(a) || w == SINGLE
    }

    // Is a variable's word -1 or a cell's that isn't free?
    // Stays: `Variable` of the rules speaks of the address by `address_of`, which gives n for none.
    fn variable(self, x: i32) -> bool
        ensures { Says result (Variable self.entry.n self.entry.row.now x) }
    {
        x == -1 || self.live(address_or(x, self.n))
    }

    // Are all the variables' words such?
    pub fn variables(self, variables: &[i32]) -> bool
        ensures { Says result (Variables self.entry.n self.entry.row.now variables.now) }
    {
        variables.iter().all(|x| self.variable(*x))
    }

    // Is every free cell marked?
    pub fn all_met(self, work: &[u32]) -> bool
        requires { length work.now ≡ self.n }
        ensures { Says result (AllMet self.entry.n self.entry.row.now work.now) }
    {
        (0..self.n).all(|a| !self.free(a) || work[a] != UNMARKED)
    }

    // Is entry j of a row a cell that isn't free, and above the entry before it?
    fn listed(self, row: &[u32], j: usize) -> bool
        requires { j < length row.now }
        ensures { Says result (Live self.entry.n self.entry.row.now (get_or row.now j 0) × ((i : ℕ) → i + 1 ≡ j → get_or row.now i 0 < get_or row.now j 0)) }
    {
        self.live(row[j] as usize) && (j == 0 || row[j - 1] < row[j])
    }

    // Is a table's row as it is to be: ascending, of cells that aren't free, zeros after the used part?
    // Stays: document 01 lends a row whole; `TableRow` says what stands in its used part and after it.
    #[tactic(auto, using(crate::proofs::Steps::listed))]
    pub fn table(self, row: &[u32], used: usize) -> bool
        requires { used ≤ length row.now }
        ensures { Says result (TableRow self.entry.n self.entry.row.now row.now used) }
    {
        (0..used).all(|j| self.listed(row, j)) && zero_from(row, used)
    }
}

// The fields of n cells: their kinds, and a value beside each. They may be any words.
// Stays: kinds and values are two rows, as document 01 lends them.
#[derive(Clone, Copy)]
pub struct Cells<'a> {
    pub kinds: Kinds<'a>,
    pub values: &'a [i32],
    pub ghost beside: { CellRows kinds.n kinds.row.now values.now },
}

impl Cells<'_> {
    // Is the word in field f of cell a as it is to be?
    #[tactic(auto, unfolding(rules::specs::Sound::Word))]
    fn word(self, a: usize, f: usize) -> bool
        requires { (a < self.kinds.n) × (f < 2) }
        ensures { Says result (WordAt self.entry.kinds.n self.entry.kinds.row.now self.entry.values.now a f) }
    {
        let i = 2 * a + f;
        let x = self.values[i];
        let kind = self.kinds.row[i];
        // first, since most words say nothing, and an audit comes to each word
        if kind == Kind::Nothing as u8 {
            return x == 0;
        }
        match Kind::try_from(kind) {
            Ok(Kind::Nothing) => x == 0,
            Ok(Kind::Figure) => true,
            Ok(Kind::Cell) => self.kinds.live(address_or(x, self.kinds.n)),
            Ok(Kind::Free) => self.kinds.mark(a, f, x),
            Err(_) => false,
        }
    }

    // Does a row show field f of cell a as it is to be?
    fn word_in(self, row: Row, a: usize, f: usize) -> bool
        requires { (a < self.kinds.n) × (f < 2) }
        ensures { Says result (WordIn self.entry.kinds.n self.entry.kinds.row.now self.entry.values.now row a f) }
    {
        match row {
            Row::Kinds => Kind::try_from(self.kinds.row[2 * a + f]).is_ok(),
            Row::Values => self.word(a, f),
        }
    }

    // Is every word of both rows as it is to be? Left at the first that isn't.
    pub fn words(self) -> bool
        ensures { Says result (Words self.entry.kinds.n self.entry.kinds.row.now self.entry.values.now) }
    {
        // Stays: the walk is left by its label and not by a return, since document 01 names that form.
        let mut sound = true;
        'rows: for row in [Row::Kinds, Row::Values] {
            for a in 0..self.kinds.n {
                for f in 0..2 {
                    if !self.word_in(row, a, f) {
                        sound = false;
                        break 'rows;
                    }
                }
            }
        }
        sound
    }

    // Walks the free list from its first address and marks each cell that it meets: is it a list of free cells that ends with n?
    pub fn walk(self, first: usize, work: &mut [u32]) -> bool
        requires { work.old ≡ replicate self.kinds.n 0 }
        ensures { Walked result self.entry.kinds.n self.entry.kinds.row.now self.entry.values.now first work.new }
    {
        let n = self.kinds.n;
        let mut at = first;
        // Stays: the walk follows the free list and counts no index; `Walked` gives n + 1 where a word names no address.
        while at < n {
            let met = work[at] != UNMARKED;
            if met || !self.kinds.free(at) {
                return false;
            }
            work[at] = MARKED;
            at = address_or(self.values[2 * at], n + 1);
        }
        at == n
    }

    // The cell that the word at place i points to.
    fn points_to(self, i: usize) -> Option<usize>
        requires { i < 2 * self.kinds.n }
        ensures { let t = points_to self.entry.kinds.n (get_or self.entry.kinds.row.now i 0) (get_or self.entry.values.now i (pos 0)) in
            MatchOption result (self.entry.kinds.n ≤ t) (λ b. (b < self.entry.kinds.n) × (b ≡ t)) }
    {
        if self.kinds.row[i] != Kind::Cell as u8 {
            return None;
        }
        let b = address_or(self.values[i], self.kinds.n);
        (b < self.kinds.n).then_some(b)
    }

    // Counts the pointers to each cell into the work row.
    pub fn count(self, work: &mut [u32])
        requires { work.old ≡ replicate self.kinds.n 0 }
        ensures { CountedTo self.entry.kinds.n self.entry.kinds.row.now self.entry.values.now (2 * self.entry.kinds.n) work.new }
    {
        for i in 0..2 * self.kinds.n {
            if let Some(t) = self.points_to(i) {
                work[t] += 1;
            }
        }
    }
}

// Is each of the used entries marked in the work row?
// Stays: public, and `AllMarked` speaks of the row and its used length; tried `all(..)`: search did not prove all-requires-clause-callable.
pub fn all_held(zct: &[u32], used: usize, work: &[u32]) -> bool
    requires used_in_bounds { used ≤ length zct.now }
    requires entries_below { EntriesBelow zct.now used (length work.now) }
    ensures { Says result (AllMarked zct.now used work.now) }
{
    for b in &zct[..used] {
        if work[*b as usize] == UNMARKED {
            return false;
        }
    }
    true
}

// Is a row zero from a place on? Its words are gathered, and tested once.
pub fn zero_from(row: &[u32], from: usize) -> bool
    ensures { Says result (ZeroFrom row.now from) }
{
    let mut seen = 0;
    for j in from..row.len() {
        seen |= row[j];
    }
    seen == 0
}

// Is the row of counts as it is to be: from 2 to the cap, zeros after the used part?
// Stays: document 01 lends the row whole; `CountsRow` says what stands in its used part and after it.
pub fn counts(row: &[u32], used: usize, cap: usize) -> bool
    requires { used ≤ length row.now }
    ensures { Says result (CountsRow row.now used cap) }
{
    row[..used].iter().all(|k| 2 <= *k && *k as usize <= cap) && zero_from(row, used)
}

// Is a the used part's entry j?
// Stays: `At` of the rules, by which compare goes, speaks of the row and its used length.
fn stands(row: &[u32], used: usize, j: usize, a: usize) -> bool
    requires { used ≤ length row.now }
    ensures { Says result (At row.now used j a) }
{
    j < used && row[j] as usize == a
}

// Is the count c exact, if it is below the cap?
fn exact(c: u32, cap: usize, w: u32) -> bool
    ensures { Says result (c < cap → w ≡ c) }
{
    cap <= c as usize || w == c
}

// Do the tables agree with the work row's counts? Both are walked in step with the address.
// Stays: the answers from inside the loop: each is said where it is found, and two cursors go along with the address.
// Stays: each case goes on by itself, since a turn whose cases meet again takes twice the steps.
pub fn compare(head: Head, view: View<'_>, work: &[u32]) -> bool
    requires work_len { length work.now ≡ head.sizes.n }
    requires tables_fit { let r = shown_in view work.now in TablesFit head r.kinds r.tables × TablesSound head r.kinds r.tables }
    ensures { let r = shown_in view.entry work.now in Says result (Agree head r.kinds r.tables (tallied work.now)) }
{
    let kinds = Kinds {
        n: head.sizes.n,
        row: view.kinds,
    };
    let mut z = 0;
    let mut q = 0;
    for a in 0..head.sizes.n {
        let w = work[a];
        if stands(view.zct, head.zct, z, a) {
            if w != 0 || stands(view.mrt, head.mrt, q, a) {
                return false;
            }
            z += 1;
            continue;
        }
        if stands(view.mrt, head.mrt, q, a) {
            if !exact(view.counts[q], head.sizes.cap, w) {
                return false;
            }
            q += 1;
            continue;
        }
        if !kinds.single(a, w) {
            return false;
        }
    }
    true
}
