// Leaves on the rows: a field, a variable, the log, the free list, the marks of what is held, a fresh heap.
#![tactic(auto)]

ghost use Rattle.std.specs.Prelude.{◌≡◌, List, [], ◌∷◌, ◌++◌, map, ℕ, ◌+◌, ◌*◌, ◌<◌, ◌≤◌, length, get_or, set, pos};
ghost use Rattle.rules.specs.declared.Field.{Field};
ghost use Rattle.rules.specs.declared.Field.TheVariants.{Nothing, Free};
ghost use Rattle.rules.specs.Field.{address_of, field_of, kind_of, value_of, variable_of, held_of, option_of};
ghost use Rattle.rules.specs.Head.{fresh_head};
ghost use Rattle.rules.specs.Heap.{Transaction};
ghost use Rattle.rules.specs.Call.{drops};
ghost use Rattle.rules.specs.Step.{after, free_from, fresh};
ghost use Rattle.rules.specs.Rows.{rows_of, lengths_of};
ghost use Rattle.rules.specs.Sound.{Sized};
ghost use Rattle.rules.specs.Whole.{Inside, Cells, Logged};
ghost use Rattle.cells.specs.Lending.{Views, call_in, lent_in, seen_in, SameFields, lengths_in, shown_in};
ghost use Rattle.cells.specs.Leaves.{Near};
ghost use Rattle.cells.specs.Log.{note_of, entry_from, logs_as, with_entry, with_old, Noted};
ghost use Rattle.cells.specs.Free.{CellTaken, FreedTo};
ghost use Rattle.tables.specs.Lending.{SameTables};
ghost use Rattle.cells.specs.Marks.{Marks};

use rules::{Field, Kind, Sizes};
use tables::Tables;

// The rows of the cells' fields that are lent: a kind and a value for each, cell a's at places 2a and 2a+1.
// Stays: two rows beside each other, since document 01 lends them so; `Cells` ties them together.
#[derive(Drop)]
pub struct Fields<'a> {
    pub kinds: &'a mut [u8],
    pub values: &'a mut [i32],
}

// The rows of a heap that are lent to be read.
// Stays: rows one by one, as document 01 lends them.
#[derive(Clone, Copy)]
pub struct View<'a> {
    pub kinds: &'a [u8],
    pub values: &'a [i32],
    pub variables: &'a [i32],
    pub zct: &'a [u32],
    pub mrt: &'a [u32],
    pub counts: &'a [u32],
    pub log: &'a [u32],
}

// How long the rows are, in elements, the work row with them.
#[derive(Clone, Copy)]
pub struct RowLengths {
    pub kinds: usize,
    pub values: usize,
    pub variables: usize,
    pub zct: usize,
    pub mrt: usize,
    pub counts: usize,
    pub log: usize,
    pub work: usize,
}

impl View<'_> {
    // How long they are, and the work row beside them.
    pub fn lengths(self, work: &[u32]) -> RowLengths
        ensures { lengths_in result ≡ lengths_of (shown_in self.entry work.now) }
    {
        RowLengths {
            kinds: self.kinds.len(),
            values: self.values.len(),
            variables: self.variables.len(),
            zct: self.zct.len(),
            mrt: self.mrt.len(),
            counts: self.counts.len(),
            log: self.log.len(),
            work: work.len(),
        }
    }
}

impl<'a> View<'a> {
    // The rows that are lent to be written, to be read.
    // Stays: the rows side by side; the reason stands at `settle` of settle.
    pub fn of(
        fields: &'a Fields,
        variables: &'a [i32],
        tables: &'a Tables,
        log: &'a [u32],
    ) -> View<'a>
        ensures shown { Views fields.now variables.now tables.now log.now result }
        ensures seen { seen_in result ≡ call_in fields.now variables.now log.now }
    {
        View {
            kinds: &*fields.kinds,
            values: &*fields.values,
            variables,
            zct: &*tables.zct,
            mrt: &*tables.mrt,
            counts: &*tables.counts,
            log,
        }
    }
}

// The address that a signed value is; a negative one is none, for which other is given.
// Stays: a public promise; `address_of` of the rules gives the other number for none.
// Stays: by a range, since `usize::try_from` takes each word of an audit apart into a sign and a size first.
pub fn address_or(x: i32, other: usize) -> usize
    ensures { result ≡ address_of other x }
{
    match x {
        0.. => x as usize,
        _ => other,
    }
}

// The address that a field's value is.
// Stays: the same, with 0 for none.
pub fn address(x: i32) -> usize
    ensures { result ≡ address_of 0 x }
{
    address_or(x, 0)
}

// An address as a signed value.
pub fn value_of(a: usize) -> i32
    requires { a < 2048 }
    ensures { result ≡ pos a }
{
    a as i32
}

// A field's signed value.
fn field_value(f: Field) -> i32
    requires { Inside 1024 f }
    ensures { result ≡ value_of f }
{
    match f {
        Field::Nothing => 0,
        Field::Figure(x) => x,
        Field::Cell(a) | Field::Free(a) => value_of(a),
    }
}

// The free address after a free cell, from its field 0.
// Stays: 0 for none, as `after` of the rules has it.
fn after_field(f: Field) -> usize
    ensures { result ≡ after f }
{
    if let Field::Free(next) = f { next } else { 0 }
}

// The field at place i of the rows. A byte that is no kind says nothing.
// Stays: a public promise of two rows, which may be lent to be read alone.
pub fn field_at(kinds: &[u8], values: &[i32], i: usize) -> Field
    requires { (i < length kinds.now) × (i < length values.now) }
    ensures { result ≡ field_of (get_or kinds.now i 0) (get_or values.now i (pos 0)) }
{
    let value = values[i];
    match Kind::try_from(kinds[i]) {
        Ok(Kind::Figure) => Field::Figure(value),
        Ok(Kind::Cell) => Field::Cell(address(value)),
        Ok(Kind::Free) => Field::Free(address(value)),
        Ok(Kind::Nothing) | Err(_) => Field::Nothing,
    }
}

impl Fields<'_> {
    // The field at place i.
    pub fn field_at(&self, i: usize) -> Field
        requires { (i < length self.now.kinds.now) × (i < length self.now.values.now) }
        ensures { result ≡ field_of (get_or self.now.kinds.now i 0) (get_or self.now.values.now i (pos 0)) }
    {
        field_at(self.kinds, self.values, i)
    }

    // The field at place i becomes f.
    pub fn put_field(&mut self, i: usize, f: Field)
        requires i_in_bounds { (i < length self.old.kinds.now) × (i < length self.old.values.now) }
        requires inside { Inside 1024 f }
        ensures kinds { self.new.kinds.now ≡ set self.old.kinds.now i (kind_of f) }
        ensures values { self.new.values.now ≡ set self.old.values.now i (value_of f) }
        ensures same { SameFields self.old self.new }
    {
        self.kinds[i] = u8::from(f.kind());
        self.values[i] = field_value(f);
    }

    // Cell a is free: next stands in field 0, and nothing in field 1.
    pub fn free_cell(&mut self, a: usize, next: usize)
        requires a_in_bounds { (2 * a + 1 < length self.old.kinds.now) × (2 * a + 1 < length self.old.values.now) }
        requires next_bound { next ≤ 1024 }
        ensures kinds { self.new.kinds.now ≡ set (set self.old.kinds.now (2 * a) (kind_of (Free next))) (2 * a + 1) (kind_of Nothing) }
        ensures values { self.new.values.now ≡ set (set self.old.values.now (2 * a) (value_of (Free next))) (2 * a + 1) (value_of Nothing) }
        ensures cells { FreedTo a next self.old.kinds.now self.old.values.now self.new.kinds.now self.new.values.now }
        ensures same { SameFields self.old self.new }
    {
        self.put_field(2 * a, Field::Free(next));
        self.put_field(2 * a + 1, Field::Nothing);
    }

    // The first free cell a is taken: its field 0 becomes nothing. The next free address.
    pub fn take_free(&mut self, a: usize) -> usize
        requires { (2 * a < length self.old.kinds.now) × (2 * a < length self.old.values.now) }
        ensures kinds { self.new.kinds.now ≡ set self.old.kinds.now (2 * a) (kind_of Nothing) }
        ensures values { self.new.values.now ≡ set self.old.values.now (2 * a) (value_of Nothing) }
        ensures next { result ≡ after (field_of (get_or self.old.kinds.now (2 * a) 0) (get_or self.old.values.now (2 * a) (pos 0))) }
        ensures cells { (n : ℕ) (fs : List Field) → Cells n self.old.kinds.now self.old.values.now fs → CellTaken n self.new.kinds.now self.new.values.now a result fs }
        ensures same { SameFields self.old self.new }
    {
        let old = self.field_at(2 * a);
        self.put_field(2 * a, Field::Nothing);
        after_field(old)
    }

    // All cells free in the order 0, 1, .. n-1.
    #[tactic(auto, unfolding(rules::specs::Step::free_from))]
    fn free_all(&mut self, n: usize)
        requires { (length self.old.kinds.now ≡ 2 * n) × ((length self.old.values.now ≡ 2 * n) × (n ≤ 1024)) }
        ensures kinds { self.new.kinds.now ≡ map kind_of (free_from 0 n) }
        ensures values { self.new.values.now ≡ map value_of (free_from 0 n) }
        ensures same { SameFields self.old self.new }
    {
        // lent anew once: through self each store would look its row up again
        let mut fields = Fields {
            kinds: &mut *self.kinds,
            values: &mut *self.values,
        };
        for a in 0..n {
            fields.free_cell(a, a + 1);
        }
    }
}

// The address that variable v holds.
pub fn held(variables: &[i32], v: usize) -> Option<usize>
    requires { v < length variables.now }
    ensures { option_of result ≡ held_of (get_or variables.now v (pos 0)) }
{
    usize::try_from(variables[v]).ok()
}

// Variable v holds a.
pub fn hold(variables: &mut [i32], v: usize, a: Option<usize>)
    requires { (v < length variables.old) × Near (option_of a) }
    ensures { variables.new ≡ set variables.old v (variable_of (option_of a)) }
{
    variables[v] = a.map_or(-1, value_of);
}

// What an entry of the log says: its kind, 1 allocate, 2 create, 3 destroy, and the cell's address.
// Stays: the two words as they stand in the log's row, of any kind; `Noted` promises them raw.
#[derive(Clone, Copy)]
pub struct Note {
    pub kind: u32,
    pub address: usize,
}

// An entry of the log, with the cell's address.
#[derive(Clone, Copy)]
pub enum Entry {
    Allocate(usize),
    Create(usize),
    Destroy(usize),
}

impl From<Entry> for Note {
    ghost from_gives = { λ e r. r ≡ note_of e };

    fn from(entry: Entry) -> Note {
        match entry {
            Entry::Allocate(address) => Note { kind: 1, address },
            Entry::Create(address) => Note { kind: 2, address },
            Entry::Destroy(address) => Note { kind: 3, address },
        }
    }
}

// A note of another kind is no entry.
impl TryFrom<Note> for Entry {
    type Error = Note;

    ghost try_from_gives = { λ n r. entry_from n r };

    // Stays: the numbers 1, 2 and 3 are document 01's words of the log; here they become kinds.
    fn try_from(note: Note) -> Result<Entry, Note> {
        match note.kind {
            1 => Ok(Entry::Allocate(note.address)),
            2 => Ok(Entry::Create(note.address)),
            3 => Ok(Entry::Destroy(note.address)),
            _ => Err(note),
        }
    }
}

// An entry at the log's end. The log's length afterwards.
// Stays: document 01 lends the log's row whole, zeros after its entries; `Logged` speaks of the row and its length.
pub fn add_entry(log: &mut [u32], len: usize, entry: Entry) -> usize
    requires { (2 * len + 1 < length log.old) × ((note_of entry).address < 2048) }
    ensures count { result ≡ len + 1 }
    ensures row { log.new ≡ with_entry log.old len (note_of entry) }
    ensures logged { (n : ℕ) (xs : List Transaction) → Logged n log.old len xs → (note_of entry).address < n → Logged n log.new result (xs ++ (logs_as entry ∷ [])) }
{
    let note = Note::from(entry);
    log[2 * len] = note.kind;
    log[2 * len + 1] = note.address as u32;
    len + 1
}

// A destroy in the log for a field's old target, if it is a cell. The log's length afterwards.
// Stays: the log's row with its length, as for add_entry.
pub fn log_old(log: &mut [u32], len: usize, old: Field) -> usize
    requires in_bounds { 2 * (len + length (drops old)) ≤ length log.old }
    requires inside { Inside 1024 old }
    ensures count { result ≡ len + length (drops old) }
    ensures row { log.new ≡ with_old log.old len old }
    ensures logged { (n : ℕ) (xs : List Transaction) → Logged n log.old len xs → Inside n old → Logged n log.new result (xs ++ drops old) }
{
    match old {
        Field::Cell(b) => add_entry(log, len, Entry::Destroy(b)),
        Field::Nothing | Field::Figure(_) | Field::Free(_) => len,
    }
}

// Entry i of the log: its kind, and its address beside it.
pub fn entry_at(log: &[u32], i: usize) -> Note
    requires { 2 * i + 1 < length log.now }
    ensures { Noted log.now i result }
{
    Note {
        kind: log[2 * i],
        address: log[2 * i + 1] as usize,
    }
}

// The mark of a, where the row has a place for it.
fn mark(row: &mut [u32], a: usize)
    ensures { row.new ≡ set row.old a 1 }
{
    if a < row.len() {
        row[a] = 1;
    }
}

// The work row: 1 at each address that a variable holds, else 0.
// Stays: two rows that go together nowhere else as these two alone.
pub fn mark_held(variables: &[i32], work: &mut [u32])
    ensures { Marks (length work.old) work.new (map held_of variables.now) }
{
    work.fill(0);
    for v in 0..variables.len() {
        if let Some(a) = held(variables, v) {
            mark(work, a);
        }
    }
}

// A fresh heap of these sizes, written into the rows.
// Stays: the rows side by side; the reason stands at `settle` of settle.
pub fn fresh_rows(
    fields: &mut Fields,
    variables: &mut [i32],
    tables: &mut Tables,
    log: &mut [u32],
    work: &mut [u32],
    sizes: Sizes,
)
    requires { Sized (fresh_head sizes) (lent_in fields.old variables.old tables.old log.old work.old) }
    ensures rows { lent_in fields.new variables.new tables.new log.new work.new ≡ rows_of sizes (fresh sizes) }
    ensures same { SameFields fields.old fields.new × SameTables tables.old tables.new }
{
    fields.free_all(sizes.n);
    variables.fill(-1);
    tables.zct.fill(0);
    tables.mrt.fill(0);
    tables.counts.fill(0);
    log.fill(0);
    work.fill(0);
}
