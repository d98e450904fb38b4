// The rows of the zero count table and of the multireference table.
#![tactic(auto)]

ghost use Rattle.std.specs.Prelude.{◌≡◌, true, false, [], ◌∷◌, ◌++◌, ◌+◌, ◌-◌, ◌≤◌, ◌<◌, length, take, drop, get_or};
ghost use Rattle.rules.specs.Table.{Ascending, has, pad, insert};
ghost use Rattle.rules.specs.Heap.{allocates, creates, destroys};
ghost use Rattle.rules.specs.Rules.{apply};
ghost use Rattle.rules.specs.Whole.{Is};
ghost use Rattle.tables.specs.Row.{put, cut, Found, Padded, Listed, Tabled, RowBy, TablesBy, ZctBy};
ghost use Rattle.tables.specs.Lending.{rows_in, SameTables};

use rules::Used;

// The rows of the two tables that are lent: addresses of ZCT; addresses of MRT, and the counts beside them.
// Stays: MRT's addresses and counts are two rows, their used lengths apart, since document 01 lends them so; `Are` ties them together.
#[derive(Drop)]
pub struct Tables<'a> {
    pub zct: &'a mut [u32],
    pub mrt: &'a mut [u32],
    pub counts: &'a mut [u32],
}

// The place of the entry a among the row's used entries; as an error the place where it would go, if it is none.
// Stays: public, and promises of the row and its used length; the search itself is the library's, in the used part.
#[tactic(auto, using(crate::proofs::Places::found))]
pub fn find(row: &[u32], used: usize, a: u32) -> Result<usize, usize>
    requires used_in_bounds { used ≤ length row.now }
    requires ascending { Ascending (take used row.now) }
    ensures { Found a (take used row.now) result }
{
    row[..used].binary_search(&a)
}

// Moves the tail's elements one place up and puts x first: the last is lost.
fn shift_up(tail: &mut [u32], x: u32)
    ensures { tail.new ≡ take (length tail.old) (x ∷ tail.old) }
{
    if tail.is_empty() {
        return;
    }
    tail.rotate_right(1);
    tail[0] = x;
}

// Moves the tail's elements one place down: the first is lost, and 0 comes last.
fn shift_down(tail: &mut [u32])
    requires { 0 < length tail.old }
    ensures { tail.new ≡ drop 1 tail.old ++ (0 ∷ []) }
{
    let last = tail.len() - 1;
    tail.rotate_left(1);
    tail[last] = 0;
}

// Puts x into the used part at place p. Only what stands there and after it moves. The used length afterwards.
// Stays: document 01 lends a row whole, zeros after its used part; `Padded` says so of the row and its used length.
fn put_at(row: &mut [u32], used: usize, p: usize, x: u32) -> usize
    requires padded { Padded row.old used }
    requires p_le_used { (p ≤ used) × (used < length row.old) }
    ensures value { result ≡ used + 1 }
    ensures row_after { row.new ≡ pad (length row.old) (put p x (take used row.old)) }
{
    let end = used + 1;
    shift_up(&mut row[p..end], x);
    end
}

// Takes what stands at place p out of the used part. The used length afterwards.
// Stays: document 01 lends a row whole, zeros after its used part; `Padded` says so of the row and its used length.
pub fn cut_at(row: &mut [u32], used: usize, p: usize) -> usize
    requires padded { Padded row.old used }
    requires p_lt_used { p < used }
    ensures value { result ≡ used - 1 }
    ensures row_after { row.new ≡ pad (length row.old) (cut p (take used row.old)) }
{
    shift_down(&mut row[p..used]);
    used - 1
}

// Enters a in its place, unless it is an entry already. The used length afterwards.
// Stays: put_at needs the place behind the used part, so the row goes with its used length.
fn enter(row: &mut [u32], used: usize, a: u32) -> usize
    requires listed { Listed row.old used }
    requires a_in_bounds { a < length row.old }
    ensures { RowBy (insert a) row.old used row.new result }
{
    match find(row, used, a) {
        Ok(_) => used,
        Err(p) => put_at(row, used, p, a),
    }
}

// Stays: the used lengths and the cap go beside: they are the head's and the batch's, not the rows'.
impl Tables<'_> {
    // An allocate of a: it enters in ZCT.
    pub fn allocate(&mut self, used: &mut Used, a: u32)
        requires listed { Listed self.old.zct.now used.old.zct }
        requires a_in_bounds { a < length self.old.zct.now }
        ensures zct { Is (length self.old.zct.now) self.new.zct.now used.new.zct (insert a (take used.old.zct self.old.zct.now)) }
        ensures mrt { used.new.mrt ≡ used.old.mrt }
        ensures mrt_rows { (self.new.mrt.now ≡ self.old.mrt.now) × (self.new.counts.now ≡ self.old.counts.now) }
        ensures tables { ZctBy (λ cap. apply cap (allocates a)) self.old.zct.now used.old self.new.zct.now used.new }
        ensures same { SameTables self.old self.new }
    {
        used.zct = enter(&mut *self.zct, used.zct, a);
    }

    // A create of a pointer to a.
    pub fn create(&mut self, used: &mut Used, cap: u32, a: u32)
        requires tabled { Tabled cap (rows_in self.old) used.old }
        requires a_in_bounds { a < length self.old.zct.now }
        ensures tables { TablesBy cap (apply cap (creates a)) (rows_in self.old) used.old (rows_in self.new) used.new }
        ensures same { SameTables self.old self.new }
    {
        let zct = &mut *self.zct;
        match find(zct, used.zct, a) {
            Ok(p) => used.zct = cut_at(zct, used.zct, p),
            Err(_) => self.count_up(used, cap, a),
        }
    }

    // A destroy of a pointer to a.
    pub fn destroy(&mut self, used: &mut Used, cap: u32, a: u32)
        requires tabled { Tabled cap (rows_in self.old) used.old }
        requires a_in_bounds { a < length self.old.zct.now }
        ensures tables { TablesBy cap (apply cap (destroys a)) (rows_in self.old) used.old (rows_in self.new) used.new }
        ensures same { SameTables self.old self.new }
    {
        let mrt = &mut *self.mrt;
        match find(mrt, used.mrt, a) {
            Ok(p) => self.count_down(used, cap, p),
            Err(_) => used.zct = enter(&mut *self.zct, used.zct, a),
        }
    }

    // A create of a pointer to a that is not in ZCT: its count goes one up, or it enters in MRT with 2. At the cap it stays.
    fn count_up(&mut self, used: &mut Used, cap: u32, a: u32)
        requires tabled { Tabled cap (rows_in self.old) used.old }
        requires a_in_bounds { a < length self.old.zct.now }
        requires not_in_zct { has a (take used.old.zct self.old.zct.now) ≡ false }
        ensures tables { TablesBy cap (apply cap (creates a)) (rows_in self.old) used.old (rows_in self.new) used.new }
        ensures same { SameTables self.old self.new }
    {
        let mrt = &mut *self.mrt;
        match find(mrt, used.mrt, a) {
            Ok(p) => {
                let count = &mut self.counts[p];
                if *count < cap {
                    *count += 1;
                }
            }
            Err(p) => {
                put_at(mrt, used.mrt, p, a);
                used.mrt = put_at(&mut *self.counts, used.mrt, p, 2);
            }
        }
    }

    // A destroy of a pointer to the entry at place p of MRT: its count goes one down, or it leaves at 2. At the cap it stays.
    fn count_down(&mut self, used: &mut Used, cap: u32, p: usize)
        requires tabled { Tabled cap (rows_in self.old) used.old }
        requires p_lt_mrt { p < used.old.mrt }
        ensures tables { TablesBy cap (apply cap (destroys (get_or self.old.mrt.now p 0))) (rows_in self.old) used.old (rows_in self.new) used.new }
        ensures same { SameTables self.old self.new }
    {
        // the least count that an entry has
        let least = 2;
        let counts = &mut *self.counts;
        if counts[p] == least {
            cut_at(&mut *self.mrt, used.mrt, p);
            used.mrt = cut_at(counts, used.mrt, p);
        } else if counts[p] < cap {
            counts[p] -= 1;
        }
    }
}
