// Reclaiming: while some ZCT cell is held by no variable, the one with the smallest address is freed.
#![tactic(auto)]

ghost use Rattle.std.specs.Prelude.{◌≡◌, ◌<◌, length, get_or};
ghost use Rattle.rules.specs.Rules.{replay};
ghost use Rattle.rules.specs.Call.{drops};
ghost use Rattle.rules.specs.Whole.{Inside};
ghost use Rattle.tables.specs.Row.{Tabled, TablesBy};
ghost use Rattle.tables.specs.Lending.{rows_in, SameTables};
ghost use Rattle.cells.specs.Lending.{heap_in, SameFields};
ghost use Rattle.reclaim.specs.Reclaiming.{low_to, released, Heaped, FreesOne, Scan, Unheld, Reclaimable, Reclaims};

use cells::Fields;
use rules::{Field, State, Used};
use tables::{Tables, cut_at, find};

// The smaller of low and the cell that a field names.
fn lower_to(low: u32, f: Field) -> u32
    requires { Inside 1024 f }
    ensures { result ≡ low_to low f }
{
    match f {
        Field::Cell(b) => low.min(b as u32),
        Field::Nothing | Field::Figure(_) | Field::Free(_) => low,
    }
}

// A destroy for the target of a field that is let go, if it is a cell.
fn let_go(tables: &mut Tables, used: &mut Used, cap: u32, f: Field)
    requires tabled { Tabled cap (rows_in tables.old) used.old }
    requires inside { Inside (length tables.old.zct.now) f }
    ensures tables { TablesBy cap (replay cap (drops f)) (rows_in tables.old) used.old (rows_in tables.new) used.new }
    ensures same { SameTables tables.old tables.new }
{
    if let Field::Cell(b) = f {
        tables.destroy(used, cap, b as u32);
    }
}

// Takes the entry at place p out of ZCT, and lets its cell's fields x and y go.
fn release(tables: &mut Tables, used: &mut Used, cap: u32, p: usize, x: Field, y: Field)
    requires tabled { Tabled cap (rows_in tables.old) used.old }
    requires p_lt_zct { p < used.old.zct }
    requires inside { Inside (length tables.old.zct.now) x × Inside (length tables.old.zct.now) y }
    ensures tables { TablesBy cap (released cap (get_or tables.old.zct.now p 0) x y) (rows_in tables.old) used.old (rows_in tables.new) used.new }
    ensures same { SameTables tables.old tables.new }
{
    used.zct = cut_at(&mut *tables.zct, used.zct, p);
    let_go(tables, used, cap, x);
    let_go(tables, used, cap, y);
}

// Frees the cell at place p of ZCT. The smallest of it and the cells that its fields named.
fn free_one(fields: &mut Fields, tables: &mut Tables, at: &mut State, cap: u32, p: usize) -> u32
    requires heaped { Heaped cap (heap_in fields.old tables.old) at.old }
    requires p_lt_zct { p < at.old.used.zct }
    ensures freed { FreesOne cap (get_or tables.old.zct.now p 0) (heap_in fields.old tables.old) at.old (heap_in fields.new tables.new) at.new result }
    ensures same { SameFields fields.old fields.new × SameTables tables.old tables.new }
{
    let w = tables.zct[p];
    let a = w as usize;
    let x = fields.field_at(2 * a);
    let y = fields.field_at(2 * a + 1);
    release(tables, &mut at.used, cap, p, x, y);
    fields.free_cell(a, at.first);
    at.first = a;
    at.freed += 1;
    let low = lower_to(w, x);
    lower_to(low, y)
}

// The place of the first entry of ZCT with no mark, where below low each has one.
// Stays: find, which is public, takes the row and its used length, and `Scan` and `Unheld` speak of both.
fn unheld(zct: &[u32], used: usize, work: &[u32], low: u32) -> Option<usize>
    requires { Scan zct.now used work.now low }
    ensures { Unheld zct.now used work.now result }
{
    let (Ok(from) | Err(from)) = find(zct, used, low);
    for p in from..used {
        if work[zct[p] as usize] != 1 {
            return Some(p);
        }
    }
    None
}

// While some ZCT cell has no mark, frees the one with the smallest address: at most `most` of them.
pub fn reclaim(
    fields: &mut Fields,
    tables: &mut Tables,
    work: &[u32],
    at: &mut State,
    cap: u32,
    most: usize,
)
    requires { Reclaimable cap (heap_in fields.old tables.old) work.now at.old most }
    ensures reclaims { Reclaims cap most work.now (heap_in fields.old tables.old) at.old (heap_in fields.new tables.new) at.new }
    ensures same { SameFields fields.old fields.new × SameTables tables.old tables.new }
{
    // below it ZCT has only cells that are held
    let mut low = 0;
    for _turn in 0..most {
        let zct = &mut *tables.zct;
        let Some(p) = unheld(zct, at.used.zct, work, low) else {
            return;
        };
        low = free_one(fields, tables, at, cap, p);
    }
}
