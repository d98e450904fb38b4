// A settle: the log's replay, and the reclaiming after it.
#![tactic(auto)]

ghost use Rattle.std.specs.Prelude.{◌<◌, ◌≡◌, length};
ghost use Rattle.rules.specs.Call.{Fits};
ghost use Rattle.rules.specs.Rules.{apply};
ghost use Rattle.tables.specs.Row.{Tabled, TablesBy};
ghost use Rattle.tables.specs.Lending.{rows_in, SameTables};
ghost use Rattle.cells.specs.Lending.{lent_in, SameFields};
ghost use Rattle.cells.specs.Log.{note_of, logs_as};
ghost use Rattle.settle.specs.Replaying.{Replayable, Replays};
ghost use Rattle.settle.specs.Settling.{Settleable, Settles, Roomable, MakesRoom};

use cells::{Entry, Fields, entry_at, held, hold, mark_held};
use reclaim::reclaim;
use rules::{Call, Sizes, State, Used};
use tables::Tables;

// One entry of the log on the tables.
fn replay_one(tables: &mut Tables, used: &mut Used, cap: u32, entry: Entry)
    requires tabled { Tabled cap (rows_in tables.old) used.old }
    requires a_in_bounds { (note_of entry).address < length tables.old.zct.now }
    ensures tables { TablesBy cap (apply cap (logs_as entry)) (rows_in tables.old) used.old (rows_in tables.new) used.new }
    ensures same { SameTables tables.old tables.new }
{
    match entry {
        Entry::Allocate(a) => tables.allocate(used, a as u32),
        Entry::Create(a) => tables.create(used, cap, a as u32),
        Entry::Destroy(a) => tables.destroy(used, cap, a as u32),
    }
}

// The log's entries, len of them, in their order on the tables.
// Stays: document 01 lends the log's row whole, and entry_at, which is public, reads at a place; `Logged` speaks of the row and its length.
fn replay(log: &[u32], len: usize, tables: &mut Tables, used: &mut Used, cap: u32)
    requires { Replayable cap log.now len (rows_in tables.old) used.old }
    ensures tables { Replays cap log.now len (rows_in tables.old) used.old (rows_in tables.new) used.new }
    ensures same { SameTables tables.old tables.new }
{
    for i in 0..len {
        let Ok(entry) = Entry::try_from(entry_at(log, i)) else {
            unreachable!()
        };
        replay_one(tables, used, cap, entry);
    }
}

// A settle: replays the log and empties it, then reclaims what no variable holds. The work row is zero afterwards.
// Stays: the rows side by side: whoever lends rows in a struct within a struct finds no more of them afterwards than how long they are.
pub fn settle(
    fields: &mut Fields,
    variables: &[i32],
    tables: &mut Tables,
    log: &mut [u32],
    work: &mut [u32],
    at: &mut State,
    sizes: Sizes,
)
    requires { Settleable sizes (lent_in fields.old variables.now tables.old log.old work.old) at.old }
    ensures settles { Settles sizes (lent_in fields.old variables.now tables.old log.old work.old) at.old
        (lent_in fields.new variables.now tables.new log.new work.new) at.new }
    ensures same { SameFields fields.old fields.new × SameTables tables.old tables.new }
{
    let cap = sizes.cap as u32;
    replay(log, at.len, tables, &mut at.used, cap);
    log.fill(0);
    at.len = 0;
    mark_held(variables, work);
    let most = work.len();
    reclaim(fields, tables, work, at, cap, most);
    work.fill(0);
}

// The settle before a call, where one is to be made. It counts what the variables hold; for a new, v is let go while it lasts.
// Stays: a public promise: `MakesRoom` says by `make` what is left where a settle is made, and where none is.
pub fn settle_for(
    call: Call,
    make: bool,
    fields: &mut Fields,
    variables: &mut [i32],
    tables: &mut Tables,
    log: &mut [u32],
    work: &mut [u32],
    at: &mut State,
    sizes: Sizes,
)
    requires { Roomable call sizes (lent_in fields.old variables.old tables.old log.old work.old) at.old }
    ensures room { MakesRoom call make sizes (lent_in fields.old variables.old tables.old log.old work.old) at.old
        (lent_in fields.new variables.new tables.new log.new work.new) at.new }
    ensures same { SameFields fields.old fields.new × SameTables tables.old tables.new }
{
    if !make {
        return;
    }
    let Call::New(v) = call else {
        return settle(fields, variables, tables, log, work, at, sizes);
    };
    let own = held(variables, v);
    hold(variables, v, None);
    settle(fields, variables, tables, log, work, at, sizes);
    hold(variables, v, own);
}
