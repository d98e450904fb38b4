// The types of the heap: its head, a field, a call, an outcome. What they mean stands in specs/.
#![tactic(auto)]

ghost use Rattle.std.specs.Prelude.{◌≡◌, pos};
ghost use Rattle.rules.specs.Head.{sized, fresh_head, Limits, Within, Says};
ghost use Rattle.rules.specs.Field.{kind_of, kind_byte, kind_from};
ghost use Rattle.rules.specs.Call.{no_of};
ghost use Rattle.rules.specs.Refusals.{number_of};

// What stays the same through a heap's life: cells, variables, log entries, the cap of a count.
#[repr(C)]
#[derive(Clone, Copy)]
pub struct Sizes {
    pub n: usize,
    pub m: usize,
    pub l: usize,
    pub cap: usize,
}

// The limits belong to the sizes.
impl Sizes {
    pub const CELLS_LEAST: usize = 1;

    pub const CELLS_MOST: usize = 1024;

    pub const VARIABLES_LEAST: usize = 1;

    pub const VARIABLES_MOST: usize = 64;

    pub const ENTRIES_LEAST: usize = 2;

    pub const ENTRIES_MOST: usize = 1024;

    pub const CAP_LEAST: usize = 3;

    pub const CAP_MOST: usize = 255;

    // The sizes, by their four numbers.
    pub fn plain(n: usize, m: usize, l: usize, cap: usize) -> Sizes
        ensures { result ≡ sized n m l cap }
    {
        Sizes { n, m, l, cap }
    }

    // Are the sizes within their limits?
    pub fn within(self) -> bool
        ensures { Says result (Limits self) }
    {
        Sizes::CELLS_LEAST <= self.n
            && self.n <= Sizes::CELLS_MOST
            && Sizes::VARIABLES_LEAST <= self.m
            && self.m <= Sizes::VARIABLES_MOST
            && Sizes::ENTRIES_LEAST <= self.l
            && self.l <= Sizes::ENTRIES_MOST
            && Sizes::CAP_LEAST <= self.cap
            && self.cap <= Sizes::CAP_MOST
    }
}

// Beside the rows goes a head by value: the sizes, the first free address, the used lengths of ZCT and MRT.
#[repr(C)]
#[derive(Clone, Copy)]
pub struct Head {
    pub sizes: Sizes,
    pub free: usize,
    pub zct: usize,
    pub mrt: usize,
}

impl Head {
    // The head of a fresh heap, from its sizes: all cells free, both tables empty.
    pub fn fresh(sizes: Sizes) -> Head
        ensures { result ≡ fresh_head sizes }
    {
        Head {
            sizes,
            free: 0,
            zct: 0,
            mrt: 0,
        }
    }

    // Are the head's numbers within the limits?
    pub fn within(self) -> bool
        ensures { Says result (Within self) }
    {
        let n = self.sizes.n;
        self.sizes.within() && self.free <= n && self.zct <= n && self.mrt <= n
    }
}

// The kind of a field, by the byte that says it.
#[derive(Clone, Copy, PartialEq, Eq, Debug)]
pub enum Kind {
    Nothing = 0,
    Figure = 1,
    Cell = 2,
    Free = 3,
}

// A byte that is no kind.
#[derive(Clone, Copy, PartialEq, Eq, Debug)]
pub struct NoKind(pub u8);

impl From<Kind> for u8 {
    ghost from_gives = { λ k r. r ≡ kind_byte k };

    fn from(kind: Kind) -> u8 {
        kind as u8
    }
}

impl TryFrom<u8> for Kind {
    type Error = NoKind;

    ghost try_from_gives = { λ b r. kind_from b r };

    fn try_from(byte: u8) -> Result<Kind, NoKind> {
        match byte {
            0 => Ok(Kind::Nothing),
            1 => Ok(Kind::Figure),
            2 => Ok(Kind::Cell),
            3 => Ok(Kind::Free),
            _ => Err(NoKind(byte)),
        }
    }
}

// A field holds nothing, a figure, a cell by its address, or a free cell's mark with the next free address.
#[derive(Clone, Copy)]
pub enum Field {
    Nothing,
    Figure(i32),
    Cell(usize),
    Free(usize),
}

impl Field {
    // Its kind.
    pub fn kind(self) -> Kind
        ensures { kind_byte result ≡ kind_of self }
    {
        match self {
            Field::Nothing => Kind::Nothing,
            Field::Figure(_) => Kind::Figure,
            Field::Cell(_) => Kind::Cell,
            Field::Free(_) => Kind::Free,
        }
    }
}

// What a call does but new and settle: it names variables, fields (0 or 1) and figures.
#[derive(Clone, Copy)]
pub enum Deed {
    Copy(usize, usize),
    Clear(usize),
    Link(usize, usize, usize),
    Put(usize, usize, i32),
    Blank(usize, usize),
    Follow(usize, usize, usize),
    Read(usize, usize),
    Same(usize, usize),
}

// A call is a new for a variable, one of the eight deeds, or a settle.
#[derive(Clone, Copy)]
pub enum Call {
    New(usize),
    Do(Deed),
    Settle,
}

// The used lengths of the two tables.
#[derive(Clone, Copy)]
pub struct Used {
    pub zct: usize,
    pub mrt: usize,
}

// Where a batch stands: the log's length, the first free address, the used lengths, the cells freed so far.
#[derive(Clone, Copy)]
pub struct State {
    pub len: usize,
    pub first: usize,
    pub used: Used,
    pub freed: usize,
}

// What says no to a call, by the number that its answer has.
#[derive(Clone, Copy, PartialEq, Eq, Debug)]
pub enum Refusal {
    NothingHeld = 11,
    NoCell = 12,
    CellThere = 13,
    NoneFree = 14,
    NothingThere = 15,
}

impl From<Refusal> for i32 {
    ghost from_gives = { λ e r. r ≡ pos (no_of e) };

    fn from(refusal: Refusal) -> i32 {
        refusal as i32
    }
}

// What says no to a fresh call, an audit or a batch, by its number.
#[derive(Clone, Copy, PartialEq, Eq, Debug)]
pub enum Refused {
    Limits = 1,
    Calls = 2,
    Answers = 3,
    Unsound = 4,
}

impl From<Refused> for usize {
    ghost from_gives = { λ e r. r ≡ number_of e };

    fn from(refused: Refused) -> usize {
        refused as usize
    }
}

// What an entry point returns: the head, and the cells freed or what says no.
#[derive(Clone, Copy)]
pub struct Outcome {
    pub head: Head,
    pub count: Result<usize, Refused>,
}
