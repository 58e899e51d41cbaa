// The tables that the call keeps in its own frame, and how long they are. All are cleared by declaring them, so a small task has small ones:
// clearing the large ones takes some 15 us, as long as compiling two or three typical tasks.
//
//     built      | 3 words a row | 2 words a row | 4 words a row | 1 word a variable |
//                  the rows        links           heads           the row of its twin
//
//     twins      | 1 word a twin: its original |      for all that the limits allow, 1 KiB
//
//     records    | 3 words an operator | 3 words a change |
//
//     notes      | 1 word an effect | 3 words an effect | 4 words an effect for each 32 variables | 2 or 3 words a variable
//                  its column         its last join       the atoms that stand in it                for each column |
//                  with as many columns as there is room for, which are numbered anew for each batch of operators (crate effect_batches)
//
//     first      | 1 word an effect: the first operator that comes to it |      of build; and, of each batch while it begins,
//     list       | 1 word an effect: the rows whose columns are filled   |      both for all that the limits allow, 8 KiB each
//
//                built      records     notes
//     small      9.3 KiB    13.5 KiB    28 KiB     for 512 rows, 512 effects, 128 variables
//     large      73 KiB     13.5 KiB    1.2 MiB    for all that the limits allow

// The limits of the finished task.
pub const MOST_VARIABLES: usize = 512;

pub const MOST_ROWS: usize = 4096;

pub const MOST_EFFECT_ROWS: usize = 4096;

// What the small frame is for.
pub const SMALL_VARIABLES: usize = 128;

pub const SMALL_FORMULAS: usize = 512;

pub const SMALL_EFFECTS: usize = 512;

pub const SMALL_OPERATORS: usize = 64;

pub const SMALL_ROWS: usize = 512;

// A row with its links and its heads.
const ROW: usize = 3 + 2 + 4;

pub const SMALL_BUILT: usize = ROW * SMALL_ROWS + SMALL_VARIABLES;

pub const LARGE_BUILT: usize = ROW * MOST_ROWS + MOST_VARIABLES;

const MOST_OPERATORS: usize = 256;

// Each change that brings rules brings two effect rows at least.
const MOST_CHANGES: usize = MOST_EFFECT_ROWS / 2;

pub const RECORDS: usize = 3 * (MOST_OPERATORS + MOST_CHANGES);

// The words of an effect but for its set: its column, its last join.
const EFFECT: usize = 1 + 3;

const MOST_EFFECTS: usize = 4096;

// Columns that there is room for at least, with two words a variable.
const SMALL_COLUMNS: usize = 16;

const LARGE_COLUMNS: usize = 324;

// A set has two bits a variable.
pub const SMALL_NOTES: usize = (EFFECT + SMALL_VARIABLES / 8) * SMALL_EFFECTS
    + SMALL_COLUMNS * 2 * SMALL_VARIABLES;

pub const LARGE_NOTES: usize = (EFFECT + MOST_VARIABLES / 8) * MOST_EFFECTS
    + LARGE_COLUMNS * 2 * MOST_VARIABLES;
