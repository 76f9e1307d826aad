// The numbers of documents 01 and 02 that the code compares with: the limits of a sheet, the cost "none", the marks of the formats and the
// refusal numbers. specs/Limits.antt, Marks.antt and Refusals.antt have the same numbers for the definitions; every proof that
// meets one of them on both sides fails where the two differ.
#![tactic(auto)]

// How many sites, stations and legs a sheet has.
#[derive(Clone, Copy)]
pub struct Counts {
    pub n: u16,
    pub k: u8,
    pub arcs: u16,
}

// The fewest and the most sites and stations, and the most legs of a sheet.
pub const MIN_NODES: u16 = 1;

pub const MAX_NODES: u16 = 1024;

pub const MIN_TERMINALS: u8 = 1;

pub const MAX_TERMINALS: u8 = 10;

pub const MAX_ARCS: u16 = 8192;

// The number of sets of stations: 2 to the power MAX_TERMINALS.
pub const MAX_SUBSETS: u16 = 1024;

// What a landing entry has more for a site that is a sender.
pub const SENDER_FLAG: u16 = 1024;

// The least and the greatest price of a leg, in cents.
pub const MIN_WEIGHT: u32 = 1;

pub const MAX_WEIGHT: u32 = 1_000_000;

// A cell of the cost table, and what is compared with one: the name of its width.
pub type Cost = u32;

// A signed number of this width: costs below half of what a cell can hold are compared as such.
pub type SignedCost = i32;

// The cell of a site and a set that no directed subtree serves: "none". The table that other languages read holds this number.
pub const NO_COST: Cost = 4_294_967_295;

// The marks, two ASCII bytes each, read as one number. They are no enum: each reader compares the number that stands in the bytes in one `match` or
// test, and an enum would need the same `match` before it.
pub const MARK_HD: u16 = 0x4844;

pub const MARK_LK: u16 = 0x4C4B;

pub const MARK_BK: u16 = 0x424B;

pub const MARK_ST: u16 = 0x5354;

pub const MARK_SR: u16 = 0x5352;

pub const MARK_ED: u16 = 0x4544;

pub const MARK_PN: u16 = 0x504E;

pub const MARK_LG: u16 = 0x4C47;

// The refusal numbers, by the words of the table "What is sent back".
pub const SHORT_SHEET: u8 = 1;

pub const STRANGE_MARK: u8 = 2;

pub const BAD_HEAD: u8 = 3;

pub const NO_SUCH_SITE: u8 = 4;

pub const NO_SUCH_STATION: u8 = 5;

pub const LOOP: u8 = 6;

pub const BAD_PRICE: u8 = 7;

pub const TOO_MANY_LEGS: u8 = 8;

pub const AFTER_THE_END: u8 = 9;

pub const UNHEARD: u8 = 10;

pub const SHORT_TABLES: u8 = 11;

pub const NO_PLAN: u8 = 12;

pub const SHORT_BUFFER: u8 = 13;

pub const CUT_PLAN: u8 = 14;

pub const BAD_PLAN: u8 = 15;

pub const UNKNOWN_NUMBER: u8 = 16;

pub const NO_TREE: u8 = 17;

pub const STATION_MISSED: u8 = 18;

pub const FALSE_TOTAL: u8 = 19;

pub const NOT_A_SENDER: u8 = 20;
