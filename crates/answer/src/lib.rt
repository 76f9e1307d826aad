// What is sent back: an answer of the engine or the plan reader, the answers of the enquirer, an answer with shares, and the refusals that they hold.
// A refusal says first whether the sheet, the tables, the search or the plan file caused it.
#![tactic(auto)]

ghost use Rattle.std.specs.Prelude.{◌≡◌};
ghost use Rattle.answer.specs.Stated.{refused, of_sheet, of_tables, of_search, of_plan_file, family_of, stated_refusal};
ghost use Rattle.answer.specs.declared.Refusal.TheVariants.{Sheet, Tables, Search, PlanFile};

// The sheet's refusals, also where the enquirer gives them. Each has a place of its own.
#[derive(Clone, Copy)]
pub enum SheetFault {
    ShortSheet(usize),
    StrangeMark(usize),
    BadHead(usize),
    NoSuchSite(usize),
    NoSuchStation(usize),
    Loop(usize),
    BadPrice(usize),
    TooManyLegs(usize),
    AfterTheEnd(usize),
    Unheard(usize),
}

// The tables' refusals. Their place is 0.
#[derive(Clone, Copy)]
pub enum TableFault {
    ShortTables,
    ShortBuffer,
}

// The search's refusals. Their place is 0.
#[derive(Clone, Copy)]
pub enum SearchFault {
    NoPlan,
}

// The plan file's refusals. Where a case holds a place, it counts in the plan file; of the others it is 0.
#[derive(Clone, Copy)]
pub enum PlanFault {
    CutPlan,
    BadPlan(usize),
    UnknownNumber(usize),
    NoTree,
    StationMissed,
    FalseTotal,
    NotASender,
}

// A refusal, by its cause.
#[derive(Clone, Copy)]
pub enum Refusal {
    Sheet(SheetFault),
    Tables(TableFault),
    Search(SearchFault),
    PlanFile(PlanFault),
}

// A plan, or an accepted plan file, with the root, the total and the leg count that stand in the file.
#[derive(Clone, Copy)]
pub struct Plan {
    pub root: u16,
    pub total: u64,
    pub arcs: u16,
}

// An accepted plan file with its shares: what stands in the file, and the sum that no station pays.
#[derive(Clone, Copy)]
pub struct Shared {
    pub plan: Plan,
    pub unassigned: u64,
}

// The answer of the engine and of the plan reader.
pub type Answer = Result<Plan, Refusal>;

// The answers of the enquirer: a cell as it stands in the table; a best sender, or no sender ("none").
pub type CellAnswer = Result<u64, Refusal>;

pub type SenderAnswer = Result<Option<u16>, Refusal>;

// The answer to a request for shares.
pub type Sharing = Result<Shared, Refusal>;

impl From<SheetFault> for Refusal {
    ghost from_gives = { λ fault refusal. refusal ≡ Sheet fault };

    fn from(fault: SheetFault) -> Refusal {
        Refusal::Sheet(fault)
    }
}

impl From<TableFault> for Refusal {
    ghost from_gives = { λ fault refusal. refusal ≡ Tables fault };

    fn from(fault: TableFault) -> Refusal {
        Refusal::Tables(fault)
    }
}

impl From<SearchFault> for Refusal {
    ghost from_gives = { λ fault refusal. refusal ≡ Search fault };

    fn from(fault: SearchFault) -> Refusal {
        Refusal::Search(fault)
    }
}

impl From<PlanFault> for Refusal {
    ghost from_gives = { λ fault refusal. refusal ≡ PlanFile fault };

    fn from(fault: PlanFault) -> Refusal {
        Refusal::PlanFile(fault)
    }
}

// What a refusal returns: its number and its place.
#[derive(Clone, Copy)]
pub struct Code {
    pub number: u8,
    pub place: usize,
}

impl Code {
    fn new(number: u8, place: usize) -> Code
        ensures { (result.number ≡ number) × (result.place ≡ place) }
    {
        Code { number, place }
    }
}

impl From<SheetFault> for Code {
    ghost from_gives = { λ fault code. refused of_sheet code.number code.place ≡ stated_refusal (Sheet fault) };

    fn from(fault: SheetFault) -> Code {
        match fault {
            SheetFault::ShortSheet(place) => Code::new(limits::SHORT_SHEET, place),
            SheetFault::StrangeMark(place) => Code::new(limits::STRANGE_MARK, place),
            SheetFault::BadHead(place) => Code::new(limits::BAD_HEAD, place),
            SheetFault::NoSuchSite(place) => Code::new(limits::NO_SUCH_SITE, place),
            SheetFault::NoSuchStation(place) => Code::new(limits::NO_SUCH_STATION, place),
            SheetFault::Loop(place) => Code::new(limits::LOOP, place),
            SheetFault::BadPrice(place) => Code::new(limits::BAD_PRICE, place),
            SheetFault::TooManyLegs(place) => Code::new(limits::TOO_MANY_LEGS, place),
            SheetFault::AfterTheEnd(place) => Code::new(limits::AFTER_THE_END, place),
            SheetFault::Unheard(place) => Code::new(limits::UNHEARD, place),
        }
    }
}

impl From<TableFault> for Code {
    ghost from_gives = { λ fault code. refused of_tables code.number code.place ≡ stated_refusal (Tables fault) };

    fn from(fault: TableFault) -> Code {
        match fault {
            TableFault::ShortTables => Code::new(limits::SHORT_TABLES, 0),
            TableFault::ShortBuffer => Code::new(limits::SHORT_BUFFER, 0),
        }
    }
}

impl From<SearchFault> for Code {
    ghost from_gives = { λ fault code. refused of_search code.number code.place ≡ stated_refusal (Search fault) };

    fn from(fault: SearchFault) -> Code {
        match fault {
            SearchFault::NoPlan => Code::new(limits::NO_PLAN, 0),
        }
    }
}

impl From<PlanFault> for Code {
    ghost from_gives = { λ fault code. refused of_plan_file code.number code.place ≡ stated_refusal (PlanFile fault) };

    fn from(fault: PlanFault) -> Code {
        match fault {
            PlanFault::CutPlan => Code::new(limits::CUT_PLAN, 0),
            PlanFault::BadPlan(place) => Code::new(limits::BAD_PLAN, place),
            PlanFault::UnknownNumber(place) => Code::new(limits::UNKNOWN_NUMBER, place),
            PlanFault::NoTree => Code::new(limits::NO_TREE, 0),
            PlanFault::StationMissed => Code::new(limits::STATION_MISSED, 0),
            PlanFault::FalseTotal => Code::new(limits::FALSE_TOTAL, 0),
            PlanFault::NotASender => Code::new(limits::NOT_A_SENDER, 0),
        }
    }
}

// The number and the place of a refusal.
pub fn code_of(refusal: Refusal) -> Code
    ensures { refused (family_of refusal) result.number result.place ≡ stated_refusal refusal }
{
    match refusal {
        Refusal::Sheet(fault) => Code::from(fault),
        Refusal::Tables(fault) => Code::from(fault),
        Refusal::Search(fault) => Code::from(fault),
        Refusal::PlanFile(fault) => Code::from(fault),
    }
}
