// The answer of a call that document 01's table can refuse.
#![tactic(auto)]

ghost use Rattle.std.specs.Prelude.{ℕ, List, [], ◌∷◌, ◌≡◌};
ghost use Rattle.fields.specs.Numbers.{eight};
ghost use Rattle.refusal.specs.Told.{values_if, told_of, told_words};
ghost use Rattle.refusal.specs.Outcome.{leaf_values, wanted_values, row_of, row_words};
ghost use Rattle.refusal.specs.declared.Refusal.TheVariants.{BadTableEntry, BadImageBlock, BadLeaf, UnauthorizedMapping, Inexact};

pub mod first;

use decode::Decoded;
use perm::Perm;

// Rows 1 to 27, by the Rust's names where it has them, with the values that a refusal carries. Names are document 01's codes: maps,
// windows and tables, and in `WindowUnaligned` row 6's checks.
#[derive(Clone, Copy, PartialEq, Eq)]
pub enum Refusal {
    ArenaLength,
    MapLength,
    MapCode {
        map: u64,
        position: u64,
    },
    DeviceWindowUnaligned {
        base: u64,
        len: u64,
    },
    GranuleNotEmitted {
        frame_size: u64,
    },
    WindowUnaligned {
        window: u64,
        base: u64,
        align: u64,
    },
    TableUnnameable {
        table: u64,
        pa: u64,
    },
    SuperFramesUncountable {
        count: u64,
    },
    RegionCrossesL1 {
        l1_index: u64,
        span: u64,
    },
    OutputPastLimit {
        window: u64,
        base: u64,
    },
    RegionsCollide {
        l1_index: u64,
    },
    WindowsOverlap,
    TablesEqual {
        first: u64,
        second: u64,
    },
    SuperUnbacked {
        position: u64,
    },
    UnsupportedSpan {
        parent: u64,
    },
    OutOfRange {
        mfn: u64,
        capacity: u64,
    },
    SpanConflict {
        mfn: u64,
    },
    BadTableEntry {
        table: u64,
        index: u64,
        found: Option<u64>,
        expected: u64,
    },
    BadImageBlock {
        found: Option<Decoded>,
        expected: u64,
    },
    BadLeaf {
        mfn: u64,
        found: Option<Decoded>,
        expected: Option<Decoded>,
    },
    SpuriousDescriptor {
        table: u64,
        index: u64,
        desc: u64,
    },
    BadDeviceBlock {
        index: u64,
        desc: u64,
    },
    UnauthorizedMapping {
        dom: u64,
        mfn: u64,
        owner: Option<u16>,
        perm: Perm,
    },
    WriteEscalation {
        dom: u64,
        mfn: u64,
        owner: u64,
    },
    Inexact {
        dom: u64,
        mfn: u64,
        mapped: Option<Perm>,
        expected: Option<Perm>,
    },
    StepPastLast,
    PageTooLong,
}

// What a call tells where no row refuses it.
pub trait Told {
    ghost values: { Self → List ℕ };

    // 0, and the values.
    fn words(self) -> [u64; 9]
        ensures { result ≡ 0 ∷ eight (values self) };
}

// It is accepted, and nothing else is told.
impl Told for () {
    ghost values = { λ told. [] };

    fn words(self) -> [u64; 9] {
        [0; 9]
    }
}

// A number is told as it is.
impl Told for u64 {
    ghost values = { λ told. told ∷ [] };

    fn words(self) -> [u64; 9] {
        [0, self, 0, 0, 0, 0, 0, 0, 0]
    }
}

// Nothing is told by zeros.
impl<T: Told> Told for Option<T> {
    ghost values = { values_if T.values };

    fn words(self) -> [u64; 9] {
        match self {
            Some(told) => told.words(),
            None => [0; 9],
        }
    }
}

// The number, 0 where no row refuses, and the values that are told or carried: for callers that have no enums.
pub fn words<T: Told>(answer: Result<T, Refusal>) -> [u64; 9]
    ensures { result ≡ told_words T.values (told_of answer) }
{
    match answer {
        Ok(told) => told.words(),
        Err(refusal) => refusal.words(),
    }
}

impl Refusal {
    // The number and the carried values.
    pub fn words(self) -> [u64; 9]
        ensures { result ≡ row_words (row_of self) }
    {
        match self {
            Refusal::ArenaLength => [1, 0, 0, 0, 0, 0, 0, 0, 0],
            Refusal::MapLength => [2, 0, 0, 0, 0, 0, 0, 0, 0],
            Refusal::MapCode { map, position } => [3, map, position, 0, 0, 0, 0, 0, 0],
            Refusal::DeviceWindowUnaligned { base, len } => [4, base, len, 0, 0, 0, 0, 0, 0],
            Refusal::GranuleNotEmitted { frame_size } => [5, frame_size, 0, 0, 0, 0, 0, 0, 0],
            Refusal::WindowUnaligned {
                window,
                base,
                align,
            } => [6, window, base, align, 0, 0, 0, 0, 0],
            Refusal::TableUnnameable { table, pa } => [7, table, pa, 0, 0, 0, 0, 0, 0],
            Refusal::SuperFramesUncountable { count } => [8, count, 0, 0, 0, 0, 0, 0, 0],
            Refusal::RegionCrossesL1 { l1_index, span } => [9, l1_index, span, 0, 0, 0, 0, 0, 0],
            Refusal::OutputPastLimit { window, base } => [10, window, base, 0, 0, 0, 0, 0, 0],
            Refusal::RegionsCollide { l1_index } => [11, l1_index, 0, 0, 0, 0, 0, 0, 0],
            Refusal::WindowsOverlap => [12, 0, 0, 0, 0, 0, 0, 0, 0],
            Refusal::TablesEqual { first, second } => [13, first, second, 0, 0, 0, 0, 0, 0],
            Refusal::SuperUnbacked { position } => [14, position, 0, 0, 0, 0, 0, 0, 0],
            Refusal::UnsupportedSpan { parent } => [15, parent, 0, 0, 0, 0, 0, 0, 0],
            Refusal::OutOfRange { mfn, capacity } => [16, mfn, capacity, 0, 0, 0, 0, 0, 0],
            Refusal::SpanConflict { mfn } => [17, mfn, 0, 0, 0, 0, 0, 0, 0],
            Refusal::BadTableEntry {
                table,
                index,
                found,
                expected,
            } => bad_table_entry(table, index, found, expected),
            Refusal::BadImageBlock { found, expected } => bad_image_block(found, expected),
            Refusal::BadLeaf {
                mfn,
                found,
                expected,
            } => bad_leaf(mfn, found, expected),
            Refusal::SpuriousDescriptor { table, index, desc } => [
                21, table, index, desc, 0, 0, 0, 0, 0,
            ],
            Refusal::BadDeviceBlock { index, desc } => [22, index, desc, 0, 0, 0, 0, 0, 0],
            Refusal::UnauthorizedMapping {
                dom,
                mfn,
                owner,
                perm,
            } => unauthorized_mapping(dom, mfn, owner, perm),
            Refusal::WriteEscalation { dom, mfn, owner } => [24, dom, mfn, owner, 0, 0, 0, 0, 0],
            Refusal::Inexact {
                dom,
                mfn,
                mapped,
                expected,
            } => inexact(dom, mfn, mapped, expected),
            Refusal::StepPastLast => [26, 0, 0, 0, 0, 0, 0, 0, 0],
            Refusal::PageTooLong => [27, 0, 0, 0, 0, 0, 0, 0, 0],
        }
    }
}

fn bad_table_entry(table: u64, index: u64, found: Option<u64>, expected: u64) -> [u64; 9]
    ensures { result ≡ row_words (row_of (BadTableEntry table index found expected)) }
{
    match found {
        Some(pa) => [18, table, index, 1, pa, expected, 0, 0, 0],
        None => [18, table, index, 0, 0, expected, 0, 0, 0],
    }
}

fn bad_image_block(found: Option<Decoded>, expected: u64) -> [u64; 9]
    ensures { result ≡ row_words (row_of (BadImageBlock found expected)) }
{
    let f = leaf_values(found);
    [19, f[0], f[1], f[2], f[3], expected, 0, 0, 0]
}

fn bad_leaf(mfn: u64, found: Option<Decoded>, expected: Option<Decoded>) -> [u64; 9]
    ensures { result ≡ row_words (row_of (BadLeaf mfn found expected)) }
{
    let f = leaf_values(found);
    let e = wanted_values(expected);
    [20, mfn, f[0], f[1], f[2], f[3], e[0], e[1], e[2]]
}

fn unauthorized_mapping(dom: u64, mfn: u64, owner: Option<u16>, perm: Perm) -> [u64; 9]
    ensures { result ≡ row_words (row_of (UnauthorizedMapping dom mfn owner perm)) }
{
    let entry = perm.code() as u64;
    match owner {
        Some(number) => [23, dom, mfn, 1, number as u64, entry, 0, 0, 0],
        None => [23, dom, mfn, 0, 0, entry, 0, 0, 0],
    }
}

fn inexact(dom: u64, mfn: u64, mapped: Option<Perm>, expected: Option<Perm>) -> [u64; 9]
    ensures { result ≡ row_words (row_of (Inexact dom mfn mapped expected)) }
{
    [
        25,
        dom,
        mfn,
        perm::entry_code(mapped) as u64,
        perm::entry_code(expected) as u64,
        0,
        0,
        0,
        0,
    ]
}

// A leaf that is found, as a refusal carries it: 1 and its values, or zeros.
fn leaf_values(found: Option<Decoded>) -> [u64; 4]
    ensures { result ≡ leaf_values found }
{
    match found {
        Some(leaf) => {
            let access = leaf.perm;
            [1, leaf.pa, access.code() as u64, leaf.xn as u64]
        }
        None => [0; 4],
    }
}

// One that is wanted.
fn wanted_values(want: Option<Decoded>) -> [u64; 3]
    ensures { result ≡ wanted_values want }
{
    match want {
        Some(leaf) => {
            let access = leaf.perm;
            [1, leaf.pa, access.code() as u64]
        }
        None => [0; 3],
    }
}
