// What a frame is referenced as: a page, or a page table of a level (hv-core's p2m.rs).
#![tactic(auto)]

ghost use Rattle.std.specs.Prelude.{◌≡◌};
ghost use Rattle.page_type.specs.PageType.{kind_of, level_of_kind, type_code, level_of_type, child_type};

// The level of a page table. L1 is the bottom: its entries map ordinary pages.
#[derive(Clone, Copy, PartialEq, Eq)]
pub enum PtLevel {
    L1,
    L2,
    L3,
    L4,
}

// What a frame is referenced as.
#[derive(Clone, Copy, PartialEq, Eq)]
pub enum PageType {
    Writable,
    PageTable(PtLevel),
}

impl PtLevel {
    pub fn interior_child_type(self) -> Option<PageType>
        ensures { result ≡ child_type self }
    {
        match self {
            PtLevel::L1 => None,
            PtLevel::L2 => Some(PageType::PageTable(PtLevel::L1)),
            PtLevel::L3 => Some(PageType::PageTable(PtLevel::L2)),
            PtLevel::L4 => Some(PageType::PageTable(PtLevel::L3)),
        }
    }

    // The kind of a frame that is a table of this level.
    pub fn kind(self) -> u32
        ensures { result ≡ kind_of self }
    {
        match self {
            PtLevel::L1 => 2,
            PtLevel::L2 => 3,
            PtLevel::L3 => 4,
            PtLevel::L4 => 5,
        }
    }
}

impl PageType {
    pub fn level(self) -> Option<PtLevel>
        ensures { result ≡ level_of_type self }
    {
        match self {
            PageType::Writable => None,
            PageType::PageTable(level) => Some(level),
        }
    }

    // The kind of a frame of this type.
    pub fn code(self) -> u32
        ensures { result ≡ type_code self }
    {
        match self {
            PageType::Writable => 1,
            PageType::PageTable(level) => level.kind(),
        }
    }
}

// The level of the table that a frame of this kind is.
pub fn level_of_kind(kind: u32) -> Option<PtLevel>
    ensures { result ≡ level_of_kind kind }
{
    match kind {
        2 => Some(PtLevel::L1),
        3 => Some(PtLevel::L2),
        4 => Some(PtLevel::L3),
        5 => Some(PtLevel::L4),
        _ => None,
    }
}
