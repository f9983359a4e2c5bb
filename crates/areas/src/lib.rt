// The areas of a layout, in table 1 (hv-s2's arm64.rs).
#![tactic(auto)]

ghost use Rattle.std.specs.Prelude.{◌≡◌, get_or};
ghost use Rattle.areas.specs.Area.{area, no_area, areas_of, live_areas_of, area_slot, area_has};

use layout::{Layout, Window};

// What has a word in table 1, if it is present: its first address has the slot, and the word names its table. It is present as its window is
// (`area`), whose flag it takes over.
#[derive(Clone, Copy)]
pub struct Area {
    pub present: bool,
    pub ipa: u64,
    pub table: u64,
}

// Image, data, super, device; past them is none.
fn stored_area(l: Layout, i: usize) -> Area
    ensures { result ≡ get_or (areas_of l) i no_area }
{
    match i {
        0 => Area::of(l.image_window(), l.l2_code_pa),
        1 => Area::of(l.data_window(), l.l2_data_pa),
        // Not by its window, which is offered only where row 8 lets it by.
        2 => Area {
            present: true,
            ipa: l.sup_ipa_base,
            table: l.l2_sup_pa,
        },
        3 => Area::of(l.device_window(), l.l2_dev_pa),
        _ => Area {
            present: false,
            ipa: 0,
            table: 0,
        },
    }
}

// All of them.
pub fn areas(l: Layout) -> [Area; Layout::WINDOWS]
    ensures { result ≡ areas_of l }
{
    [
        stored_area(l, 0),
        stored_area(l, 1),
        stored_area(l, 2),
        stored_area(l, 3),
    ]
}

// The same in verification's order: data, super, image, device. One at a time, so that no array of them is made.
pub fn live_area(l: Layout, i: usize) -> Area
    ensures { result ≡ get_or (live_areas_of l) i no_area }
{
    match i {
        0 => stored_area(l, 1),
        1 => stored_area(l, 2),
        2 => stored_area(l, 0),
        _ => stored_area(l, i),
    }
}

impl Area {
    fn of(w: Window, table: u64) -> Self
        ensures { result ≡ area w table }
    {
        Area {
            present: w.present,
            ipa: w.ipa,
            table,
        }
    }

    pub fn l1_index(self) -> u64
        ensures { result ≡ area_slot self }
    {
        Layout::l1_index(self.ipa)
    }

    // Whether it has the word at this index of table 1.
    pub fn has(self, j: u64) -> bool
        ensures { result ≡ area_has self j }
    {
        if !self.present {
            return false;
        }
        self.l1_index() == j
    }
}
