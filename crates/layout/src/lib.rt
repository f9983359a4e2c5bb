// Where the tables stand and what they map (hv-s2's arm64.rs).
#![tactic(auto)]

ghost use Rattle.std.specs.Prelude.{◌<◌, ◌≡◌};
ghost use Rattle.layout.specs.Check.{check, checks_of};
ghost use Rattle.layout.specs.Layout.{image_of, tables_of};
ghost use Rattle.layout.specs.Size.{first_word};
ghost use Rattle.layout.specs.Window.{image_window, data_window, super_counted, device_window, devices_of, l1_slot, l2_slot, slot};

// The sixteen fields, numbered from 1 in this order.
#[derive(Clone, Copy)]
pub struct Layout {
    pub l1_pa: u64,
    pub l2_code_pa: u64,
    pub l2_data_pa: u64,
    pub l3_data_pa: u64,
    pub l2_sup_pa: u64,
    pub l2_dev_pa: u64,
    // The address of the guest image, to which it is mapped itself; none where a guest's code lies in its own memory.
    pub guest_image_pa: Option<u64>,
    pub data_ipa_base: u64,
    pub data_pa_base: u64,
    pub frame_size: u64,
    pub sup_ipa_base: u64,
    pub sup_pa_base: u64,
    pub device_base: u64,
    pub device_len: u64,
    pub sup_wx_exempt: bool,
    pub sup_frames: u64,
}

// A table's code, 1 to 6, and its address, if it is present.
#[derive(Clone, Copy)]
pub struct Table {
    pub code: u64,
    pub present: bool,
    pub pa: u64,
}

// A window's code, 1 to 4: `span` bytes from `ipa` on are mapped to those from `pa` on, if it is present. One that is not keeps its place and
// code in `windows_of`: rows, regions and theorems find a window there by them, and an Option would hide both.
#[derive(Clone, Copy)]
pub struct Window {
    pub code: u64,
    pub present: bool,
    pub ipa: u64,
    pub pa: u64,
    pub span: u64,
}

// A base that must be aligned: its code among row 6's checks, 1 to 6, and whether it is not.
#[derive(Clone, Copy)]
pub struct Check {
    pub code: u64,
    pub fails: bool,
    pub base: u64,
    pub align: u64,
}

impl Layout {
    // What nine index bits tell apart: the words of a table, as an address counts them.
    pub const INDICES: u64 = 512;

    // What a word of level 3, 2 and 1 maps.
    pub const PAGE_SIZE: u64 = 4096;

    pub const BLOCK_SIZE: u64 = Self::INDICES * Self::PAGE_SIZE;

    pub const L1_ENTRY_SIZE: u64 = Self::INDICES * Self::BLOCK_SIZE;

    // The first address that the nine index bits of level 1 do not reach.
    pub const ADDRESSABLE: u64 = Self::INDICES * Self::L1_ENTRY_SIZE;
    // The first address that a descriptor cannot hold.
    pub const OUTPUT_LIMIT: u64 = 0x1_0000_0000_0000;
    // What tables and outputs of a board's layout lie below, and those of a dumped one.
    pub const BOARD_LIMIT: u64 = Self::OUTPUT_LIMIT;

    pub const DUMP_LIMIT: u64 = Self::OUTPUT_LIMIT;
    // The first count of blocks whose length leaves 64 bits.
    pub const UNCOUNTABLE: u64 = 0x800_0000_0000;

    // The words of a table, and the most entries of a map.
    pub const ENTRIES: usize = Self::INDICES as usize;

    pub const TABLES: usize = 6;

    pub const ARENA_LEN: usize = Self::TABLES * Self::ENTRIES;

    pub const WINDOWS: usize = 4;
    // Of these, the last.
    pub const DEVICES: usize = 1;
    // Row 6's.
    pub const CHECKS: usize = 6;
    // Numbered from 1.
    pub const FIELDS: u64 = 0x10;
    // The fields, and whether there is an image.
    pub const NUMBERS: usize = Self::FIELDS as usize + 1;

    pub fn tables(self) -> [Table; Self::TABLES]
        ensures { result ≡ tables_of self }
    {
        [
            Table {
                code: 1,
                present: true,
                pa: self.l1_pa,
            },
            Table {
                code: 2,
                present: true,
                pa: self.l2_code_pa,
            },
            Table {
                code: 3,
                present: true,
                pa: self.l2_data_pa,
            },
            Table {
                code: 4,
                present: true,
                pa: self.l3_data_pa,
            },
            Table {
                code: 5,
                present: true,
                pa: self.l2_sup_pa,
            },
            Table {
                code: 6,
                present: true,
                pa: self.l2_dev_pa,
            },
        ]
    }

    // Row 6's six checks, in their order.
    pub fn checks(self) -> [Check; Self::CHECKS]
        ensures { result ≡ checks_of self }
    {
        let image = self.image_window();
        let device = self.device_window();
        [
            Check::of(1, true, self.data_ipa_base, Self::BLOCK_SIZE),
            Check::of(2, true, self.data_pa_base, Self::PAGE_SIZE),
            Check::of(3, true, self.sup_ipa_base, Self::BLOCK_SIZE),
            Check::of(4, true, self.sup_pa_base, Self::BLOCK_SIZE),
            Check::of(5, image.present, image.ipa, Self::BLOCK_SIZE),
            Check::of(6, device.present, device.ipa, Self::BLOCK_SIZE),
        ]
    }

    // The place of a table's first word. Table 1 comes first, and nothing before it.
    pub fn first_word(table: u32) -> usize
        ensures { result ≡ first_word table }
    {
        if table == 0 {
            return 0;
        }
        (table as usize - 1) * Self::ENTRIES
    }

    // The level 1 entry of an address.
    pub fn l1_index(x: u64) -> u64
        ensures { result ≡ l1_slot x }
    {
        x / Self::L1_ENTRY_SIZE % Self::INDICES
    }

    // The level 2 entry of an address.
    pub fn l2_index(x: u64) -> u64
        ensures { result ≡ l2_slot x }
    {
        x / Self::BLOCK_SIZE % Self::INDICES
    }

    pub fn image_window(self) -> Window
        ensures { result ≡ image_window self.guest_image_pa }
    {
        match self.guest_image_pa {
            Some(pa) => Window {
                code: 1,
                present: true,
                ipa: pa,
                pa,
                span: Self::BLOCK_SIZE,
            },
            None => Window {
                code: 1,
                present: false,
                ipa: 0,
                pa: 0,
                span: 0,
            },
        }
    }

    pub fn data_window(self) -> Window
        ensures { result ≡ data_window self }
    {
        Window {
            code: 2,
            present: true,
            ipa: self.data_ipa_base,
            pa: self.data_pa_base,
            span: Self::INDICES * Self::PAGE_SIZE,
        }
    }

    // The super window, if 64 bits hold its length: row 8 is its test.
    pub fn super_window(self) -> Option<Window>
        ensures { result ≡ super_counted self }
    {
        if Self::UNCOUNTABLE <= self.sup_frames {
            return None;
        }
        let span = self.sup_frames * Self::BLOCK_SIZE;
        Some(Window {
            code: 3,
            present: true,
            ipa: self.sup_ipa_base,
            pa: self.sup_pa_base,
            span,
        })
    }

    pub fn device_window(self) -> Window
        ensures { result ≡ device_window self }
    {
        Window {
            code: 4,
            present: 0 < self.device_len,
            ipa: self.device_base,
            pa: self.device_base,
            span: self.device_len,
        }
    }

    pub fn devices(self) -> [Window; Self::DEVICES]
        ensures { result ≡ devices_of self }
    {
        [self.device_window()]
    }
}

// The address of a guest image, of two numbers: presence is any number but zero.
pub fn image_of(present: u64, pa: u64) -> Option<u64>
    ensures { result ≡ image_of present pa }
{
    (present != 0).then_some(pa)
}

impl Window {
    // The level 1 entry of the window's first address.
    pub fn l1_index(self) -> u64
        ensures { result ≡ slot self }
    {
        Layout::l1_index(self.ipa)
    }
}

impl Check {
    fn of(code: u64, applies: bool, base: u64, align: u64) -> Self
        requires { 0 < align }
        ensures { result ≡ check code applies base align }
    {
        Self {
            code,
            fails: applies && base % align != 0,
            base,
            align,
        }
    }
}
