// The annex page of a guest: which addresses it reaches, where, and how (request M-100). No run is kept but the one that may go on: the
// windows are gone through in address order, once to count and once to write.
#![tactic(auto)]

ghost use Rattle.std.specs.Prelude.{ℕ, suc, ◌+◌, ◌-◌, ◌*◌, ◌/◌, ◌≤◌, ◌<◌, List, [], Some, ◌≡◌, get_or};
ghost use Rattle.std.specs.Option.{ForSome};
ghost use Rattle.accepted_facts.specs.Guarded.{Guarded};
ghost use Rattle.annex.specs.Annex.{annex_page, AnnexAnswer};
ghost use Rattle.annex.specs.Windows.{region_in, granted_over, NextWindow, Sited, Placed};
ghost use Rattle.annex.specs.Writing.{Written, begun_length, line_at, lengthened, piece_before};
ghost use Rattle.layout.specs.Size.{entries, page as page_size, l1_span, input_limit, board_limit};
ghost use Rattle.refusal.specs.Table.{accepted, first};
ghost use Rattle.refusal.specs.Told.{told_of};
ghost use Rattle.rows.specs.Rows.{guard_rows};
ghost use Rattle.runs.specs.Page.{line_length, last_line};
ghost use Rattle.runs.specs.Runs.{goes_on, before, runs_from};
ghost use Rattle.runs.specs.declared.Run.{Run};
ghost use Rattle.text.specs.Front.{put_at};
ghost use Rattle.window_reach.specs.Granted.{by_entry, granted_in};

use layout::{Layout, Window};
use lent_rows::Maps;
use perm::Perm;
use reach::Reach;
use refusal::Refusal;
use runs::Run;

// A line for an image, for each page of data, each super and each device, and the last line: no page is longer (`LongestPage`).
pub const LONGEST: usize = 41080;

// The page, how many of its bytes are written, and the run that has begun, whose line they lack.
#[derive(Drop)]
struct Writer<'a> {
    page: &'a mut [u8],
    at: usize,
    begun: Option<Run>,
    ghost proper: { ForSome begun (λ r. r.first ≤ r.last) },
}

// Rows 2 to 14, then 27: nothing is written before all is counted.
pub fn annex(page: &mut [u8], maps: Maps<'_>, l: Layout) -> Result<u64, Refusal>
    ensures { AnnexAnswer l maps.entry.base.now maps.entry.sup.now page.old
        (told_of result) page.new }
{
    guard::guard_maps_at(Layout::BOARD_LIMIT, maps, l)?;
    put_page(page, maps, l)
}

// Row 27. In a buffer without room every line is counted, and none is put.
#[tactic(auto, using(accepted_facts::proofs::Guarded::guarded_facts))]
fn put_page(page: &mut [u8], maps: Maps<'_>, l: Layout) -> Result<u64, Refusal>
    requires { first (guard_rows board_limit maps.base.now maps.sup.now l) ≡ accepted }
    ensures { AnnexAnswer l maps.entry.base.now maps.entry.sup.now page.old
        (told_of result) page.new }
{
    let len = write(&mut [], maps, l);
    if page.len() < len {
        return Err(Refusal::PageTooLong);
    }
    write(page, maps, l);
    Ok(len as u64)
}

// The page, where there is room for it; returns its length.
fn write(page: &mut [u8], maps: Maps<'_>, l: Layout) -> usize
    requires { Guarded board_limit maps.base.now maps.sup.now l }
    ensures { Written (annex_page l maps.entry.base.now maps.entry.sup.now) page.old []
        result page.new }
{
    // After row 8 the super window is counted.
    let Some(counted) = l.super_window() else {
        return 0;
    };
    let mut writer = Writer {
        page,
        at: 0,
        begun: None,
    };
    writer.write_windows(maps, l.sup_wx_exempt, windows::windows_of(l, counted));
    writer.finish()
}

impl Writer<'_> {
    ghost use Rattle.annex.specs.Onward.{Onward, Across};

    // The slots of table 1 are in address order, and each has one window or none.
    fn write_windows(&mut self, maps: Maps<'_>, exempt: bool, ws: [Window; Layout::WINDOWS])
        requires placed { Placed ws }
        requires none_yet { self.old.at ≡ 0 }
        ensures same_page { self.new.page.ghost_name ≡ self.old.page.ghost_name }
        ensures few { self.new.at ≤ input_limit }
        ensures onward { (n : ℕ)
            → let f = granted_over maps.entry.base.now maps.entry.sup.now exempt ws in
            Onward self.old (runs_from f 0 (input_limit + n)) self.new (runs_from f input_limit n) }
    {
        let mut from = 0;
        while let Some(w) = next_window(ws, from) {
            self.write_window(maps, exempt, w);
            from = w.l1_index() + 1;
        }
    }

    // Data and supers go by their maps; an image is Rx, and a device Rw. Windows are told apart by document 01's codes.
    fn write_window(&mut self, maps: Maps<'_>, exempt: bool, w: Window)
        requires sited { Sited w }
        requires few { self.old.at ≤ w.ipa }
        ensures same_page { self.new.page.ghost_name ≡ self.old.page.ghost_name }
        ensures few_after { self.new.at ≤ w.ipa + w.span }
        ensures across { Across w.ipa w.span
            (λ i. granted_in (region_in maps.entry.base.now maps.entry.sup.now exempt w) (w.ipa + i))
            self.old self.new }
    {
        match w.code {
            1 => self.write_piece(w.ipa, w.span, window_reach::by_perm(w.pa, false, Perm::Rx)),
            2 => self.write_pieces(maps.base, w, Layout::PAGE_SIZE, false),
            3 => self.write_pieces(maps.sup, w, Layout::BLOCK_SIZE, exempt),
            _ => self.write_piece(w.ipa, w.span, window_reach::by_perm(w.pa, false, Perm::Rw)),
        }
    }

    // A window's pieces of one size, each by its entry; past the map there is none.
    fn write_pieces(&mut self, map: &[u8], w: Window, size: u64, exempt: bool)
        requires page_size_le_size { page_size ≤ size }
        requires input_bound { w.ipa + w.span ≤ input_limit }
        requires output_bound { w.pa + w.span ≤ board_limit }
        requires few { self.old.at ≤ w.ipa }
        ensures same_page { self.new.page.ghost_name ≡ self.old.page.ghost_name }
        ensures few_after { self.new.at ≤ w.ipa + w.span }
        ensures across { Across w.ipa (w.span / size * size)
            (λ i. by_entry (w.pa + i) exempt (get_or map.now (i / size) 0)) self.old self.new }
    {
        let count = map.len().min((w.span / size) as usize);
        for (p, entry) in map[..count].iter().enumerate() {
            if let Some(perm) = perm::entry_named(*entry) {
                let from = p as u64 * size;
                let reach = window_reach::by_perm(w.pa + from, exempt, perm);
                self.write_piece(w.ipa + from, size, reach);
            }
        }
    }

    // Addresses whose output is continuous.
    fn write_piece(&mut self, ipa: u64, size: u64, reach: Reach)
        requires page_size_le_size { page_size ≤ size }
        requires input_bound { ipa + size ≤ input_limit }
        requires few { self.old.at ≤ ipa }
        ensures same_page { self.new.page.ghost_name ≡ self.old.page.ghost_name }
        ensures few_after { self.new.at ≤ ipa + size }
        ensures onward { (rs : List Run) → Onward self.old (piece_before ipa (ipa + (size - 1)) (Some reach) rs) self.new rs }
    {
        self.add(Run {
            first: ipa,
            last: ipa + (size - 1),
            pa: reach.pa,
            perm: reach.perm,
            xn: reach.xn,
        });
    }

    // A run before those that follow: it is one with the one that has begun, or that one's line is put.
    fn add(&mut self, piece: Run)
        requires first_le_last { piece.first ≤ piece.last }
        requires at_le_input_limit { self.old.at ≤ input_limit }
        ensures same_page { self.new.page.ghost_name ≡ self.old.page.ghost_name }
        ensures few { self.new.at ≤ self.old.at + line_length }
        ensures onward { (rs : List Run) → Onward self.old (before piece rs) self.new rs }
    {
        if let Some(longer) = self.begun.and_then(|run| lengthened(run, piece)) {
            self.begun = Some(longer);
            return;
        }
        self.close();
        self.begun = Some(piece);
    }

    // The line of the run that has begun, where there is room for it.
    fn close(&mut self)
        requires { self.old.at ≤ input_limit }
        ensures same_page { self.new.page.ghost_name ≡ self.old.page.ghost_name }
        ensures at { self.new.at ≡ self.old.at + begun_length self.old.begun }
        ensures page { self.new.page.now ≡ line_at self.old.begun self.old.at self.old.page.now }
    {
        if let Some(run) = self.begun {
            text::put(&run.line(), self.page, self.at);
            self.at += Run::LINE;
        }
    }

    // The line of the run that is left, and the last line; returns the bytes of all.
    fn finish(&mut self) -> usize
        requires { self.old.at ≤ input_limit }
        ensures same_page { self.new.page.ghost_name ≡ self.old.page.ghost_name }
        ensures value { result ≡ self.old.at + begun_length self.old.begun + line_length }
        ensures page { self.new.page.now ≡ put_at last_line (line_at self.old.begun self.old.at self.old.page.now)
            (self.old.at + begun_length self.old.begun) }
    {
        self.close();
        text::put(&runs::last_line(), self.page, self.at);
        self.at + Run::LINE
    }
}

// The next window to go to: none that is present has a slot from this one on and before its slot.
fn next_window(ws: [Window; Layout::WINDOWS], from: u64) -> Option<Window>
    ensures { NextWindow ws from result }
{
    let mut next: Option<Window> = None;
    for w in ws {
        let slot = w.l1_index();
        if w.present && from <= slot && next.is_none_or(|n| slot < n.l1_index()) {
            next = Some(w);
        }
    }
    next
}

// The run and the next as one, where it goes on in that.
fn lengthened(run: Run, next: Run) -> Option<Run>
    requires { run.first ≤ run.last }
    ensures { result ≡ lengthened run next }
{
    goes_on(run, next).then_some(Run {
        last: next.last,
        ..run
    })
}

// Whether the next run begins where this one ends, in address and output, with equal access.
fn goes_on(run: Run, next: Run) -> bool
    requires { run.first ≤ run.last }
    ensures { result ≡ goes_on run next }
{
    next.first.checked_sub(run.last) == Some(1)
        && next.pa.checked_sub(run.pa) == Some(next.first - run.first)
        && run.perm == next.perm
        && run.xn == next.xn
}
