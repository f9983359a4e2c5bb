// What the windows say that an address reaches (hv-s2's arm64.rs, `window_reach`): no descriptor is looked at.
#![tactic(auto)]

ghost use Rattle.std.specs.Prelude.{◌+◌, ◌-◌, ◌/◌, ◌≤◌, ◌<◌, true, map, Some, ◌≡◌, get_or};
ghost use Rattle.accepted_facts.specs.Accepted.{Within};
ghost use Rattle.accepted_facts.specs.Guarded.{Guarded};
ghost use Rattle.layout.specs.Size.{board_limit};
ghost use Rattle.perm.specs.Perm.{perm_code, entry_named};
ghost use Rattle.refusal.specs.All.{All};
ghost use Rattle.refusal.specs.Table.{first};
ghost use Rattle.refusal.specs.Told.{told_of, after};
ghost use Rattle.rows.specs.Rows.{guard_rows};
ghost use Rattle.window_reach.specs.Granted.{device_region, contains, by_entry, granted_by, granted};

use layout::{Layout, Window};
use lent_rows::Maps;
use perm::Perm;
use reach::Reach;
use refusal::Refusal;

// Rows 2 to 14 come first: the sums below serve accepted layouts alone.
#[tactic(auto, using(accepted_facts::proofs::Guarded::guarded_facts))]
pub fn window_reach(maps: Maps<'_>, l: Layout, ipa: u64) -> Result<Option<Reach>, Refusal>
    ensures { told_of result
        ≡ after (first (guard_rows board_limit maps.entry.base.now maps.entry.sup.now l))
        (granted l maps.entry.base.now maps.entry.sup.now ipa) }
{
    guard::guard_maps_at(Layout::BOARD_LIMIT, maps, l)?;
    Ok(reach_in(maps, l, ipa))
}

#[tactic(auto, unfolding(crate::specs::Granted::granted_by))]
fn reach_in(maps: Maps<'_>, l: Layout, ipa: u64) -> Option<Reach>
    requires { Guarded board_limit maps.base.now maps.sup.now l }
    ensures { result ≡ granted l maps.entry.base.now maps.entry.sup.now ipa }
{
    let image = l.image_window();
    if inside(image, ipa) {
        return Some(grant(image, ipa, false, Perm::Rx));
    }
    let data = l.data_window();
    if inside(data, ipa) {
        let perm = entry_of(maps.base, data, ipa, Layout::PAGE_SIZE)?;
        return Some(grant(data, ipa, false, perm));
    }
    // After row 8 the super window is counted.
    let supers = l.super_window()?;
    if inside(supers, ipa) {
        let perm = entry_of(maps.sup, supers, ipa, Layout::BLOCK_SIZE)?;
        return Some(grant(supers, ipa, l.sup_wx_exempt, perm));
    }
    reach_device(l.devices(), ipa)
}

fn reach_device(ds: [Window; Layout::DEVICES], ipa: u64) -> Option<Reach>
    requires { All (λ w. w.present ≡ true → Within board_limit w) ds }
    ensures { result ≡ granted_by (map device_region ds) ipa }
{
    let w = ds.iter().find(|w| inside(**w, ipa))?;
    Some(grant(*w, ipa, false, Perm::Rw))
}

fn inside(w: Window, ipa: u64) -> bool
    ensures { result ≡ contains w ipa }
{
    w.present && w.ipa <= ipa && ipa - w.ipa < w.span
}

// The entry of the piece that holds the address.
fn entry_of(map: &[u8], w: Window, ipa: u64, piece: u64) -> Option<Perm>
    requires ipa_value { contains w ipa ≡ true }
    requires piece_nonzero { 0 < piece }
    ensures { result ≡ entry_named (get_or map.now ((ipa - w.ipa) / piece) 0) }
{
    perm::entry_named(map_entries::entry_at(map, ((ipa - w.ipa) / piece) as usize))
}

// The same offset from the output base.
fn grant(w: Window, ipa: u64, exempt: bool, perm: Perm) -> Reach
    requires ipa_value { contains w ipa ≡ true }
    requires span_bound { w.pa + w.span ≤ board_limit }
    ensures { Some result ≡ by_entry (w.pa + (ipa - w.ipa)) exempt (perm_code perm) }
{
    by_perm(w.pa + (ipa - w.ipa), exempt, perm)
}

// An output address by an entry of a leaf map: what is no permission's code reaches nothing.
pub fn by_entry(pa: u64, exempt: bool, entry: u8) -> Option<Reach>
    ensures { result ≡ by_entry pa exempt entry }
{
    let perm = perm::entry_named(entry)?;
    Some(by_perm(pa, exempt, perm))
}

// The same by an entry that is mapped.
pub fn by_perm(pa: u64, exempt: bool, perm: Perm) -> Reach
    ensures { Some result ≡ by_entry pa exempt (perm_code perm) }
{
    let leaf = desc::leaf_access_xn(perm, exempt);
    Reach {
        pa,
        perm: leaf.access,
        xn: leaf.xn,
    }
}
