// Whether a domain may reach every frame that a map maps (hv-s2's check.rs).
#![tactic(auto)]

ghost use Rattle.std.specs.Prelude.{ℕ, ◌≤◌, ◌<◌, List, [], map, ◌≡◌, length, get_or};
ghost use Rattle.authority.specs.Authority.{reach_rows, authority_rows};
ghost use Rattle.authority.specs.Widest.{widest_at, own_by, widest_by, asked, all_within, held_rows, noted};
ghost use Rattle.grant.specs.Grant.{grant_of};
ghost use Rattle.layout.specs.Size.{entries};
ghost use Rattle.p2m.specs.Frame.{owner_of};
ghost use Rattle.refusal.specs.Outcome.{outcome_of};
ghost use Rattle.refusal.specs.Table.{first, each_from};

use grant::Grant;
use layout::Layout;
use perm::Perm;
use refusal::{Refusal, first};

// Each mapped frame is the domain's own, or granted by its owner for the mapped access. Grants are rows of their four fields.
#[tactic(auto, using(refusal::proofs::Sequence::in_turn, lent_rows::proofs::Read::read_length), unfolding(crate::specs::Authority::authority_rows))]
pub fn check_authorized_with(
    dom: u16,
    leaves: &[u8],
    frames: &[[u32; 2]],
    grants: &[[u32; 4]],
) -> Result<(), Refusal>
    ensures { outcome_of result ≡ first
        (authority_rows frames.now (map grant_of grants.now) dom leaves.now) }
{
    lent_rows::read_map(1, leaves)?;
    all_reached(dom, leaves, frames, grants)
}

// Rows 23 and 24, of every entry. The pass that finds no frame has no branch to take, and an authorized map needs no other.
#[tactic(auto, using(crate::proofs::Owned::none_mapped))]
fn all_reached(
    dom: u16,
    leaves: &[u8],
    frames: &[[u32; 2]],
    grants: &[[u32; 4]],
) -> Result<(), Refusal>
    requires { length leaves.now ≤ entries }
    ensures { outcome_of result ≡ first
        (each_from (reach_rows frames.now (map grant_of grants.now) dom) 0 leaves.now) }
{
    // A map that maps nothing needs no frame looked up.
    if map_entries::largest(leaves) == 0 {
        return Ok(());
    }
    let widest = widest_entries(dom, frames, grants);
    if all_within(leaves, &widest) {
        return Ok(());
    }
    first::each_from(leaves, |m, entry| {
        held(dom, m, entry, widest.get(m).copied().unwrap_or(0), frames)
    })
}

// Rows 23 and 24, of one entry, by the widest that its frame may have. Where reading is granted, the entry was for writing.
#[tactic(auto, unfolding(refusal::specs::Table::first))]
fn held(dom: u16, m: usize, entry: u8, widest: u8, frames: &[[u32; 2]]) -> Result<(), Refusal>
    ensures { outcome_of result ≡ first (held_rows widest dom m entry (owner_of frames.now m)) }
{
    let Some(perm) = perm::entry_named(entry) else {
        return Ok(());
    };
    if asked(entry) <= widest {
        return Ok(());
    }
    match frames.get(m).and_then(|frame| p2m::owner_named(frame[0])) {
        Some(owner) if widest != 0 => Err(Refusal::WriteEscalation {
            dom: dom as u64,
            mfn: m as u64,
            owner: owner as u64,
        }),
        owner => Err(Refusal::UnauthorizedMapping {
            dom: dom as u64,
            mfn: m as u64,
            owner,
            perm,
        }),
    }
}

fn all_within(leaves: &[u8], widest: &[u8]) -> bool
    ensures { result ≡ all_within leaves.now widest.now }
{
    leaves
        .iter()
        .zip(widest)
        .fold(true, |within, (entry, most)| {
            within & (asked(*entry) <= *most)
        })
}

// Execution is granted with reading.
fn asked(entry: u8) -> u8
    ensures { result ≡ asked entry }
{
    if entry == Perm::Rx.code() {
        return Perm::Ro.code();
    }
    entry
}

// The widest entry of each frame of a map, in one pass over the grants, where the Rust goes through them once for each frame.
fn widest_entries(dom: u16, frames: &[[u32; 2]], grants: &[[u32; 4]]) -> [u8; Layout::ENTRIES]
    ensures { (m : ℕ) → m < entries → get_or result m 0 ≡ widest_at frames.now (map grant_of grants.now) dom m }
{
    let mut widest = own_entries(dom, frames);
    for g in grants {
        note(&mut widest, Grant::from(*g), dom, frames);
    }
    widest
}

// Before any grant: the domain's own frames. `edge::owns` would look for the list's end at each frame, and this loop has no branch.
fn own_entries(dom: u16, frames: &[[u32; 2]]) -> [u8; Layout::ENTRIES]
    ensures { (m : ℕ) → m < entries → get_or result m 0 ≡ widest_at frames.now [] dom m }
{
    let mut widest = [0; Layout::ENTRIES];
    let listed = &frames[..frames.len().min(Layout::ENTRIES)];
    for (m, frame) in listed.iter().enumerate() {
        widest[m] = own_entry(dom, *frame);
    }
    widest
}

// A domain's number is its owner number.
fn own_entry(dom: u16, frame: [u32; 2]) -> u8
    ensures { result ≡ own_by dom frame }
{
    if frame[0] == dom as u32 {
        return Perm::Rw.code();
    }
    0
}

// After one grant more, which takes nothing back.
fn note(widest: &mut [u8], g: Grant, dom: u16, frames: &[[u32; 2]])
    ensures { widest.new ≡ noted frames.now dom widest.old g }
{
    let frame = g.frame as usize;
    if frame < widest.len() {
        widest[frame] = widest[frame].max(granted_entry(g, dom, frames));
    }
}

// The widest entry of a grant's own frame by that grant alone. What nobody owns nobody can grant.
#[tactic(auto, unfolding(crate::specs::Widest::widest_by))]
fn granted_entry(g: Grant, dom: u16, frames: &[[u32; 2]]) -> u8
    ensures { result ≡ widest_by frames.now dom g.frame g }
{
    let Some(owner) = p2m::owner_of(frames, g.frame) else {
        return 0;
    };
    if g.covers(owner, dom, g.frame, true) {
        return Perm::Rw.code();
    }
    if g.covers(owner, dom, g.frame, false) {
        return Perm::Ro.code();
    }
    0
}
