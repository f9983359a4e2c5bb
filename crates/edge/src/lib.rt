// Page-table edges as records (hv-s2's leafmap.rs), and what one of them says.
#![tactic(auto)]

ghost use Rattle.std.specs.Prelude.{◌≡◌};
ghost use Rattle.edge.specs.Edge.{edge_of, perm_of, owns, counts};

use perm::Perm;

// A page-table entry: slot `slot` of table `parent` references `child`. Callers in C and Rust lend arrays of it.
#[repr(C)]
#[derive(Clone, Copy)]
pub struct Edge {
    pub parent: u32,
    pub slot: u32,
    pub child: u32,
    pub writable: bool,
    pub leaf: bool,
    pub execute: bool,
}

// From a row of its six fields; of the flags zero is no and all else yes.
impl From<[u32; 6]> for Edge {
    ghost from_gives = { λ row e. e ≡ edge_of row };

    fn from(row: [u32; 6]) -> Edge {
        let [parent, slot, child, writable, leaf, execute] = row;
        Edge {
            parent,
            slot,
            child,
            writable: writable != 0,
            leaf: leaf != 0,
            execute: execute != 0,
        }
    }
}

impl Edge {
    // No leaf is writable and executable: writable wins.
    pub fn perm(self) -> Perm
        ensures { result ≡ perm_of self }
    {
        if self.writable {
            return Perm::Rw;
        }
        if self.execute {
            return Perm::Rx;
        }
        Perm::Ro
    }

    // Only leaves map a frame, and only those of tables that the domain owns map it for the domain.
    #[tactic(auto, unfolding(crate::specs::Edge::counts))]
    pub fn counts(self, frames: &[[u32; 2]], dom: u16) -> bool
        ensures { result ≡ counts frames.now dom self }
    {
        if !self.leaf {
            return false;
        }
        owns(frames, self.parent, dom)
    }
}

// Whether the domain owns the frame. A domain's number is its owner number, and above those nobody's are.
#[tactic(auto, unfolding(crate::specs::Edge::owns))]
pub fn owns(frames: &[[u32; 2]], mfn: u32, dom: u16) -> bool
    ensures { result ≡ owns frames.now dom mfn }
{
    frames
        .get(mfn as usize)
        .is_some_and(|frame| frame[0] == dom as u32)
}
