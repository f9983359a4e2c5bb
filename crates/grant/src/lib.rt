// Grants as records (hv-s2's check.rs), and what one of them covers.
#![tactic(auto)]

ghost use Rattle.std.specs.Prelude.{◌≡◌};
ghost use Rattle.grant.specs.Grant.{grant_of, covers};

// The owner `grantor` lets `grantee` reach `frame`. Both are owner numbers.
#[derive(Clone, Copy)]
pub struct Grant {
    pub grantor: u32,
    pub grantee: u32,
    pub frame: u32,
    pub writable: bool,
}

// From a row of its four fields; of the flag zero is no and all else yes.
impl From<[u32; 4]> for Grant {
    ghost from_gives = { λ row g. g ≡ grant_of row };

    fn from(row: [u32; 4]) -> Grant {
        let [grantor, grantee, frame, writable] = row;
        Grant {
            grantor,
            grantee,
            frame,
            writable: writable != 0,
        }
    }
}

impl Grant {
    // Whether it lets `dom` read frame `mfn` of `owner`, or also write it. A grant for writing covers reading. The frame tells
    // most grants apart, so it comes first.
    #[tactic(auto, unfolding(crate::specs::Grant::covers))]
    pub fn covers(self, owner: u16, dom: u16, mfn: u32, writable: bool) -> bool
        ensures { result ≡ covers owner dom mfn writable self }
    {
        self.frame == mfn
            && self.grantee == u32::from(dom)
            && self.grantor == u32::from(owner)
            && (!writable || self.writable)
    }
}
