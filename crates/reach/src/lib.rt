// What an address reaches, as an answer (hv-s2's arm64.rs, `Reach`).
#![tactic(auto)]

ghost use Rattle.std.specs.Prelude.{◌≡◌};
ghost use Rattle.perm.specs.Perm.{perm_writes};
ghost use Rattle.reach.specs.Reach.{reach_values};

use perm::Perm;
use refusal::Told;

// The output byte, the access, Ro or Rw, and whether it is execute never.
#[derive(Clone, Copy)]
pub struct Reach {
    pub pa: u64,
    pub perm: Perm,
    pub xn: bool,
}

impl Reach {
    pub fn writable(self) -> bool
        ensures { result ≡ perm_writes self.perm }
    {
        self.perm.writable()
    }
}

impl Told for Reach {
    ghost values = { reach_values };

    fn words(self) -> [u64; 9] {
        [
            0,
            1,
            self.pa,
            self.perm.code() as u64,
            self.xn as u64,
            0,
            0,
            0,
            0,
        ]
    }
}
