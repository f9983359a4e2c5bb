// The permission of a leaf (hv-s2's leafmap.rs), and an entry of a leaf map.
#![tactic(auto)]

ghost use Rattle.std.specs.Prelude.{◌≡◌};
ghost use Rattle.perm.specs.Perm.{perm_code, perm_writes, perm_executes, entry_code, entry_named};

// There is none that is writable and executable.
#[derive(Clone, Copy, PartialEq, Eq)]
pub enum Perm {
    Ro,
    Rw,
    Rx,
}

impl Perm {
    pub fn writable(self) -> bool
        ensures { result ≡ perm_writes self }
    {
        match self {
            Perm::Rw => true,
            Perm::Ro => false,
            Perm::Rx => false,
        }
    }

    pub fn executable(self) -> bool
        ensures { result ≡ perm_executes self }
    {
        match self {
            Perm::Rx => true,
            Perm::Ro => false,
            Perm::Rw => false,
        }
    }

    // The entry of a leaf map that says this permission.
    pub fn code(self) -> u8
        ensures { result ≡ perm_code self }
    {
        match self {
            Perm::Ro => 1,
            Perm::Rw => 2,
            Perm::Rx => 3,
        }
    }
}

// The entry that a byte of a map says: what is no permission's code is unmapped.
pub fn entry_named(code: u8) -> Option<Perm>
    ensures { result ≡ entry_named code }
{
    match code {
        1 => Some(Perm::Ro),
        2 => Some(Perm::Rw),
        3 => Some(Perm::Rx),
        _ => None,
    }
}

// The byte of a map that says an entry.
pub fn entry_code(entry: Option<Perm>) -> u8
    ensures { result ≡ entry_code entry }
{
    match entry {
        Some(perm) => perm.code(),
        None => 0,
    }
}
