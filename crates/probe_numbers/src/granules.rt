// granule and sizes by numbers: each by the code of its field.
ghost use Rattle.std.specs.Prelude.{◌≡◌};
ghost use Rattle.granule.specs.Granule.{granule_named};
ghost use Rattle.granule.specs.StartLevel.{level_named};
ghost use Rattle.probe_numbers.specs.Granules.{granule_numbers, start_level_numbers, size_numbers, width_named, width_numbers};
ghost use Rattle.sizes.specs.Codes.{size_named};

use crate::eight;
use granule::{Granule, StartLevel};
use sizes::{PaSize, VmidBits};

pub fn granule(tg0: u64) -> [u64; 8]
    ensures { result ≡ granule_numbers (granule_named tg0) }
{
    let Some(g) = Granule::from_tg0(tg0) else {
        return [0; 8];
    };
    eight([1, g.page_bits().into(), g.level_bits().into(), g.tg0()])
}

pub fn start_level(sl0: u64) -> [u64; 8]
    ensures { result ≡ start_level_numbers (level_named sl0) }
{
    let Some(l) = StartLevel::from_sl0(sl0) else {
        return [0; 8];
    };
    eight([
        1,
        l.number().into(),
        l.sl0(),
        l.span(Granule::K4).into(),
        l.span(Granule::K16).into(),
        l.span(Granule::K64).into(),
    ])
}

pub fn pa_size(ps: u64) -> [u64; 8]
    ensures { result ≡ size_numbers (size_named ps) }
{
    let Some(s) = PaSize::from_ps(ps) else {
        return [0; 8];
    };
    eight([1, s.ps()])
}

pub fn width_named(vs: u64) -> Option<VmidBits>
    ensures { result ≡ width_named vs }
{
    match vs {
        0 => Some(VmidBits::B8),
        1 => Some(VmidBits::B16),
        _ => None,
    }
}

pub fn vmid_bits(vs: u64) -> [u64; 8]
    ensures { result ≡ width_numbers (width_named vs) }
{
    let Some(b) = width_named(vs) else {
        return [0; 8];
    };
    eight([1, b.vs(), b.count().into()])
}
