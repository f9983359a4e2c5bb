// `window_reach` for the comparison with the Rust, which alone links it: a layout's numbers and two maps in, the nine numbers of the
// answer out.
#![tactic(auto)]

ghost use Rattle.std.specs.Prelude.{◌≡◌};
ghost use Rattle.probe_windows.specs.Answer.{granted_answer};

use layout::Layout;
use lent_rows::Maps;

#[unsafe(no_mangle)]
pub extern "C" fn probe_windows(
    numbers: &[u64; Layout::NUMBERS],
    base: &[u8],
    sup: &[u8],
    ipa: u64,
    out: &mut [u64; 9],
)
    ensures { out.new ≡ granted_answer numbers.now base.now sup.now ipa }
{
    let layout = layout_numbers::layout_of(numbers);
    *out = refusal::words(window_reach::window_reach(Maps { base, sup }, layout, ipa));
}
