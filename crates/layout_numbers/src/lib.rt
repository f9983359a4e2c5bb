// The layout that board code's numbers say.
#![tactic(auto)]

ghost use Rattle.std.specs.Prelude.{◌≡◌};
ghost use Rattle.layout.specs.Layout.{layout_of};

use layout::Layout;

// The fields in their order, with whether there is an image just before the image.
#[tactic(auto, unfolding(layout::specs::Layout::layout_of))]
pub fn layout_of(x: &[u64; Layout::NUMBERS]) -> Layout
    ensures { result ≡ layout_of x.now }
{
    let [
        l1_pa,
        l2_code_pa,
        l2_data_pa,
        l3_data_pa,
        l2_sup_pa,
        l2_dev_pa,
        present,
        image,
        data_ipa_base,
        data_pa_base,
        frame_size,
        sup_ipa_base,
        sup_pa_base,
        device_base,
        device_len,
        exempt,
        sup_frames,
    ] = *x;
    Layout {
        l1_pa,
        l2_code_pa,
        l2_data_pa,
        l3_data_pa,
        l2_sup_pa,
        l2_dev_pa,
        guest_image_pa: layout::image_of(present, image),
        data_ipa_base,
        data_pa_base,
        frame_size,
        sup_ipa_base,
        sup_pa_base,
        device_base,
        device_len,
        sup_wx_exempt: exempt != 0,
        sup_frames,
    }
}
