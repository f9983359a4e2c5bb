// What the comparison with the Rust links: probe's answers, by one C call.
#![tactic(auto)]

ghost use Rattle.std.specs.Prelude.{◌≡◌};
ghost use Rattle.probe.specs.Answers.{answer_of};

#[unsafe(no_mangle)]
pub extern "C" fn probe(op: u32, x: &[u64; 8], out: &mut [u64; 8])
    ensures { out.new ≡ answer_of op x.now }
{
    *out = probe::answer(op, x);
}
