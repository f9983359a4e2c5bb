// Replays the Rust's recorded answers on leaf maps. A line of the input is a call in 16 numbers: which of the three it is, the domain,
// the span, base and super, four edges, five frames and two grants. The port's nine answers are printed in the same form, after a
// filling with both maps, and must be the Rust's, which are the expected output.
#![tactic(auto)]

use p2m::Span;
use refusal::Refusal;
use std::io;
use std::io::{Read, Write};

fn main(rt: HostRuntime) -> io::Result<()> {
    replay_lines::each_line(&mut rt.stdin(), &mut rt.stdout(), replay_line)
}

// Whether there was a whole line.
fn replay_line<R: Read, W: Write>(input: &mut R, output: &mut W) -> io::Result<bool> {
    let Some(numbers) = replay_lines::read_array(input)? else {
        return Ok(false);
    };
    Call::of(numbers).replay(output)?;
    Ok(true)
}

#[derive(Drop)]
struct Call {
    which: u64,
    dom: u16,
    span: Span,
    base: [u8; 8],
    sup: [u8; 8],
    edges: [[u32; 6]; 4],
    frames: [[u32; 2]; 5],
    grants: [[u32; 4]; 2],
}

impl Call {
    fn of(numbers: [u64; 16]) -> Self {
        let [
            which,
            dom,
            span,
            base,
            sup,
            e0,
            e1,
            e2,
            e3,
            f0,
            f1,
            f2,
            f3,
            f4,
            g0,
            g1,
        ] = numbers;
        Self {
            which,
            dom: (dom % 0x1_0000) as u16,
            span: Span::from((span % 0x1_0000_0000) as u32),
            base: replay_lines::bytes(base),
            sup: replay_lines::bytes(sup),
            edges: [e0, e1, e2, e3].map(edge),
            frames: [f0, f1, f2, f3, f4].map(frame),
            grants: [g0, g1].map(grant),
        }
    }

    fn replay<W: Write>(&self, output: &mut W) -> io::Result<()> {
        match self.which {
            1 => self.fill(output),
            2 => print_answer(
                output,
                authority::check_authorized_with(self.dom, &self.base, &self.frames, &self.grants),
            ),
            _ => print_answer(
                output,
                exact::check_exact(self.dom, &self.base, self.span, &self.edges, &self.frames),
            ),
        }
    }

    fn fill<W: Write>(&self, output: &mut W) -> io::Result<()> {
        let mut base = self.base;
        let mut sup = self.sup;
        let answer = leafmap::leaf_map_from_edges(
            &self.edges,
            &self.frames,
            self.dom,
            &mut base,
            &mut sup,
        );
        print_answer(output, answer)?;
        replay_lines::print_line(output, &base.map(u64::from))?;
        replay_lines::print_line(output, &sup.map(u64::from))
    }
}

// Eight bits for each of parent and slot, sixteen for the child, eight for each of writable, leaf and execute.
fn edge(n: u64) -> [u32; 6] {
    let [parent, slot, low, high, writable, leaf, execute, _] = replay_lines::bytes(n);
    let child = u16::from_le_bytes([low, high]);
    [
        parent as u32,
        slot as u32,
        child as u32,
        writable as u32,
        leaf as u32,
        execute as u32,
    ]
}

// Owner number and kind, 32 bits each.
fn frame(n: u64) -> [u32; 2] {
    [(n % 0x1_0000_0000) as u32, (n >> 32) as u32]
}

// Twenty bits for each of grantor and grantee, sixteen for the frame, eight for writable.
fn grant(n: u64) -> [u32; 4] {
    [
        (n % 0x10_0000) as u32,
        ((n >> 20) % 0x10_0000) as u32,
        ((n >> 40) % 0x1_0000) as u32,
        (n >> 56) as u32,
    ]
}

fn print_answer<W: Write>(output: &mut W, answer: Result<(), Refusal>) -> io::Result<()> {
    replay_lines::print_line(output, &refusal::words(answer))
}
