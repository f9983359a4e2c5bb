// Frames by owner and kind (hv-core's p2m.rs), and the span of a table's leaves (hv-s2's leafmap.rs).
#![tactic(auto)]

ghost use Rattle.std.specs.Prelude.{◌≡◌};
ghost use Rattle.p2m.specs.Frame.{span_code, span_named, span_of_kind, owner_named, owner_of, kind_at};

// How much guest memory one leaf covers: a page or a block.
#[derive(Clone, Copy, PartialEq, Eq)]
pub enum Span {
    Base,
    Super,
}

impl Span {
    pub fn code(self) -> u32
        ensures { result ≡ span_code self }
    {
        match self {
            Span::Base => 1,
            Span::Super => 2,
        }
    }
}

// By its code: what is not super's is base.
impl From<u32> for Span {
    ghost from_gives = { λ code span. span ≡ span_named code };

    fn from(code: u32) -> Span {
        match code {
            2 => Span::Super,
            _ => Span::Base,
        }
    }
}

// The span of the leaves of a table of this kind.
pub fn span_of_kind(kind: u32) -> Option<Span>
    ensures { result ≡ span_of_kind kind }
{
    match kind {
        2 => Some(Span::Base),
        3 => Some(Span::Super),
        _ => None,
    }
}

// The domain that an owner number says. Above those of domains nobody's are.
pub fn owner_named(number: u32) -> Option<u16>
    ensures { result ≡ owner_named number }
{
    u16::try_from(number).ok()
}

// The owner of a frame: frames are rows of owner number and kind.
pub fn owner_of(frames: &[[u32; 2]], mfn: u32) -> Option<u16>
    ensures { result ≡ owner_of frames.now mfn }
{
    frames
        .get(mfn as usize)
        .and_then(|frame| owner_named(frame[0]))
}

// The kind of a frame, 0 past the list.
pub fn kind_of(frames: &[[u32; 2]], mfn: u32) -> u32
    ensures { result ≡ kind_at frames.now mfn }
{
    frames.get(mfn as usize).map_or(0, |frame| frame[1])
}

// The span of the leaves of a table.
pub fn span_of_table(frames: &[[u32; 2]], parent: u32) -> Option<Span>
    ensures { result ≡ span_of_kind (kind_at frames.now parent) }
{
    span_of_kind(kind_of(frames, parent))
}
