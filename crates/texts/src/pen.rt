// Writers of a text into lent output. Each writes as much as there is room for and answers the place after that, so that none asks for
// room; `pen_then` (proofs) puts two of them together. Output and place are two parameters and no struct, since a type that holds a
// reference is its crate's own (tools/check-promises).
ghost use Rattle.std.specs.Prelude.{[], ◌∷◌};
ghost use Rattle.texts.specs.Pen.{Penned, WritesText};

// One character.
pub(crate) fn pen(out: &mut [u8], at: usize, c: u8) -> usize
    ensures { Penned out.old at (c ∷ []) result out.new }
{
    if at < out.len() {
        out[at] = c;
        return at + 1;
    }
    at
}

// All of `src`. A text that fits is copied with its own length, which the compiler knows of most texts. With the smaller of that and the room,
// which it does not know, a component of many small elements takes two fifths more time to explain.
pub fn write_text(out: &mut [u8], at: usize, src: &[u8]) -> usize
    ensures { WritesText out.old at src.now result out.new }
{
    if out.len() <= at {
        return at;
    }
    let room = out.len() - at;
    if src.len() <= room {
        out[at..at + src.len()].copy_from_slice(src);
        return at + src.len();
    }
    out[at..at + room].copy_from_slice(&src[..room]);
    at + room
}
