// Bytes put into a lent buffer, one part behind the other. `append` promises, for every buffer, place and part, the definition's bytes and the
// place behind them; a part that does not fit leaves the buffer as found.
#![tactic(auto)]

ghost use Rattle.std.specs.Prelude.{◌≡◌};
ghost use Rattle.buffer.specs.Buffer.{appended, place_behind};

// All of `part` into `out` from `at` on, if it fits: the place behind it.
pub fn append(out: &mut [u8], at: usize, part: &[u8]) -> usize
    ensures value { result ≡ place_behind out.old at part.now }
    ensures out_after { out.new ≡ appended out.old at part.now }
{
    if out.len() < part.len() {
        return at;
    }
    if out.len() - part.len() < at {
        return at;
    }
    let end = at + part.len();
    out[at..end].copy_from_slice(part);
    end
}
