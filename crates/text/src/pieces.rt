// Bytes and fields, written where there is room. Each call returns the place behind what it wrote.
ghost use Rattle.std.specs.Prelude.{◌+◌, ◌≤◌, length};
ghost use Rattle.rules.specs.Text.{field};
ghost use Rattle.text.specs.Text.{Placed};

#[tactic(auto, unfolding(rules::specs::Calls::written))]
pub(crate) fn write_bytes(buf: &mut [u8], at: usize, text: &[u8]) -> usize
    requires { at + length text.now ≤ length buf.old }
    ensures { Placed buf.old at text.now result buf.new }
{
    let past = at + text.len();
    buf[at..past].copy_from_slice(text);
    past
}

// The digits before the last one, with the last one behind them, are a field too.
#[tactic(auto, using(crate::proofs::Placed::field_some, crate::proofs::Placed::field_longer))]
pub(crate) fn write_field(buf: &mut [u8], at: usize, n: u64, mark: u8) -> usize
    requires { at + length (field n mark) ≤ length buf.old }
    ensures { Placed buf.old at (field n mark) result buf.new }
{
    if n < 10 {
        buf[at] = b'0' + n as u8;
        buf[at + 1] = mark;
        return at + 2;
    }
    let next = write_field(buf, at, n / 10, b'0' + (n % 10) as u8);
    buf[next] = mark;
    next + 1
}
