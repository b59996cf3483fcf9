// The 16-bit numbers in bytes.
ghost use Rattle.std.specs.Prelude.{◌≡◌, ◌<◌};
ghost use Rattle.rules.specs.Count.{entry, padded};
ghost use Rattle.rules.specs.File.{word, words};

// A byte past the end counts as 0.
fn byte_at(bytes: &[u8], at: usize) -> u8
    ensures { result ≡ entry bytes.now at }
{
    bytes.get(at).copied().unwrap_or(0)
}

// The unsigned 16-bit number at a place, low byte first.
pub(crate) fn word_at(bytes: &[u8], at: usize) -> u16
    requires { at < 2000000 }
    ensures { (result ≡ word bytes.now at) × (result < 65536) }
{
    if at + 1 < bytes.len() {
        u16::from_le_bytes([bytes[at], bytes[at + 1]])
    } else {
        u16::from(byte_at(bytes, at))
    }
}

// The first n of the numbers that stand from a place on, but no more than 64; the places behind them are 0. By numbers: of
// the library's `from_fn` it was not proved that it leaves the bytes as they are.
pub(crate) fn words_at(bytes: &[u8], at: usize, n: u16) -> [u16; 64]
    requires { at < 1000000 }
    ensures { result ≡ padded 64 (words bytes.now at n) }
{
    let mut numbers = [0; 64];
    for i in 0..usize::from(n).min(64) {
        numbers[i] = word_at(bytes, at + 2 * i);
    }
    numbers
}
