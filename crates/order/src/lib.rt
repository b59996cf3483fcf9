// The order of two trains in every block.
#![tactic(auto)]

ghost use Rattle.std.specs.Prelude.{◌≡◌, ◌+◌, leb};
ghost use Rattle.order.specs.Clear.{clear_of};

// The train ahead has left a block before the one behind comes. No sum is formed, since it may not fit.
fn leaves_before(ahead: u64, end: u64, behind: u64, begin: u64) -> bool
    ensures { result ≡ leb (ahead + end) (behind + begin) }
{
    if ahead <= behind {
        end.saturating_sub(begin) <= behind - ahead
    } else {
        ahead - behind <= begin.saturating_sub(end)
    }
}

// The train ahead has left every block before the one behind comes: by the start and the ends of the one, the start and the beginnings of the other.
pub fn clear_of(ahead: u64, ends: &[u64], behind: u64, begins: &[u64]) -> bool
    ensures { result ≡ clear_of ahead ends.now behind begins.now }
{
    ends.iter()
        .zip(begins)
        .all(|(end, begin)| leaves_before(ahead, *end, behind, *begin))
}
