// Places along the line, in m from point 0, and how many of them the head or the rear of a train has reached.
ghost use Rattle.std.specs.Prelude.{◌≡◌, ◌-◌, take};
ghost use Rattle.rules.specs.Count.{ceil_div};
ghost use Rattle.caps.specs.Caps.{in_use, places_of, limit_places, balise_places, past, last_place, place_ahead, rear_at, head_for};

use values::{Line, place_of};
use widths::narrow;

// The first `count` places are in use, at most 64; the others are 0. Nothing is allocated, so the array has a fixed size.
#[derive(Clone, Copy)]
pub struct Places {
    pub count: usize,
    pub at: [u32; 64],
}

impl Places {
    fn in_use(&self) -> &[u32]
        ensures { result.now ≡ take (in_use self.now.count) self.now.at }
    {
        &self.at[..self.count.min(64)]
    }

    // How many places are at most `reach`, one after the other, where the first k are known to be. A chain that skips the first k steps over
    // each of them, which is too slow for a sweep.
    pub(crate) fn passed(&self, k: usize, reach: u32) -> usize
        ensures { result ≡ past self.now.at (in_use self.now.count) k reach }
    {
        let places = self.in_use();
        for i in k..places.len() {
            if reach < places[i] {
                return i;
            }
        }
        k.max(places.len())
    }

    // The last of k places, but no more than 64; 0 where there is none.
    #[tactic(auto, unfolding(crate::specs::Caps::last_place))]
    pub(crate) fn last_of(&self, k: usize) -> u32
        ensures { result ≡ last_place self.now.at k }
    {
        self.at[..k.min(64)].last().copied().unwrap_or(0)
    }

    // The place that follows k others; beyond every place of a line where there is none, so that the least of several is one of them.
    #[tactic(auto, unfolding(crate::specs::Caps::place_ahead))]
    pub(crate) fn ahead(&self, k: usize) -> u32
        ensures { result ≡ place_ahead self.now.at (in_use self.now.count) k }
    {
        self.in_use().get(k).copied().unwrap_or(u32::MAX)
    }
}

// The places by points and the metres past each, of arrays of a fixed size: nothing is allocated. By numbers: a proof knows no entry of a zip over
// `iter_mut`.
fn places_of(points: &[u16; 64], metres: &[u16; 64], count: usize, step: u16) -> Places
    ensures { result ≡ places_of points.now metres.now (in_use count) step }
{
    let count = count.min(64);
    let mut at = [0; 64];
    for k in 0..count {
        at[k] = place_of(points[k], metres[k], step);
    }
    Places { count, at }
}

// The places at which the limits of a line begin, whatever it holds.
#[tactic(auto, unfolding(crate::specs::Caps::limit_places))]
pub fn limit_places(line: Line) -> Places
    ensures { result ≡ limit_places line }
{
    let points = line.limit_points;
    places_of(&points, &[0; 64], line.limit_count, line.step)
}

// The places of the balises of a line, whatever it holds.
#[tactic(auto, unfolding(crate::specs::Caps::balise_places))]
pub fn balise_places(line: Line) -> Places
    ensures { result ≡ balise_places line }
{
    let points = line.balise_points;
    let metres = line.balise_metres;
    places_of(&points, &metres, line.balise_count, line.step)
}

// The rear of a train with its head at x: its length has grown by 2 m and by 2 % of the distance from `from`.
pub(crate) fn rear_at(length: u16, from: u32, x: u32) -> u32
    ensures { result ≡ rear_at length from x }
{
    let distance = x.saturating_sub(from);
    let grown = u32::from(length) + 2 + distance.div_ceil(50);
    x.saturating_sub(grown)
}

// The first place of the head with which that rear has reached a place.
pub(crate) fn head_for(length: u16, from: u32, place: u32) -> u32
    ensures { result ≡ head_for length from place }
{
    let reached = 50 * (u64::from(place) + u64::from(length) + 2);
    narrow(reached.saturating_sub(u64::from(from)).div_ceil(49))
}

// The first point at a place or past it; 0 for a step of 0.
pub(crate) fn point_at(place: u32, step: u16) -> usize
    ensures { result ≡ ceil_div place step }
{
    if step == 0 {
        return 0;
    }
    (place as usize).div_ceil(usize::from(step))
}
