// The stops of a train under way, gone through once in the order of their points.
#![tactic(auto)]

ghost use Rattle.std.specs.Prelude.{◌≡◌};
ghost use Rattle.stops.specs.Stops.{stop_number, stop_from, stop_ahead, point_of, dwell_here};

// The number of a stop and its point.
#[derive(Clone, Copy)]
pub struct Stop {
    pub number: usize,
    pub point: usize,
}

// The first stop from number `next` on that is at point i or later.
fn stop_from(stops: &[u16], next: usize, i: usize) -> Option<Stop>
    ensures { result ≡ stop_from stops.now next i }
{
    stops
        .iter()
        .enumerate()
        .skip(next)
        .map(|(number, point)| Stop {
            number,
            point: usize::from(*point),
        })
        .find(|stop| i <= stop.point)
}

pub fn first_stop(stops: &[u16]) -> Option<Stop>
    ensures { result ≡ stop_number stops.now 0 }
{
    stop_from(stops, 0, 0)
}

// The first stop at point i or later, where `before` is the first at an earlier point or later.
#[tactic(auto, unfolding(crate::specs::Stops::stop_ahead))]
pub fn stop_ahead(stops: &[u16], before: Option<Stop>, i: usize) -> Option<Stop>
    ensures { result ≡ stop_ahead stops.now before i }
{
    let stop = before?;
    if i <= stop.point {
        before
    } else {
        stop_from(stops, stop.number, i)
    }
}

// The point of a stop, or `end` where no stop is left. A loop over the points tests this number alone at each: to test the stop itself makes it
// a third to a half longer.
pub fn point_of(stop: Option<Stop>, end: usize) -> usize
    ensures { result ≡ point_of stop end }
{
    stop.map_or(end, |stop| stop.point)
}

// The dwell in microseconds where the stop is at point i, else 0. The dwell at point 0 does not count.
#[tactic(auto, unfolding(crate::specs::Stops::dwell_here))]
pub fn dwell_at(dwells: &[u16], stop: Option<Stop>, i: usize) -> u64
    ensures { result ≡ dwell_here dwells.now stop i }
{
    match stop {
        Some(stop) if stop.point == i && i != 0 => {
            1000000 * dwells.get(stop.number).map_or(0, |dwell| u64::from(*dwell))
        }
        _ => 0,
    }
}
