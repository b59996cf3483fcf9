// The cap speed of a train under way: the lowest of the limits that its grown length covers and its last band's top. The head, the tail and the
// balises only move forward along the line.
#![tactic(auto)]

mod places;

ghost use Rattle.std.specs.Prelude.{◌≡◌, min};
ghost use Rattle.std.specs.List.{fold};
ghost use Rattle.caps.specs.Caps.{lowest_limit, covering, covered_at};

pub use places::{Places, balise_places, limit_places};
use places::{head_for, point_at, rear_at};
use values::place_of;

// What does not change along the line: where the limits begin and each in km/h, the places of the balises, the step and the train's length in
// m, and its last band's top in km/h.
#[derive(Clone, Copy)]
pub struct Course {
    pub limits_at: Places,
    pub limits: [u16; 64],
    pub balises_at: Places,
    pub step: u16,
    pub length: u16,
    pub top: u32,
}

// How many limits the head and the tail have reached, and how many balises the head. `lowest` is the lowest of the limits covered and the last
// band's top, in km/h. All are the same at the points before `until`.
#[derive(Clone, Copy)]
pub struct Covered {
    pub head: usize,
    pub tail: usize,
    pub balises: usize,
    pub lowest: u32,
    pub until: usize,
}

impl Covered {
    // Before point 0: the first limit alone is reached, and nothing is known of any point.
    pub const START: Covered = Covered {
        head: 1,
        tail: 1,
        balises: 0,
        lowest: 0,
        until: 0,
    };
}

// The lowest of the top and some limits.
fn lowest_of(limits: &[u16], top: u32) -> u32
    ensures { result ≡ fold min top limits.now }
{
    limits
        .iter()
        .map(|limit| u32::from(*limit))
        .fold(top, u32::min)
}

impl Course {
    // The lowest of the top and the limits from the tail's to the head's.
    fn lowest_limit(&self, tail: usize, head: usize) -> u32
        ensures { result ≡ lowest_limit self.now.limits self.now.top tail head }
    {
        let reached = &self.limits[..head.min(64)];
        let first = tail.saturating_sub(1).min(reached.len());
        lowest_of(&reached[first..], self.top)
    }

    // What is covered once the head and the tail have reached so many limits and the head so many balises.
    fn cover(&self, head: usize, tail: usize, balises: usize) -> Covered
        ensures { result ≡ covering self.now head tail balises }
    {
        let from = self.balises_at.last_of(balises);
        let by_head = self.limits_at.ahead(head);
        let by_tail = head_for(self.length, from, self.limits_at.ahead(tail));
        let by_balise = self.balises_at.ahead(balises);
        Covered {
            head,
            tail,
            balises,
            lowest: self.lowest_limit(tail, head),
            until: point_at(by_head.min(by_balise.min(by_tail)), self.step),
        }
    }

    // What is covered with the head at a point, from what was covered before.
    pub fn covered_at(&self, point: u16, before: Covered) -> Covered
        ensures { result ≡ covered_at self.now point before }
    {
        let x = place_of(point, 0, self.step);
        let balises = self.balises_at.passed(before.balises, x);
        let rear = rear_at(self.length, self.balises_at.last_of(balises), x);
        let head = self.limits_at.passed(before.head, x);
        let tail = self.limits_at.passed(before.tail, rear);
        self.cover(head, tail, balises)
    }
}
