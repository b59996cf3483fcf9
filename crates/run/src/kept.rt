// Roots that a run has met, kept so that they are not found again.
ghost use Rattle.std.specs.Prelude.{◌≡◌, ◌≤◌, ◌<◌};
ghost use Rattle.rules.specs.Time.{root as root_of};
ghost use Rattle.roots.specs.Root.{as_root};

use roots::{RootAnswer, is_root, root, root_from};
use values::SquaredSpeed;

// A squared speed and its root.
#[derive(Clone, Copy)]
pub(crate) struct Rooted {
    pub squared: SquaredSpeed,
    pub root: RootAnswer,
    pub ghost is_root: { (as_root root ≡ root_of squared.0) × (root.speed.0 ≤ 65535) },
}

impl Rooted {
    pub(crate) fn of(w: SquaredSpeed) -> Rooted
        ensures { result.squared.0 ≡ w.0 }
    {
        Rooted {
            squared: w,
            root: root(w),
        }
    }
}

// The numbers of the roots met last, each at the place of its squared speed.
#[derive(Drop)]
pub(crate) struct KeptRoots {
    numbers: [u16; 1024],
}

// Of the places for roots, that of w. Any place would do.
fn place_of(w: SquaredSpeed) -> usize
    ensures { result < 1024 }
{
    (w.0 / 4099) as usize % 1024
}

impl KeptRoots {
    // Where no root has been met: any numbers would do, since each is tested before it is taken.
    pub(crate) fn none() -> KeptRoots {
        KeptRoots { numbers: [0; 1024] }
    }

    // The root of w: from the number kept at its place, if that is its root's, else found and kept there.
    fn root_kept(&mut self, w: SquaredSpeed) -> RootAnswer
        ensures { (as_root result ≡ root_of w.0) × (result.speed.0 ≤ 65535) }
    {
        let place = place_of(w);
        let guess = self.numbers[place];
        if is_root(guess, w) {
            return root_from(guess, w);
        }
        let found = root(w);
        self.numbers[place] = found.speed.0 as u16;
        found
    }

    // The root of w, which comes next behind `before`.
    pub(crate) fn root_after(&mut self, before: Rooted, w: SquaredSpeed) -> Rooted
        ensures { result.squared.0 ≡ w.0 }
    {
        if w.0 == before.squared.0 {
            return before;
        }
        Rooted {
            squared: w,
            root: self.root_kept(w),
        }
    }
}
