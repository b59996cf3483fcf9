// The line and a train as the file's numbers, decoded once. Each count says how many entries of its arrays are in use: nothing is allocated,
// so the arrays have a fixed size.
use crate::class::TrainClass;

#[derive(Clone, Copy)]
pub struct Line {
    pub points: u16,
    // In m.
    pub step: u16,
    // In tenths of a second.
    pub set_up: u16,
    pub release: u16,
    // Limits in km/h.
    pub limit_count: usize,
    pub limit_points: [u16; 64],
    pub limits: [u16; 64],
    // As points.
    pub block_count: usize,
    pub block_starts: [u16; 64],
    pub block_ends: [u16; 64],
    // Balises: points, and the metres past each.
    pub balise_count: usize,
    pub balise_points: [u16; 64],
    pub balise_metres: [u16; 64],
}

#[derive(Clone, Copy)]
pub struct Train {
    pub class: TrainClass,
    // In m.
    pub length: u16,
    // Band tops in km/h, and rates in cm/s².
    pub band_count: usize,
    pub tops: [u16; 64],
    pub rates: [u16; 64],
    // Stop points, and dwells in seconds.
    pub stop_count: usize,
    pub stops: [u16; 64],
    pub dwells: [u16; 64],
}

impl Line {
    // What stands for a line where there is none.
    pub const NONE: Line = Line {
        points: 0,
        step: 0,
        set_up: 0,
        release: 0,
        limit_count: 0,
        limit_points: [0; 64],
        limits: [0; 64],
        block_count: 0,
        block_starts: [0; 64],
        block_ends: [0; 64],
        balise_count: 0,
        balise_points: [0; 64],
        balise_metres: [0; 64],
    };
}

impl Train {
    // What stands for a train where there is none.
    pub const NONE: Train = Train {
        class: TrainClass(0),
        length: 0,
        band_count: 0,
        tops: [0; 64],
        rates: [0; 64],
        stop_count: 0,
        stops: [0; 64],
        dwells: [0; 64],
    };
}
