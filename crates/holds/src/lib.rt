// What crosses between the calls as it lies in memory: the hold record of a train, which the hold call gives and which is added to a sheet, and the sheet.
#![tactic(auto)]

#[repr(C)]
#[derive(Clone, Copy)]
pub struct HoldRecord {
    pub blocks: u64,
    // In microseconds, a place for each block; those beyond the block count are not read.
    pub begins: [u64; 32],
    pub ends: [u64; 32],
}

impl HoldRecord {
    // What stands for a hold record where there is none: the answer for C has one on a refusal too.
    pub const NONE: HoldRecord = HoldRecord {
        blocks: 0,
        begins: [0; 32],
        ends: [0; 32],
    };
}

// For each block its free time, and the beginning of the first train's hold.
#[repr(C)]
#[derive(Clone, Copy)]
pub struct Sheet {
    pub blocks: u64,
    pub trains: u64,
    pub free: [u64; 32],
    pub first: [u64; 32],
}
