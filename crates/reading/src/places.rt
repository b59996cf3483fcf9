// Where each number of a line file stands, and each number of a train record in the record's own bytes.
ghost use Rattle.reading.specs.Places.{IsLinePlaces, IsRecordPlaces};

use crate::words::word_at;

// The sizes of the line.
pub(crate) const POINT_COUNT: usize = 0;

pub(crate) const STEP_LENGTH: usize = 2;

pub(crate) const LIMIT_COUNT: usize = 4;

pub(crate) const BLOCK_COUNT: usize = 6;

pub(crate) const SET_UP_TIME: usize = 8;

pub(crate) const RELEASE_TIME: usize = 10;

pub(crate) const BALISE_COUNT: usize = 12;

const SIZES_END: usize = 14;

// The sizes of a train record.
pub(crate) const CLASS_NUMBER: usize = 0;

pub(crate) const LENGTH_NUMBER: usize = 2;

pub(crate) const BAND_COUNT: usize = 4;

pub(crate) const STOP_COUNT: usize = 6;

const TOPS: usize = 8;

// The arrays of the line, T, and the first train record.
#[derive(Clone, Copy)]
pub(crate) struct LinePlaces {
    pub limit_points: usize,
    pub limits: usize,
    pub block_starts: usize,
    pub block_ends: usize,
    pub balise_points: usize,
    pub balise_metres: usize,
    pub train_count: usize,
    pub trains: usize,
}

// The arrays of a train record, and the place past it.
#[derive(Clone, Copy)]
pub(crate) struct RecordPlaces {
    pub tops: usize,
    pub rates: usize,
    pub stops: usize,
    pub dwells: usize,
    pub end: usize,
}

pub(crate) fn line_places(file: &[u8]) -> LinePlaces
    ensures { IsLinePlaces file.now result }
{
    let limits = 2 * usize::from(word_at(file, LIMIT_COUNT));
    let blocks = 2 * usize::from(word_at(file, BLOCK_COUNT));
    let balises = 2 * usize::from(word_at(file, BALISE_COUNT));
    let block_starts = SIZES_END + limits + limits;
    let balise_points = block_starts + blocks + blocks;
    let train_count = balise_points + balises + balises;
    LinePlaces {
        limit_points: SIZES_END,
        limits: SIZES_END + limits,
        block_starts,
        block_ends: block_starts + blocks,
        balise_points,
        balise_metres: balise_points + balises,
        train_count,
        trains: train_count + 2,
    }
}

pub(crate) fn record_places(bytes: &[u8]) -> RecordPlaces
    ensures { IsRecordPlaces bytes.now result }
{
    let bands = 2 * usize::from(word_at(bytes, BAND_COUNT));
    let stops = 2 * usize::from(word_at(bytes, STOP_COUNT));
    let stops_at = TOPS + bands + bands;
    RecordPlaces {
        tops: TOPS,
        rates: TOPS + bands,
        stops: stops_at,
        dwells: stops_at + stops,
        end: stops_at + stops + stops,
    }
}
