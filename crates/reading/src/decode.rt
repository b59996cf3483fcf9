// The line and a train decoded from bytes.
ghost use Rattle.std.specs.Prelude.{◌≡◌, ◌<◌};
ghost use Rattle.rules.specs.File.{record_size};
ghost use Rattle.reading.specs.Decoded.{decoded_file, decoded_train};

use crate::places::{
    BALISE_COUNT, BAND_COUNT, BLOCK_COUNT, CLASS_NUMBER, LENGTH_NUMBER, LIMIT_COUNT, POINT_COUNT,
    RELEASE_TIME, SET_UP_TIME, STEP_LENGTH, STOP_COUNT, line_places, record_places,
};
use crate::words::{word_at, words_at};
use values::{Line, Train, TrainClass};

// A file's line, T, and the place of its first train record.
#[derive(Clone, Copy)]
pub struct DecodedFile {
    pub line: Line,
    pub trains: usize,
    pub at: usize,
}

// Of each array the first 64 entries are taken.
pub fn decode_file(file: &[u8]) -> DecodedFile
    ensures { result ≡ decoded_file file.now }
{
    let limits = word_at(file, LIMIT_COUNT);
    let blocks = word_at(file, BLOCK_COUNT);
    let balises = word_at(file, BALISE_COUNT);
    let places = line_places(file);
    let line = Line {
        points: word_at(file, POINT_COUNT),
        step: word_at(file, STEP_LENGTH),
        set_up: word_at(file, SET_UP_TIME),
        release: word_at(file, RELEASE_TIME),
        limit_count: usize::from(limits),
        limit_points: words_at(file, places.limit_points, limits),
        limits: words_at(file, places.limits, limits),
        block_count: usize::from(blocks),
        block_starts: words_at(file, places.block_starts, blocks),
        block_ends: words_at(file, places.block_ends, blocks),
        balise_count: usize::from(balises),
        balise_points: words_at(file, places.balise_points, balises),
        balise_metres: words_at(file, places.balise_metres, balises),
    };
    DecodedFile {
        line,
        trains: usize::from(word_at(file, places.train_count)),
        at: places.trains,
    }
}

// The number of bytes of the record that the bytes begin with.
pub fn record_size(bytes: &[u8]) -> usize
    ensures { (result ≡ record_size bytes.now 0) × (result < 1000000) }
{
    record_places(bytes).end
}

// The train of the record that the bytes begin with. Of each array the first 64 entries are taken.
pub fn decode_train(bytes: &[u8]) -> Train
    ensures { result ≡ decoded_train bytes.now }
{
    let bands = word_at(bytes, BAND_COUNT);
    let stops = word_at(bytes, STOP_COUNT);
    let places = record_places(bytes);
    Train {
        class: TrainClass::from_number(word_at(bytes, CLASS_NUMBER)),
        length: word_at(bytes, LENGTH_NUMBER),
        band_count: usize::from(bands),
        tops: words_at(bytes, places.tops, bands),
        rates: words_at(bytes, places.rates, bands),
        stop_count: usize::from(stops),
        stops: words_at(bytes, places.stops, stops),
        dwells: words_at(bytes, places.dwells, stops),
    }
}
