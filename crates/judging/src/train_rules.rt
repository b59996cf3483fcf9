// Rules 3 and 7 to 9, of a train on a line.
ghost use Rattle.std.specs.Prelude.{◌≡◌};
ghost use Rattle.rules.specs.Refusal.{refusal, train_numbers, sizes_on, bands_rule, stops_rule, last_block_rule, train_rules_by};
ghost use Rattle.refusals.specs.Number.{refused_by};
ghost use Rattle.values.specs.Values.{as_line, as_train};
ghost use Rattle.judging.specs.Sized.{Sized, Counted};
ghost use Rattle.judging.specs.Kept.{kept_on, both_keep};

use crate::line_rules::line_sized;
use crate::numbers::{all_within, is_within, rises_by};
use refusals::Refusal;
use values::{Line, Train, train_cells};

// Rule 3 of a class, a length, A and S.
pub fn train_sizes(class: usize, length: usize, bands: usize, stops: usize) -> bool
    ensures { result ≡ train_numbers class length bands stops }
{
    is_within(class, 0, 2)
        && is_within(length, 1, 1000)
        && is_within(bands, 1, 8)
        && is_within(stops, 0, 32)
}

// Rule 3 of one train on a line.
pub(crate) fn sized_on(line: Line, train: Train) -> bool
    ensures { result ≡ sizes_on (as_line line) (as_train train) }
{
    line_sized(line, 1)
        && train_sizes(
            usize::from(train.class.0),
            usize::from(train.length),
            train.band_count,
            train.stop_count,
        )
}

// Rule 7.
fn bands_kept(train: Train) -> bool
    requires { Counted train }
    ensures { result ≡ bands_rule (as_train train) }
{
    // Copied before they are lent, here and below, as in the rules of a line.
    let tops = train.tops;
    let rates = train.rates;
    let tops = &tops[..train.band_count];
    let rates = &rates[..train.band_count];
    rises_by(1, tops) && all_within(tops, 1, 300) && all_within(rates, 1, 200)
}

// Rule 8.
fn stops_kept(line: Line, train: Train) -> bool
    requires { Sized line × Counted train }
    ensures { result ≡ stops_rule (as_line line) (as_train train) }
{
    let stops = train.stops;
    let dwells = train.dwells;
    let stops = &stops[..train.stop_count];
    let dwells = &dwells[..train.stop_count];
    rises_by(2, stops) && all_within(stops, 0, line.points - 1) && all_within(dwells, 0, 3600)
}

// Rule 9.
fn last_block_kept(line: Line, train: Train) -> bool
    requires { Sized line }
    ensures { result ≡ last_block_rule (as_line line) (as_train train) }
{
    let end = usize::from(line.block_ends[line.block_count - 1]);
    end + train_cells(line, train) <= usize::from(line.points) - 1
}

// Which of the rules 3 and 7 to 9 a train keeps, or each of some trains.
#[derive(Clone, Copy)]
pub struct TrainKept {
    pub sizes: bool,
    pub bands: bool,
    pub stops: bool,
    pub last_block: bool,
}

impl TrainKept {
    pub const ALL: TrainKept = TrainKept {
        sizes: true,
        bands: true,
        stops: true,
        last_block: true,
    };

    // Of a train that breaks rule 3: a set of tests that all fail, in place of no value.
    pub const NONE: TrainKept = TrainKept {
        sizes: false,
        bands: false,
        stops: false,
        last_block: false,
    };

    // What these trains and the others keep.
    pub fn and(self, other: TrainKept) -> TrainKept
        ensures { result ≡ both_keep self other }
    {
        TrainKept {
            sizes: self.sizes && other.sizes,
            bands: self.bands && other.bands,
            stops: self.stops && other.stops,
            last_block: self.last_block && other.last_block,
        }
    }

    // The first broken rule of 7 to 9.
    pub fn check(self) -> Result<(), Refusal>
        ensures { refused_by result ≡ refusal (train_rules_by self.bands self.stops self.last_block) }
    {
        Refusal::Bands.unless(self.bands)?;
        Refusal::Stops.unless(self.stops)?;
        Refusal::LastBlock.unless(self.last_block)
    }
}

// What a train on a line keeps, whatever the two hold; nothing where it does not keep rule 3.
pub fn train_kept(line: Line, train: Train) -> TrainKept
    ensures { result ≡ kept_on (as_line line) (as_train train) }
{
    if !sized_on(line, train) {
        return TrainKept::NONE;
    }
    TrainKept {
        sizes: true,
        bands: bands_kept(train),
        stops: stops_kept(line, train),
        last_block: last_block_kept(line, train),
    }
}
