// The columns of a sheet, row by row.
ghost use Rattle.std.specs.Prelude.{length};
ghost use Rattle.text.specs.Text.{EqualCounts};

use crate::row::Row;

const MOST_TRAINS: usize = 64;

// The start, the run and the block of each train: as many of each, and at most 64.
#[derive(Clone, Copy)]
pub(crate) struct Columns<'a> {
    starts: &'a [u64],
    runs: &'a [u64],
    blocks: &'a [u64],
    ghost equal_counts: { EqualCounts (length starts.now) (length runs.now) (length blocks.now) },
}

impl<'a> Columns<'a> {
    ghost use Rattle.std.specs.Prelude.{◌≡◌, ◌+◌, ◌*◌, ◌≤◌, ◌<◌, is_some, IfSome};
    ghost use Rattle.text.specs.Columns.{lines_of};
    ghost use Rattle.text.specs.Row.{line_of};
    ghost use Rattle.text.specs.Text.{Placed, equal_counts, line_at};

    // None where the counts differ or exceed 64.
    pub(crate) fn new(starts: &'a [u64], runs: &'a [u64], blocks: &'a [u64]) -> Option<Columns<'a>>
        ensures counted { is_some result ≡ equal_counts (length starts.now) (length runs.now) (length blocks.now) }
        ensures same { IfSome result (λ c. (c.starts.now ≡ starts.now) × (c.runs.now ≡ runs.now) × (c.blocks.now ≡ blocks.now)) }
    {
        if starts.len() <= MOST_TRAINS
            && runs.len() == starts.len()
            && blocks.len() == starts.len()
        {
            Some(Columns {
                starts,
                runs,
                blocks,
            })
        } else {
            None
        }
    }

    #[tactic(auto, unfolding(crate::specs::Text::line_at))]
    fn row(self, k: usize) -> Row
        requires { k < length self.starts.now }
        ensures { line_of result ≡ line_at self.entry.starts.now self.entry.runs.now self.entry.blocks.now k }
    {
        Row {
            train: k as u64 + 1,
            start: self.starts[k],
            run: self.runs[k],
            block: self.blocks[k],
        }
    }

    // How many bytes the lines have. By numbers, here and below: of a zip of three columns it was not proved which row a turn has.
    pub(crate) fn text_length(self) -> usize
        ensures { (result ≡ length (lines_of self.entry)) × (result ≤ 84 * 64) }
    {
        let mut total = 0;
        for k in 0..self.starts.len() {
            total += self.row(k).length();
        }
        total
    }

    // Writes the lines where there is room, and returns the place behind them.
    pub(crate) fn write(self, buf: &mut [u8], at: usize) -> usize
        requires { at + length (lines_of self) ≤ length buf.old }
        ensures { Placed buf.old at (lines_of self.entry) result buf.new }
    {
        let mut next = at;
        for k in 0..self.starts.len() {
            next = self.row(k).write(buf, next);
        }
        next
    }
}
