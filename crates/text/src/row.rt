// A line of the sheet.
ghost use Rattle.std.specs.Prelude.{◌≡◌, ◌+◌, ◌≤◌, length};
ghost use Rattle.text.specs.Row.{line_of};
ghost use Rattle.text.specs.Text.{Placed};

use crate::lengths::decimal_length;
use crate::pieces::write_field;

// A train, counted from 1, and its start, its running time and its block.
#[derive(Clone, Copy)]
pub(crate) struct Row {
    pub(crate) train: u64,
    pub(crate) start: u64,
    pub(crate) run: u64,
    pub(crate) block: u64,
}

impl Row {
    // How many bytes its line has.
    #[tactic(auto, using(rules::proofs::Lengths::line_length))]
    pub(crate) fn length(self) -> usize
        ensures { (result ≡ length (line_of self)) × (result ≤ 84) }
    {
        decimal_length(self.train)
            + decimal_length(self.start)
            + decimal_length(self.run)
            + decimal_length(self.block)
            + 4
    }

    // Writes its line where there is room, and returns the place behind it.
    #[tactic(auto, using(rules::proofs::Lengths::line_fields))]
    pub(crate) fn write(self, buf: &mut [u8], at: usize) -> usize
        requires { at + length (line_of self) ≤ length buf.old }
        ensures { Placed buf.old at (line_of self) result buf.new }
    {
        let second = write_field(buf, at, self.train, b' ');
        let third = write_field(buf, second, self.start, b' ');
        let fourth = write_field(buf, third, self.run, b' ');
        write_field(buf, fourth, self.block, b'\n')
    }
}
