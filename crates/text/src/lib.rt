// The sheet program's text in lent bytes: the sheet of some trains, or a refusal. A text that does not fit is not written.
#![tactic(auto)]

mod columns;
mod lengths;
mod pieces;
mod row;

ghost use Rattle.std.specs.Prelude.{◌≡◌, length, IfOk};
ghost use Rattle.refusals.specs.Number.{refused_by};
ghost use Rattle.rules.specs.Calls.{lent_after};
ghost use Rattle.rules.specs.Text.{refusal_text};
ghost use Rattle.text.specs.Text.{rows_text, room_refusal, sheet_refusal};

use columns::Columns;
use lengths::decimal_length;
use pieces::{write_bytes, write_field};
use refusals::Refusal;

const HEADER: &[u8] = b"train start run block\n";

const REFUSED: &[u8] = b"refused ";

// The header, and a line for each train, by how many bytes are written. Refused by 11 where the counts differ or exceed 64, or where the text
// does not fit.
pub fn put_sheet(
    buf: &mut [u8],
    starts: &[u64],
    runs: &[u64],
    blocks: &[u64],
) -> Result<usize, Refusal>
    ensures refusal { refused_by result ≡ sheet_refusal starts.now runs.now blocks.now (length buf.old) }
    ensures count { IfOk result (λ bytes. bytes ≡ length (rows_text starts.now runs.now blocks.now)) }
    ensures bytes { buf.new
        ≡ lent_after (sheet_refusal starts.now runs.now blocks.now (length buf.old))
        (rows_text starts.now runs.now blocks.now) buf.old }
{
    let columns = Columns::new(starts, runs, blocks).ok_or(Refusal::TooLittleRoom)?;
    Refusal::TooLittleRoom.unless(HEADER.len() + columns.text_length() <= buf.len())?;
    let at = write_bytes(buf, 0, HEADER);
    Ok(columns.write(buf, at))
}

// "refused ", the number and a line feed, by how many bytes are written. The number is any, since the contract's `refusal_text` speaks of any.
// Refused by 11 where the text does not fit.
pub fn put_refusal(buf: &mut [u8], number: u64) -> Result<usize, Refusal>
    ensures refusal { refused_by result ≡ room_refusal (refusal_text number) (length buf.old) }
    ensures count { IfOk result (λ bytes. bytes ≡ length (refusal_text number)) }
    ensures bytes { buf.new ≡ lent_after (room_refusal (refusal_text number) (length buf.old)) (refusal_text number) buf.old }
{
    // the word, the digits and the line feed
    let text = REFUSED.len() + decimal_length(number) + 1;
    Refusal::TooLittleRoom.unless(text <= buf.len())?;
    let at = write_bytes(buf, 0, REFUSED);
    Ok(write_field(buf, at, number, b'\n'))
}
