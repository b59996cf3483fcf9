// Numbers of eight bytes, low byte first, and files.
ghost use Rattle.std.specs.Prelude.{◌≡◌, ◌+◌, ◌*◌, ◌<◌, ◌≤◌, length, take, drop, slice_index, EachIndex, IfOk, OnOk, IfSome, IfNone, Some};
ghost use Rattle.std.specs.Io.{ReadsAtMost};
ghost use Rattle.std.specs.Io.KnownBytes.{Consumes, IsAtEnd};
ghost use Rattle.cases.specs.Input.{number_of, file_of, number_at};

use std::io;
use std::io::Read;

// Reads until the part is full or the input has ended, and returns how many bytes it put at the part's start.
pub fn read_full<R: Read>(input: &mut R, part: &mut [u8]) -> io::Result<usize>
    ensures bound { ReadsAtMost result part.new }
    ensures bytes { IfOk result (λ n. Consumes (R.remaining input.old) (R.remaining input.new) (take n part.new)) }
    ensures end { IfOk result (λ n. n < length part.new → IsAtEnd (R.remaining input.new)) }
{
    let mut done = 0;
    // A read gives as many bytes as it will, so no index is counted here; std's read_exact says nothing of an input that ends early.
    while done < part.len() {
        match input.read(&mut part[done..])? {
            0 => break,
            n => done += n,
        }
    }
    Ok(done)
}

// The bytes that are missing where the input has ended count as 0.
pub fn read_number<R: Read>(input: &mut R) -> io::Result<u64>
    ensures number { IfOk result (λ n. IfSome (R.remaining input.old) (λ xs. 8 ≤ length xs → n ≡ number_of xs)) }
    ensures rest { OnOk result (IfSome (R.remaining input.old) (λ xs. R.remaining input.new ≡ Some (drop 8 xs))) }
{
    let mut bytes = [0; 8];
    read_full(input, &mut bytes)?;
    Ok(u64::from_le_bytes(bytes))
}

// A number for each place.
pub fn read_numbers<R: Read>(input: &mut R, numbers: &mut [u64]) -> io::Result<()>
    ensures { OnOk result (IfSome (R.remaining input.old) (λ xs. 8 * length numbers.new ≤ length xs
        → EachIndex numbers.new (λ k. slice_index numbers.new k ≡ number_at xs k))) }
{
    for number in numbers.iter_mut() {
        *number = read_number(input)?;
    }
    Ok(())
}

// A file behind its length, where there is space for it. The bytes that are missing where the input has ended are those of the space.
pub fn read_file<'a, R: Read>(input: &mut R, space: &'a mut [u8]) -> io::Result<Option<&'a [u8]>>
    ensures read { IfOk result (λ o. IfSome o (λ file. IfSome (R.remaining input.old) (λ xs. 8 + length file.now ≤ length xs → file.now ≡ file_of xs))) }
    ensures longer { IfOk result (λ o. IfNone o (IfSome (R.remaining input.old) (λ xs. 8 ≤ length xs → length space.old < number_of xs))) }
{
    let length = read_number(input)?;
    match space.get_mut(..length as usize) {
        Some(file) => {
            read_full(input, file)?;
            Ok(Some(file))
        }
        None => Ok(None),
    }
}
