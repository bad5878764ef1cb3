// What the programs that read a plan share: plan records from a reader, and a text to a stream. A failed read or write is told on another
// stream, in the line that the program gives; where that fails too, nothing more is told.
#![tactic(auto)]

ghost use Rattle.input.specs.Input.{InputWithin};

use input::ReadFault;
use std::io::Read;

// Reads until the input ends or the buffer is full.
pub fn read_records<R: Read, E: Print>(
    reader: &mut R,
    errors: &E,
    failed: &[u8],
    bytes: &mut [u8],
) -> Result<usize, ReadFault>
    ensures { InputWithin result bytes.new }
{
    let got = input::read_all(reader, bytes);
    if got.is_err() {
        let _ = errors.write_all(failed);
    }
    got
}

// Writes a text.
pub fn write_text<O: Print, E: Print>(output: &O, errors: &E, failed: &[u8], text: &[u8]) {
    if output.write_all(text).is_err() {
        let _ = errors.write_all(failed);
    }
}
