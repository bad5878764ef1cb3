// Reading to the end of the input. A failed read is told, and never taken for the end.
#![tactic(auto)]

ghost use Rattle.std.specs.Prelude.{length};
ghost use Rattle.input.specs.Input.{FaultOf, PartOf, PartWithin, InputWithin};

use std::io;
use std::io::{ErrorKind, Read};

// Why a read gave no bytes: a signal interrupted it, or it failed otherwise.
#[derive(Clone, Copy, Debug, PartialEq, Eq)]
pub enum ReadFault {
    Interrupted,
    Failed,
}

impl From<io::Error> for ReadFault {
    ghost from_gives = { λ e r. FaultOf e r };

    fn from(error: io::Error) -> ReadFault {
        if error.kind() == ErrorKind::Interrupted {
            ReadFault::Interrupted
        } else {
            ReadFault::Failed
        }
    }
}

// The most interrupted reads that are tried again: a proved loop has to end. One more counts as failed.
const MOST_INTERRUPTED: usize = 1000000;

// What the answer to a read into a buffer of this size says: a number of bytes, 0 at the end of the input.
fn part_of(got: io::Result<usize>, size: usize) -> Result<usize, ReadFault>
    ensures { PartOf got size result }
{
    Ok(got?.min(size))
}

// One read.
fn read_part<R: Read>(reader: &mut R, buf: &mut [u8]) -> Result<usize, ReadFault>
    ensures { PartWithin result (length buf.old) }
{
    part_of(reader.read(buf), buf.len())
}

// Reads until the input ends or the buffer is full; the number of bytes, which stand at the beginning of the buffer. A read that a signal
// interrupts is tried again.
pub fn read_all<R: Read>(reader: &mut R, buf: &mut [u8]) -> Result<usize, ReadFault>
    ensures { InputWithin result buf.new }
{
    let mut done = 0;
    let mut left = MOST_INTERRUPTED;
    // No for: a read gives a part of any length, or none.
    while done < buf.len() {
        match read_part(reader, &mut buf[done..]) {
            Ok(0) => return Ok(done),
            Ok(more) => done += more,
            Err(ReadFault::Interrupted) if 0 < left => left -= 1,
            Err(_) => return Err(ReadFault::Failed),
        }
    }
    Ok(done)
}
