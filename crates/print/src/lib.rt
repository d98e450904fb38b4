// What the two programs do with a stream: they print bytes, and a number after some, and read it into a row.
#![tactic(auto)]

ghost use Rattle.std.specs.Prelude.{◌++◌};
ghost use Rattle.print.specs.Printing.{Prints};
ghost use Rattle.print.specs.Filling.{Fills};

use itoa::Buffer;
pub use itoa::Integer;
use std::io;
use std::io::{ErrorKind, Read, Write};

// Prints the bytes, or at an `Err` only the first of them.
// Stays: std's write_all says nothing of the bytes at an `Err`, which `Prints` does.
#[tactic(auto, using(crate::proofs::Appending::appends_more))]
pub fn text<W: Write>(out: &mut W, bytes: &[u8]) -> io::Result<()>
    ensures { Prints (W.contents out.old) (W.contents out.new) bytes.now result }
{
    let mut done = 0;
    while done < bytes.len() {
        let n = out.write(&bytes[done..])?;
        if n == 0 {
            return Err(io::Error::from(ErrorKind::WriteZero));
        }
        done += n;
    }
    Ok(())
}

// The bytes, and a number after them: its text is `decimal n`, or `signed_decimal n` of a signed type.
// common_steps is for the edits: their forms are proved with it where they print the right bytes.
#[tactic(auto, using(crate::proofs::Appending::prints_then, crate::proofs::Appending::prints_failed, std::proofs::lemmas::Grind::common_steps))]
pub fn number<W: Write, N: Integer>(out: &mut W, before: &[u8], n: N) -> io::Result<()>
    ensures { Prints (W.contents out.old) (W.contents out.new) (before.now ++ N.text n) result }
{
    text(out, before)?;
    let mut buffer = Buffer::new();
    let digits = buffer.format(n);
    text(out, digits.as_bytes())
}

// Reads until the row is full or the stream ends; how many bytes it put at the row's front.
// Stays: std's read_exact fails where the stream ends early, which is no failure here.
#[tactic(auto, using(crate::proofs::Taking::taken_more))]
pub fn read_full<R: Read>(input: &mut R, row: &mut [u8]) -> io::Result<usize>
    ensures { Fills (R.remaining input.old) (R.remaining input.new) row.new result }
{
    let mut done = 0;
    while done < row.len() {
        let n = input.read(&mut row[done..])?;
        if n == 0 {
            return Ok(done);
        }
        done += n;
    }
    Ok(done)
}
