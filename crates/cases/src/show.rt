// Printing: an outcome, and a row after its name.
use print::Integer;
use rules::Outcome;
use std::io;
use std::io::Write;

// status, count and head
pub(crate) fn outcome<W: Write>(out: &mut W, o: Outcome) -> io::Result<()> {
    let h = o.head;
    let s = h.sizes;
    let (status, count) = match o.count {
        Ok(count) => (0, count),
        Err(refused) => (usize::from(refused), 0),
    };
    print::number(out, b"status ", status)?;
    print::number(out, b" count ", count)?;
    print::number(out, b" head n=", s.n)?;
    print::number(out, b" m=", s.m)?;
    print::number(out, b" l=", s.l)?;
    print::number(out, b" cap=", s.cap)?;
    print::number(out, b" free=", h.free)?;
    print::number(out, b" zct=", h.zct)?;
    print::number(out, b" mrt=", h.mrt)?;
    print::text(out, b"\n")
}

pub(crate) fn row<W: Write, N: Integer>(out: &mut W, name: &[u8], row: &[N]) -> io::Result<()> {
    print::text(out, name)?;
    for x in row {
        print::number(out, b" ", *x)?;
    }
    print::text(out, b"\n")
}
