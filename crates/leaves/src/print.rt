// What this program alone writes.
use std::io;
use std::io::Write;

pub fn bad_record<W: Write>(out: &mut W) -> io::Result<()> {
    out.write_all(b"bad record\n")
}

pub fn none<W: Write>(out: &mut W) -> io::Result<()> {
    out.write_all(b"none")
}
