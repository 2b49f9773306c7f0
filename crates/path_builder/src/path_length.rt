// What a path's atom is measured at, by either measure.
ghost use Rattle.std.specs.Prelude.{◌≡◌, ◌+◌, ◌^◌, ◌<◌};
ghost use Rattle.path.specs.Measure.{counted_bytes};
ghost use Rattle.path_builder.specs.Measured.{documented_bytes, measured_bytes};

use path::Measure;

// The number of bytes that the atom of a path of so many bytes is counted at; `full` says that the bits fill a single byte, which is not small.
// The ranges are the Rust's. `full` is a fact of the path, as its length is, and chooses no step: an enum of two would be no plainer.
pub fn counted_bytes(bytes: u32, full: bool) -> u32
    requires { bytes + 5 < 2 ^ 32 }
    ensures { result ≡ counted_bytes full bytes }
{
    match bytes {
        0 => 1,
        1 => { if full { 2 } else { 1 } }
        2..=0x3f => 1 + bytes,
        0x40..=0x1ff => 2 + bytes,
        0x200..=0xfffff => 3 + bytes,
        0x1000000..=0x7ffffff => 4 + bytes,
        _ => 5 + bytes,
    }
}

// The number of bytes that the documentation has for the atom of a path of so many bytes: a byte that the bits do not fill stands for itself, and all others
// have the shortest prefix that holds their size.
fn documented_bytes(bytes: u32, full: bool) -> u32
    requires { bytes + 5 < 2 ^ 32 }
    ensures { result ≡ documented_bytes full bytes }
{
    if bytes == 1 && !full {
        return 1;
    }
    bytes + atom::shortest_width(u64::from(bytes)) as u32
}

// The number of bytes that the atom of a path of so many bytes is measured at.
pub fn measured_bytes(measure: Measure, bytes: u32, full: bool) -> u32
    requires { bytes + 5 < 2 ^ 32 }
    ensures { result ≡ measured_bytes measure full bytes }
{
    match measure {
        Measure::Counted => counted_bytes(bytes, full),
        Measure::Documented => documented_bytes(bytes, full),
    }
}
