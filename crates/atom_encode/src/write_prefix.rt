// The prefix of an atom, written.
ghost use Rattle.std.specs.Prelude.{◌≡◌, ◌+◌, ◌^◌, ◌≤◌, ◌<◌, length};
ghost use Rattle.std.proofs.Math.Seq.{paste};
ghost use Rattle.atom.specs.Prefix.{mark, prefix};

use words::slices;

// The leading ones of a prefix of each width.
const MARK: [u64; 5] = [0x80, 0xc000, 0xe00000, 0xf0000000, 0xf800000000];

fn mark_of(width: usize) -> u64
    requires { (1 ≤ width) × (width ≤ 5) }
    ensures { result ≡ mark width }
{
    MARK[width - 1]
}

// The prefix of `width` bytes for a size, from `position` on; no bytes for the width 0.
pub fn write_prefix(output: &mut [u8], position: usize, width: usize, size: u64)
    requires { (width ≤ 5) × (size < 2 ^ 34) × (position + width ≤ length output.old) }
    ensures { output.new ≡ paste output.old position (prefix width size) width }
{
    if width == 0 {
        return;
    }
    let bytes = (mark_of(width) + size).to_be_bytes();
    slices::copy_bytes(&bytes[8 - width..], output, position);
}
