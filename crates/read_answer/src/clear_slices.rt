// What the reading call clears.
ghost use Rattle.std.specs.Prelude.{◌≡◌};
ghost use Rattle.spec_reading.specs.Call.{zeroed};

use words::slices;

// The store is empty.
pub fn clear_store(pairs: &mut [u32], atoms: &mut [u32], bytes: &mut [u8])
    ensures { (pairs.new ≡ zeroed pairs.old)
        × (atoms.new ≡ zeroed atoms.old)
        × (bytes.new ≡ zeroed bytes.old) }
{
    slices::clear(pairs);
    slices::clear(atoms);
    slices::clear(bytes);
}

// A refused reading leaves nothing.
pub fn clear_all(work: &mut [u32], pairs: &mut [u32], atoms: &mut [u32], bytes: &mut [u8])
    ensures { (work.new ≡ zeroed work.old)
        × (pairs.new ≡ zeroed pairs.old)
        × (atoms.new ≡ zeroed atoms.old)
        × (bytes.new ≡ zeroed bytes.old) }
{
    slices::clear(work);
    clear_store(pairs, atoms, bytes);
}
