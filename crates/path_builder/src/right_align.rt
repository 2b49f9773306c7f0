// Right-aligns a path's bytes in place. The store is lent.
ghost use Rattle.std.specs.Prelude.{◌≡◌, ◌+◌, ◌≤◌, ◌<◌, length, take, drop};
ghost use Rattle.path.specs.Bytes.{value, all_bits};
ghost use Rattle.path_builder.specs.Aligned.{Aligned};

// Byte i, with all bits up to it shifted to the right by r places.
fn shifted(store: &[u8], i: usize, r: u8) -> u8
    requires { (i < length store.now) × (0 < r) × (r < 8) }
    ensures { result ≡ value (take 8 (drop r (all_bits (take (i + 1) store.now)))) }
{
    let x = store[i] >> r;
    if i == 0 {
        return x;
    }
    x + (store[i - 1] << (8 - r))
}

// Shifts the first n bytes to the right by r places, from the last byte down.
pub fn right_align(store: &mut [u8], n: usize, r: u8)
    requires { (n ≤ length store.old) × (0 < r) × (r < 8) }
    ensures { Aligned store.old n r store.new }
{
    for j in (0..n).rev() {
        store[j] = shifted(store, j, r);
    }
}
