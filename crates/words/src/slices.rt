// Lent slices of words and bytes, cleared and copied.
ghost use Rattle.std.specs.Prelude.{◌≡◌, ◌+◌, ◌≤◌, length, replicate, drop};
ghost use Rattle.std.proofs.Math.Seq.{paste};

// All elements are zero, which is what their type gives by itself.
pub fn clear<T: Copy + Default>(elements: &mut [T])
    ensures { (zero : T) → ((x : T) → T.is_default x → x ≡ zero) → elements.new ≡ replicate (length elements.old) zero }
{
    let zero = T::default();
    for i in 0..elements.len() {
        elements[i] = zero;
    }
}

// The bytes of `from` stand in `to` from `position` on; the rest of `to` is as it was. A loop, and no `copy_from_slice`: with a call of memcpy for
// each, sessions of thousands of short atoms took 10 % longer.
pub fn copy_bytes(from: &[u8], to: &mut [u8], position: usize)
    requires { position + length from.now ≤ length to.old }
    ensures { to.new ≡ paste to.old position from.now (length from.now) }
{
    for i in 0..from.len() {
        to[position + i] = from[i];
    }
}

// The `count` words from `from` on stand from `to` on too; the rest is as it was. Forward where that is right: the slices' `copy_within` goes backward to a
// higher place, and a session that saves many entries took 10 % longer.
pub fn copy_within(words: &mut [u32], from: usize, to: usize, count: usize)
    requires { (from + count ≤ length words.old) × (to + count ≤ length words.old) }
    ensures { words.new ≡ paste words.old to (drop from words.old) count }
{
    if from < to && to < from + count {
        words.copy_within(from..from + count, to);
        return;
    }
    for i in 0..count {
        words[to + i] = words[from + i];
    }
}
