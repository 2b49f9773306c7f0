// Numbers of 16 bits in work, two to a word. Half 0 of a word is its low one, half 1 its high one.
ghost use Rattle.std.specs.Prelude.{◌≡◌, ◌^◌, ◌<◌, length};
ghost use Rattle.words.specs.Words.{at};
ghost use Rattle.work_layout.specs.Halves.{half, with_half, HalfSet};

// Half h of a word.
fn half_of(word: u32, h: usize) -> u32
    requires { h < 2 }
    ensures { result ≡ half h word }
{
    if h == 0 { word % 65536 } else { word / 65536 }
}

// The word with half h set to v.
fn with_half(word: u32, h: usize, v: u32) -> u32
    requires { (h < 2) × (v < 2 ^ 16) }
    ensures { result ≡ with_half h word v }
{
    if h == 0 {
        word / 65536 * 65536 + v
    } else {
        v * 65536 + word % 65536
    }
}

// Half h of word k.
pub fn half_at(work: &[u32], k: usize, h: usize) -> u32
    requires { (k < length work.now) × (h < 2) }
    ensures { result ≡ half h (at work.now k) }
{
    half_of(work[k], h)
}

// Half h of word k is set to v; its other half, and every other word, stays.
pub fn set_half(work: &mut [u32], k: usize, h: usize, v: u32)
    requires { (k < length work.old) × (h < 2) × (v < 2 ^ 16) }
    ensures { HalfSet work.old work.new k h v }
{
    work[k] = with_half(work[k], h, v);
}
