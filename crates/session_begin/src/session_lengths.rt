// Question 1 of a session call: the lengths of its slices.
ghost use Rattle.std.specs.Prelude.{◌≡◌};
ghost use Rattle.session_begin.specs.Lengths.{are_long};

// Question 1, of the lengths of the slices: are they long enough?
pub fn long_enough(work: usize, words: usize, records: usize) -> bool
    ensures { result ≡ are_long work words records }
{
    words::WORK <= work && 3072 <= words && 16 <= records
}
