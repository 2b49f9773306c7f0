// de_br.rs: a serialized tree with references is read into a store.
#![tactic(auto)]

mod read_items;

ghost use Rattle.std.specs.Prelude.{◌≡◌, true, ◌≤◌, length};
ghost use Rattle.spec_reading.specs.Store.{read_stored};
ghost use Rattle.spec_reading.specs.Call.{long_enough, after, reading};
ghost use Rattle.spec_reading.specs.Promise.{ReadsPlainly};
ghost use Rattle.read_answer.specs.Answer.{slices};
ghost use Rattle.read_call.specs.Outcome.{read_result_of, Counted, ended};

use read_answer::{ReadAnswer, clear_slices};
use read_item::{ReadError, Reader};
use words::slices;

// The answer after the items: the store stays as it was read, or everything is cleared.
fn ended(
    work: &mut [u32],
    pairs: &mut [u32],
    atoms: &mut [u32],
    bytes: &mut [u8],
    outcome: Result<Reader, ReadError>,
) -> ReadAnswer
    requires { Counted work.old outcome }
    ensures { read_result_of result work.new pairs.new atoms.new bytes.new
        ≡ ended outcome (slices work.old pairs.old atoms.old bytes.old) }
{
    match outcome {
        Ok(r) => {
            let a = read_answer::answer(work, r);
            slices::clear(work);
            a
        }
        Err(error) => {
            clear_slices::clear_all(work, pairs, atoms, bytes);
            read_answer::refusal(u32::from(error))
        }
    }
}

// Reading past the questions 1 and 2.
fn read_in(
    input: &[u8],
    work: &mut [u32],
    pairs: &mut [u32],
    atoms: &mut [u32],
    bytes: &mut [u8],
) -> ReadAnswer
    requires { (long_enough (slices work.old pairs.old atoms.old bytes.old) ≡ true) × (length input.now ≤ 65535) }
    ensures { read_result_of result work.new pairs.new atoms.new bytes.new
        ≡ after (read_stored input.now)
        (slices work.old pairs.old atoms.old bytes.old) }
{
    clear_slices::clear_store(pairs, atoms, bytes);
    let outcome = read_items::read_all(input, work, pairs, atoms, bytes);
    ended(work, pairs, atoms, bytes, outcome)
}

// Reads a serialized tree into a fresh, empty store. The slices are lent: work, and the pairs, atoms and atom bytes of the store.
pub fn nikvoldra_read(
    input: &[u8],
    work: &mut [u32],
    pairs: &mut [u32],
    atoms: &mut [u32],
    bytes: &mut [u8],
) -> ReadAnswer
    ensures bytes_after { read_result_of result work.new pairs.new atoms.new bytes.new
        ≡ reading input.now
        (slices work.old pairs.old atoms.old bytes.old) }
    ensures reads_plainly { ReadsPlainly input.now
        (read_result_of result work.new pairs.new atoms.new bytes.new) }
{
    // The numbers of the two questions are those of the C interface, and stand here alone.
    if !read_answer::long_enough(work, pairs, atoms, bytes) {
        return read_answer::refusal(1);
    }
    if 65535 < input.len() {
        return read_answer::refusal(2);
    }
    read_in(input, work, pairs, atoms, bytes)
}
