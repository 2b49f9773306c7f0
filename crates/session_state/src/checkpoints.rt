// The checkpoint records of a session, in a lent slice of structs: one for each add that an undo can take back.
ghost use Rattle.std.specs.Prelude.{◌≡◌, ◌++◌, ◌≤◌, length, replicate, drop};
ghost use Rattle.session_state.specs.Records.{blank};

// The state before an add: the open pairs, the depth of the stack, what was counted of the items written, and one more than the sentinel's entry, or 0: the
// word of work, since the caller lends these records.
#[repr(C)]
#[derive(Clone, Copy, Debug, PartialEq, Eq)]
pub struct Checkpoint {
    pub opens: u32,
    pub depth: u32,
    pub size: u32,
    pub references: u32,
    pub prefix_bytes: u32,
    pub sentinel: u32,
}

// The record whose words are zero.
const BLANK: Checkpoint = Checkpoint {
    opens: 0,
    depth: 0,
    size: 0,
    references: 0,
    prefix_bytes: 0,
    sentinel: 0,
};

// The first n records become zero.
pub fn clear_first(checkpoints: &mut [Checkpoint], n: usize)
    requires { n ≤ length checkpoints.old }
    ensures { checkpoints.new ≡ replicate n blank ++ drop n checkpoints.old }
{
    for i in 0..n {
        checkpoints[i] = BLANK;
    }
}
