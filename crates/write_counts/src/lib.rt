// What is counted of the items that are written. A count that comes to be wanted is one field more, and is kept here.
#![tactic(auto)]

ghost use Rattle.std.specs.Prelude.{◌≡◌, ◌+◌, ◌≤◌};
ghost use Rattle.write_counts.specs.Counts.{grown};

// Their bytes, the references among them, and the bytes of prefixes, those of paths included. The default: nothing is written.
// That none of them passes the size is no invariant of the type: `with_cons` takes any size.
#[derive(Clone, Copy, Debug, Default, PartialEq, Eq)]
pub struct Counts {
    pub size: usize,
    pub references: usize,
    pub prefix_bytes: usize,
}

impl Counts {
    // One `ff` more, up to `size`.
    pub fn with_cons(self, size: usize) -> Counts
        ensures { result ≡ grown self size 0 0 }
    {
        Counts { size, ..self }
    }

    // One atom more, up to `size`, with a prefix of `width` bytes.
    pub fn with_atom(self, size: usize, width: usize) -> Counts
        requires { self.prefix_bytes + width ≤ size }
        ensures { result ≡ grown self size 0 width }
    {
        let prefix_bytes = self.prefix_bytes + width;
        Counts {
            size,
            prefix_bytes,
            ..self
        }
    }

    // One reference more, up to `size`, whose path has a prefix of `width` bytes.
    pub fn with_reference(self, size: usize, width: usize) -> Counts
        requires { (self.references + 1 ≤ size) × (self.prefix_bytes + width ≤ size) }
        ensures { result ≡ grown self size 1 width }
    {
        Counts {
            size,
            references: self.references + 1,
            prefix_bytes: self.prefix_bytes + width,
        }
    }
}
