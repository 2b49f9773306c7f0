// Handles.
#![tactic(auto)]

pub mod fits_in_small_atom;
pub mod small_atom;

ghost use Rattle.std.specs.Prelude.{◌≡◌, ◌+◌, ◌*◌, ◌^◌, ◌<◌, eqb};
ghost use Rattle.allocator.specs.Handle.{node_of, handle_of, pair, listed_atom, small_atom, index_of, object_type_of, is_pair, is_atom};

// A node's handle: a kind in bits 26 up, and 26 bits of index or small value.
#[derive(Clone, Copy, Debug, PartialEq, Eq, Hash)]
pub struct NodePtr(pub u32);

#[derive(Clone, Copy, Debug, PartialEq, Eq)]
pub enum ObjectType {
    // The low bits form an index into the pairs.
    Pair,
    // The low bits form an index into the listed atoms.
    Bytes,
    // The low bits are the atom itself (an unsigned number of 26 bits).
    SmallAtom,
    // A handle of another kind names no node.
    Unknown,
}

impl NodePtr {
    // The bits of an index or small value, and their mask.
    pub const IDX_BITS: u32 = 26;

    pub const IDX_MASK: u32 = (1 << NodePtr::IDX_BITS) - 1;
    // The small atom 0, which is the empty atom.
    pub const NIL: NodePtr = NodePtr(2 << NodePtr::IDX_BITS);

    // The handle of a kind and an index.
    fn new(kind: u32, index: u32) -> NodePtr
        requires { (kind < 3) × (index < 2 ^ 26) }
        ensures { result.0 ≡ kind * 2 ^ 26 + index }
    {
        NodePtr((kind << NodePtr::IDX_BITS) | index)
    }

    // The handle of the pair `index`.
    pub fn pair(index: u32) -> NodePtr
        requires { index < 2 ^ 26 }
        ensures { result.0 ≡ handle_of (pair index) }
    {
        NodePtr::new(0, index)
    }

    // The handle of the listed atom `index`.
    pub fn bytes(index: u32) -> NodePtr
        requires { index < 2 ^ 26 }
        ensures { result.0 ≡ handle_of (listed_atom index) }
    {
        NodePtr::new(1, index)
    }

    // The handle of the small atom `value`.
    pub fn small_atom(value: u32) -> NodePtr
        requires { value < 2 ^ 26 }
        ensures { result.0 ≡ handle_of (small_atom value) }
    {
        NodePtr::new(2, value)
    }

    // Which kind of node the handle names.
    pub fn object_type(self) -> ObjectType
        ensures { result ≡ object_type_of (node_of self.0) }
    {
        match self.0 >> NodePtr::IDX_BITS {
            0 => ObjectType::Pair,
            1 => ObjectType::Bytes,
            2 => ObjectType::SmallAtom,
            _ => ObjectType::Unknown,
        }
    }

    // The index, or the small value.
    pub fn index(self) -> u32
        ensures { result ≡ index_of (node_of self.0) }
    {
        self.0 & NodePtr::IDX_MASK
    }

    pub fn is_pair(self) -> bool
        ensures { result ≡ is_pair (node_of self.0) }
    {
        matches!(self.object_type(), ObjectType::Pair)
    }

    pub fn is_atom(self) -> bool
        ensures { result ≡ is_atom (node_of self.0) }
    {
        matches!(
            self.object_type(),
            ObjectType::Bytes | ObjectType::SmallAtom
        )
    }

    // Whether two handles are the same.
    pub fn same(self, other: NodePtr) -> bool
        ensures { result ≡ eqb self.0 other.0 }
    {
        self == other
    }
}
