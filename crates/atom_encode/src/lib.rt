// write_atom.rs and serialized_length.rs: an atom with its prefix, written and measured.
#![tactic(auto)]

pub mod serialized_length;
pub mod write_atom;
pub mod write_prefix;
