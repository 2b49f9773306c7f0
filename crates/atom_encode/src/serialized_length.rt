// How many bytes an atom takes.
ghost use Rattle.std.specs.Prelude.{◌≡◌};
ghost use Rattle.atom.specs.Write.{serialized_length};

// The bytes that the atom takes in a serialized tree, its prefix included; 0 where no prefix holds its size.
pub fn serialized_length_atom(atom: &[u8]) -> u64
    ensures { result ≡ serialized_length atom.now }
{
    match atom::prefix_width(atom) {
        Some(width) => (width + atom.len()) as u64,
        None => 0,
    }
}
