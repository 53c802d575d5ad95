// What the tests of playing and joining ask of coefficients.
ghost use Rattle.std.specs.Prelude.{◌≡◌};
ghost use Rattle.block.specs.Refusals.{lowest_pair, equal_coefficients};

// Whether one of the eight pairs has both -32,768. It is internal: crates image and dsp call it.
pub fn lowest_pair(coefficients: [i16; 16]) -> bool
    ensures { result ≡ lowest_pair coefficients }
{
    for pair in coefficients.chunks_exact(2) {
        if pair[0] == i16::MIN && pair[1] == i16::MIN {
            return true;
        }
    }
    false
}

// Whether the sixteen coefficients of two blocks are equal. It is internal.
// Stays: a name for ==, whose contract says that it is the documents' equality of coefficients (equal_coefficients).
pub fn equal_coefficients(first: [i16; 16], second: [i16; 16]) -> bool
    ensures { result ≡ equal_coefficients first second }
{
    first == second
}
