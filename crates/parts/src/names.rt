//! Which part a feature belongs to.
ghost use Rattle.std.specs.Prelude.{◌≡◌, ◌<◌};
ghost use Rattle.parts.specs.Names.{cube_of, number_of, part_of};

/// The number of a name.
fn number_of(name: &[u8]) -> u64
    ensures value { result ≡ number_of name.now }
    ensures small { result < 4294967291 }
{
    let mut number = 0;
    for byte in name {
        number = (number * 257 + u64::from(*byte)) % 4294967291;
    }
    number
}

/// The cube of a number modulo 2^32 - 5, so that numbers that follow one another fall apart.
fn cube_of(number: u64) -> u64
    requires { number < 4294967291 }
    ensures { result ≡ cube_of number }
{
    let square = number * number % 4294967291;
    square * number % 4294967291
}

/// The part, of `n`, that a feature belongs to.
///
/// Its name's bytes are digits to the base 257, modulo 4294967291; that number's cube, modulo the same
/// prime, is taken modulo `n`.
#[tactic(auto, unfolding(crate::specs::Names::part_of))]
pub fn part_of(n: u64, name: &[u8]) -> u64
    // There is at least one part.
    requires { 0 < n }
    // It is the number that the definition gives the name, by its bytes alone.
    ensures value { result ≡ part_of n name.now }
    // It is the number of a part.
    ensures within { result < n }
{
    cube_of(number_of(name)) % n
}
