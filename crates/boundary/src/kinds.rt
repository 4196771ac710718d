// A kind as its caller says it, by a number that counts modulo 2.
ghost use Rattle.std.specs.Prelude.{◌≡◌};
ghost use Rattle.boundary.specs.Boundary.{kind_of};

use layout::Kind;

// No `TryFrom`: the C interface takes any number for a kind.
pub fn kind_of(number: u64) -> Kind
    ensures { result ≡ kind_of number }
{
    if number % 2 == 0 {
        Kind::Disa
    } else {
        Kind::Diff
    }
}
