// Byte order of two keys.
ghost use Rattle.std.specs.Prelude.{◌≡◌};
ghost use Rattle.order.specs.Compared.{compared};

use std::cmp::Ordering;

// Compares two keys by the first byte in which they differ; one that goes on after the other's end is later.
#[tactic(auto, using(crate::proofs::Compared::cmp_compared))]
pub fn compare(a: &[u8], b: &[u8]) -> Ordering
    ensures { result ≡ compared a.now b.now }
{
    a.cmp(b)
}
