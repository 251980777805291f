// Numbers by their decimal digits.
ghost use Rattle.std.specs.Prelude.{◌≡◌, ◌≤◌, length, take};
ghost use Rattle.model.specs.Number.{nat_text};
ghost use Rattle.slice.specs.Wrote.{Wrote};

// Writes the digits of n at the start of a buffer, and gives back how many there are.
pub fn decimal(n: u64, out: &mut [u8; 20]) -> usize
    ensures wrote { Wrote 0 (nat_text n) out.old out.new result }
    ensures prefix_len { (result ≤ length out.new) × (result ≡ length (take result out.new)) }
    ensures text { take result out.new ≡ nat_text n }
{
    number::write_natural(out, 0, n)
}
