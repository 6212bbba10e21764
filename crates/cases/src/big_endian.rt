// The numbers of the data: two bytes each, with the higher first.
ghost use Rattle.std.specs.Prelude.{◌≡◌, ℕ, ◌*◌, ◌<◌, ◌≤◌, length, drop, slice_index};
ghost use Rattle.format.specs.Format.{number16};

use std::array;

// The numbers at the front.
pub fn numbers<const N: usize>(bytes: &[u8]) -> [u16; N]
    requires { N * 2 ≤ length bytes.now }
    ensures { (i : ℕ) → i < N → slice_index result i ≡ number16 (drop (2 * i) bytes.now) }
{
    let (pairs, _) = bytes.as_chunks::<2>();
    array::from_fn(|i| u16::from_be_bytes(pairs[i]))
}
