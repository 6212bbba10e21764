// Numbers of two bytes, the higher first.
ghost use Rattle.std.specs.Prelude.{◌≡◌, ◌≤◌, length};
ghost use Rattle.format.specs.Format.{number16};

// The number that the first two bytes hold.
pub fn number16(s: &[u8]) -> u16
    requires { 2 ≤ length s.now }
    ensures { result ≡ number16 s.now }
{
    u16::from_be_bytes([s[0], s[1]])
}
