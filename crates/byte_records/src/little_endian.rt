// Numbers in bytes, unsigned and little-endian.
ghost use Rattle.std.specs.Prelude.{◌≡◌, ◌+◌, ◌^◌, ◌≤◌, ◌<◌, length};
ghost use Rattle.byte_records.specs.Number.{number_at};

// The number in the W bytes from p.
pub fn number<const W: usize>(s: &[u8], p: usize) -> usize
    requires { (p + W ≤ length s.now) × (W ≤ 8) }
    ensures { (result ≡ number_at W s.now p) × (result < 256 ^ W) }
{
    let mut n = 0;
    for k in 0..W {
        n += (s[p + k] as usize) << (8 * k);
    }
    n
}
