// Stores of numbers and of runs of bytes.
ghost use Rattle.std.specs.Prelude.{◌≡◌, ◌++◌, ◌+◌, ◌-◌, ◌^◌, ◌≤◌, ◌<◌, min, length, take, drop};
ghost use Rattle.std.proofs.lemmas.List.Edits.{sets};
ghost use Rattle.byte_records.specs.Number.{bytes_of};

// Stores the W lowest bytes of v.
pub fn store_number<const W: usize>(out: &mut [u8], at: usize, v: usize)
    requires { at + W ≤ length out.old }
    ensures { out.new ≡ sets out.old at (bytes_of W v) }
{
    let mut rest = v;
    for k in 0..W {
        out[at + k] = (rest % 256) as u8;
        rest /= 256;
    }
}

// Moves the first n bytes up by `gap`, the last one first.
pub fn open_gap(b: &mut [u8], n: usize, gap: usize)
    requires { n + gap ≤ length b.old }
    ensures { drop gap b.new ≡ take n b.old ++ drop (n + gap) b.old }
{
    for i in (0..n).rev() {
        b[i + gap] = b[i];
    }
}

// Copies src to out from `at` on, as far as there is room. Byte by byte: most copies are of one record or empty, and with a call of
// memcpy for each a merge took two fifths longer.
pub fn put_bytes(src: &[u8], out: &mut [u8], at: usize)
    requires { at + length src.now < 2 ^ 64 }
    ensures { out.new ≡ sets out.old at src.now }
{
    let n = src.len().min(out.len().saturating_sub(at));
    for k in 0..n {
        out[at + k] = src[k];
    }
}
