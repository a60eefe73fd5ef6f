ghost use Rattle.std.specs.Prelude.{◌≡◌, ◌+◌, ◌^◌, ◌<◌, ◌≤◌, length};
ghost use Rattle.numbers.specs.Numbers.{num, put_num};

// The number of `width` bytes at `at`, high byte first.
pub fn get(b: &[u8], at: usize, width: usize) -> u32
    requires within { at + width ≤ length b.now }
    requires narrow { width ≤ 4 }
    ensures is { result ≡ num width at b.now }
    ensures fits { result < 256 ^ width }
{
    let mut v = 0;
    for byte in &b[at..at + width] {
        v = 256 * v + u32::from(*byte);
    }
    v
}

// Puts a number of `width` bytes at `at`, high byte first.
pub fn put(b: &mut [u8], at: usize, width: usize, v: u32)
    requires within { at + width ≤ length b.old }
    requires narrow { width ≤ 4 }
    requires small { v < 256 ^ width }
    ensures { b.new ≡ put_num width at v b.old }
{
    let mut rest = v;
    for i in (0..width).rev() {
        b[at + i] = (rest % 256) as u8;
        rest /= 256;
    }
}
