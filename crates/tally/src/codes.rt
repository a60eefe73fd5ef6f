ghost use Rattle.std.specs.Prelude.{◌≡◌, ◌<◌, length, replicate, slice_index, slice_set};

// The code of a block: 0 none, 1 file, 2 free.
pub fn code_of(codes: &[u8], block: u32) -> u8
    requires { block < length codes.now }
    ensures { result ≡ slice_index codes.now block }
{
    codes[block as usize]
}

pub fn set_code(codes: &mut [u8], block: u32, code: u8)
    requires { block < length codes.old }
    ensures { codes.new ≡ slice_set codes.old block code }
{
    let at = block as usize;
    codes[at] = code;
}

// No block is claimed.
pub fn clear_codes(codes: &mut [u8])
    ensures { codes.new ≡ replicate (length codes.old) 0 }
{
    codes.fill(0);
}
