// The 44 bytes before the samples of a file that is written.
ghost use Rattle.std.specs.Prelude.{◌≡◌, ◌≤◌, length};
ghost use Rattle.sequences.specs.Lists.{pasted};
ghost use Rattle.little.specs.Numbers.{bytes_of};
ghost use Rattle.wav.specs.Header.{most_samples, header_of};

// The four bytes of a number, the lowest first.
fn four_bytes(v: usize) -> [u8; 4]
    ensures { result ≡ bytes_of 4 v }
{
    ((v % 4294967296) as u32).to_le_bytes()
}

// The 44 bytes for a rate and so many samples.
pub fn header(rate: u32, samples: usize) -> [u8; 44]
    requires { samples ≤ most_samples }
    ensures { result ≡ header_of rate samples }
{
    let whole = four_bytes(36 + 2 * samples);
    let hertz = four_bytes(rate as usize);
    let second = four_bytes(2 * (rate as usize));
    let size = four_bytes(2 * samples);
    [
        b'R', b'I', b'F', b'F', whole[0], whole[1], whole[2], whole[3], b'W', b'A', b'V', b'E',
        b'f', b'm', b't', b' ', 16, 0, 0, 0, 1, 0, 1, 0, hertz[0], hertz[1], hertz[2], hertz[3],
        second[0], second[1], second[2], second[3], 2, 0, 16, 0, b'd', b'a', b't', b'a', size[0],
        size[1], size[2], size[3],
    ]
}

// Bytes laid at a file's start.
pub fn lay(bytes: &[u8], file: &mut [u8])
    requires { length bytes.now ≤ length file.old }
    ensures { file.new ≡ pasted file.old 0 bytes.now }
{
    file[..bytes.len()].copy_from_slice(bytes);
}
