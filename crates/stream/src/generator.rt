// The stream's generator of bytes: x := (x * 1,664,525 + 1,013,904,223) mod 2^32, and the byte is x / 2^24.
ghost use Rattle.std.specs.Prelude.{◌≡◌};
ghost use Rattle.stream.specs.Generator.{next as next_number};

fn next(x: u32) -> u32
    ensures { result ≡ next_number x }
{
    x.wrapping_mul(1_664_525).wrapping_add(1_013_904_223)
}

// Every held byte, from the first on, is the generator's next one.
pub(crate) fn scatter(held: &mut [u8], seed: u32) {
    let mut x = seed;
    for byte in held {
        x = next(x);
        let [uppermost, ..] = x.to_be_bytes();
        *byte = uppermost;
    }
}
