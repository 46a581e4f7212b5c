// Numbers in bytes, the least byte first.
ghost use Rattle.std.specs.Prelude.{◌≡◌, ◌+◌, ◌^◌, ◌<◌, ◌≤◌, length};
ghost use Rattle.std.proofs.lemmas.List.Edits.{sets};
ghost use Rattle.records.specs.Bytes.{number_at, bytes_of};

// The number in the `width` bytes from byte `at` on.
pub(crate) fn read(bytes: &[u8], at: usize, width: usize) -> u64
    requires { (width ≤ 8) × (at + width ≤ length bytes.now) }
    ensures { (result ≡ number_at width bytes.now at) × (result < 256 ^ width) }
{
    let mut word = [0; 8];
    word[..width].copy_from_slice(&bytes[at..at + width]);
    u64::from_le_bytes(word)
}

// Writes the `width` bytes of a number from byte `at` on.
#[tactic(auto, using(crate::proofs::Words::word_written))]
pub(crate) fn write(out: &mut [u8], at: usize, width: usize, number: u64)
    requires { (width ≤ 8) × (at + width ≤ length out.old) }
    ensures { out.new ≡ sets out.old at (bytes_of width number) }
{
    out[at..at + width].copy_from_slice(&number.to_le_bytes()[..width]);
}
