// An answer buffer, filled with 0xEE before it is lent.

ghost use Rattle.std.specs.Prelude.{◌≡◌, ◌↔◌, All, IsTrue};

// Whether each byte is the one that the buffer is filled with.
pub fn untouched(bytes: &[u8]) -> bool
    ensures { IsTrue result ↔ All (λ byte. byte ≡ 0xEE) bytes.now }
{
    bytes.iter().all(|byte| *byte == 0xEE)
}
