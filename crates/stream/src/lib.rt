// A stream of records, each opened by its length, as document 01's line program reads it.
#![tactic(auto)]

ghost use Rattle.std.specs.Prelude.{◌≡◌, ◌-◌, ◌<◌, ◌≤◌, length, take, drop};
ghost use Rattle.stream.specs.Stream.{next, Unsettled};

// What stands next in a stream: a record of so many bytes, a length field under 4, a record that is cut off, or nothing.
#[derive(Clone, Copy)]
pub enum Next {
    Whole(usize),
    Short,
    Cut,
    End,
}

// What stands next in a stream of just these bytes.
#[tactic(auto, using(records::proofs::Numbers::number_lt), unfolding(crate::specs::Stream::next))]
pub fn next_record(bytes: &[u8]) -> Next
    ensures stands { result ≡ next bytes.now }
    ensures few { Unsettled result → length bytes.now < 65535 }
{
    match bytes {
        [] => Next::End,
        [_] => Next::Cut,
        _ => match records::length_field(bytes) {
            0..4 => Next::Short,
            length if bytes.len() < length => Next::Cut,
            length => Next::Whole(length),
        },
    }
}

// Moves the bytes from `taken` up to `held` to the start, and returns how many they are.
#[tactic(auto, using(std::proofs::lemmas::Grind::common_steps, std::proofs::lemmas::Slice::between_is))]
pub fn shift(bytes: &mut [u8], taken: usize, held: usize) -> usize
    requires { (taken ≤ held) × (held ≤ length bytes.old) }
    ensures { (result ≡ held - taken) × (take result bytes.new ≡ drop taken (take held bytes.old)) }
{
    if taken == 0 {
        return held;
    }
    bytes.copy_within(taken..held, 0);
    held - taken
}
