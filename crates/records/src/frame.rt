// What the head of a record says: its length and its kind.
ghost use Rattle.std.specs.Prelude.{◌≡◌, ◌≤◌, length};
ghost use Rattle.model.specs.Refusal.{unless};
ghost use Rattle.records.specs.Check as spec;
ghost use Rattle.records.specs.Mask.{count};
ghost use Rattle.records.specs.Kinds.{kind_number, head_size};

use crate::number;
use model::Refusal;

// What a record is, by the number in its head.
#[derive(Clone, Copy)]
pub(crate) enum Kind {
    Book = 1,
    Mask = 2,
}

impl Kind {
    ghost use Rattle.records.specs.Kinds.{kind_number, head_size};

    // Its number.
    pub(crate) fn number(self) -> u64
        ensures { result ≡ kind_number self }
    {
        self as u64
    }

    // How many bytes its head has.
    fn head(self) -> usize
        ensures { result ≡ head_size self }
    {
        match self {
            Kind::Book => 15,
            Kind::Mask => 6,
        }
    }
}

// Check 1: whether there are fewer than 4 bytes, or the length field isn't their number.
#[tactic(auto, unfolding(crate::specs::Check::unframed))]
fn unframed(bytes: &[u8]) -> bool
    ensures { result ≡ spec.unframed bytes.now }
{
    bytes.len() < 4 || length_field(bytes) != bytes.len()
}

// Checks 1 to 3 of a record of the kind asked for.
#[tactic(auto, using(crate::proofs::Checks::framing), unfolding(model::specs::Refusal::refuse, crate::specs::Check::frame_refusal))]
pub(crate) fn check(bytes: &[u8], asked: Kind) -> Result<(), Refusal>
    ensures { result ≡ unless (spec.frame_refusal (kind_number asked) (head_size asked) bytes.now) tt }
{
    if unframed(bytes) {
        return Err(Refusal::Unframed);
    }
    if kind_field(bytes) != asked.number() {
        return Err(Refusal::Kind);
    }
    if bytes.len() < asked.head() {
        return Err(Refusal::Head);
    }
    Ok(())
}

// The length field of a record.
pub fn length_field(bytes: &[u8]) -> usize
    requires { 2 ≤ length bytes.now }
    ensures { result ≡ spec.length_field bytes.now }
{
    number::read(bytes, 0, 2) as usize
}

// How many blocks a mask says that it has.
pub(crate) fn count_field(bytes: &[u8]) -> usize
    requires { 6 ≤ length bytes.now }
    ensures { result ≡ count bytes.now }
{
    number::read(bytes, 4, 2) as usize
}

// The kind of a record.
fn kind_field(bytes: &[u8]) -> u64
    requires { 4 ≤ length bytes.now }
    ensures { result ≡ spec.kind bytes.now }
{
    number::read(bytes, 2, 2)
}
