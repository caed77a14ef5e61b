//! Whether what the broker sends may reach devices: a PUBLISH may (MQTT 3.1.1, 3.3), and no acknowledgement
//! does. The worker at the broker needs the token only for pieces of the stream with a packet that may.
ghost use Rattle.std.specs.Prelude.{◌≡◌, ◌≤◌, ◌<◌, ◌^◌, ◌||◌, ◌∷◌, length, false};
ghost use Rattle.sng_signals.specs.Reaches.{after, one_reaches, behind_length, before_end, may_reach};
ghost use Rattle.sng_signals.specs.declared.reach.Place.TheVariants.{Between};

/// So many bytes at most has a Remaining Length (MQTT 3.1.1, 2.2.3).
const MAX_LENGTH_BYTES: u32 = 4;

/// Where a stream of packets stands.
#[derive(Clone, Copy, Debug, PartialEq, Eq)]
enum Place {
    /// Before a packet.
    Between,
    /// Behind the first byte of one, and so many bytes of its Remaining Length, which say so much.
    Head { bytes: u32, value: usize },
    /// So many bytes before the end of one.
    Body(usize),
}

/// How far a stream was read, by the fixed headers of its packets (MQTT 3.1.1, 2.2) alone.
#[derive(Clone, Copy, Debug, PartialEq, Eq)]
pub struct Reach {
    place: Place,
    /// The packet in which it stands, or the last one, may reach devices.
    reaches: bool,
}

impl Reach {
    /// A stream of which nothing came.
    pub fn new() -> Reach
        ensures { result ≡ record { place = Between; reaches = false } }
    {
        Reach {
            place: Place::Between,
            reaches: false,
        }
    }

    /// Whether the next piece of the stream has a byte of a packet that may reach devices.
    #[tactic(auto, using(crate::proofs::Reaches::none_left))]
    pub fn takes(&mut self, piece: &[u8]) -> bool
        ensures reaches { result ≡ one_reaches self.old piece.now }
        ensures after { self.new ≡ after self.old piece.now }
    {
        let mut reaches = false;
        let mut rest = piece;
        while let [byte, others @ ..] = rest {
            rest = self.pass(*byte, others);
            reaches |= self.reaches;
        }
        reaches
    }

    /// Passes a byte, and within a packet what is there of the rest of it. The answer is what stands behind.
    #[tactic(auto, using(crate::proofs::Reaches::passed_body, crate::proofs::Reaches::passed_reaches))]
    fn pass<'b>(&mut self, byte: u8, others: &'b [u8]) -> &'b [u8]
        ensures after { after self.old (byte ∷ others.now) ≡ after self.new result.now }
        ensures reaches { one_reaches self.old (byte ∷ others.now)
            ≡ self.new.reaches || one_reaches self.new result.now }
        ensures shorter { length result.now ≤ length others.now }
    {
        match self.place {
            Place::Between => {
                self.reaches = may_reach(byte);
                self.place = Place::Head { bytes: 0, value: 0 };
                others
            }
            Place::Head { bytes, value } => {
                self.place = behind(byte, bytes, value);
                others
            }
            Place::Body(left) => {
                let left = left.saturating_sub(1);
                let (passed, behind) = others.split_at(left.min(others.len()));
                self.place = body(left - passed.len());
                behind
            }
        }
    }
}

/// Where the stream stands behind one more byte of a Remaining Length, which had so many that say so much. A
/// longer one than there may be is no packet: nothing more is read.
fn behind(byte: u8, bytes: u32, value: usize) -> Place
    ensures { result ≡ behind_length byte bytes value }
{
    if MAX_LENGTH_BYTES <= bytes {
        return Place::Body(usize::MAX);
    }
    let value = value.saturating_add(usize::from(byte % 128) * weight(bytes));
    if byte < 128 {
        return body(value);
    }
    Place::Head {
        bytes: bytes + 1,
        value,
    }
}

/// How much each one counts behind so many groups of seven bits.
fn weight(bytes: u32) -> usize
    requires { bytes < 4 }
    ensures value { result ≡ 128 ^ bytes }
    ensures small { result ≤ 2097152 }
{
    match bytes {
        0 => 1,
        1 => 128,
        2 => 16384,
        _ => 2097152,
    }
}

/// So many bytes before the end of a packet.
#[tactic(auto, using(crate::proofs::Reaches::more_left))]
fn body(left: usize) -> Place
    ensures { result ≡ before_end left }
{
    if left == 0 {
        Place::Between
    } else {
        Place::Body(left)
    }
}

/// Whether a packet with this first byte may let something out to devices: each but PUBACK, SUBACK, UNSUBACK
/// and PINGRESP.
fn may_reach(first: u8) -> bool
    ensures { result ≡ may_reach first }
{
    match first / 16 {
        4 | 9 | 11 | 13 => false,
        _ => true,
    }
}
