//! IPv4 addresses as texts: four decimal numbers from 0 to 255 without leading zeros, parted by points (RFC
//! 3986, 3.2.2).
ghost use Rattle.std.specs.Prelude.{◌≡◌, ◌==◌, [], ◌∷◌, MatchOption, position};
ghost use Rattle.sng_text.specs.Ipv4.{is_digit, is_leading, octet_of, parts_of, ipv4_of};

/// The address that the text is, where it is one.
#[inline(always)]
pub fn read_ipv4(text: &[u8]) -> Option<[u8; 4]>
    ensures { result ≡ ipv4_of text.now }
{
    let (a, rest) = cut_at_point(text)?;
    let (b, rest) = cut_at_point(rest)?;
    let (c, d) = cut_at_point(rest)?;
    match cut_at_point(d) {
        None => Some([
            octet_from(a)?,
            octet_from(b)?,
            octet_from(c)?,
            octet_from(d)?,
        ]),
        Some(_) => None,
    }
}

/// The part before the first point and what follows it, where there is a point.
fn cut_at_point(text: &[u8]) -> Option<(&[u8], &[u8])>
    ensures { MatchOption result (parts_of text.now ≡ text.now ∷ [])
        (λ cut. parts_of text.now ≡ cut.0.now ∷ parts_of cut.1.now) }
{
    let at = first_point(text)?;
    Some((&text[..at], &text[at + 1..]))
}

fn first_point(text: &[u8]) -> Option<usize>
    ensures { result ≡ position (λ b. b == 46) text.now }
{
    text.iter().position(|b| *b == b'.')
}

/// The number from 0 to 255 that the digits write.
#[inline(always)]
fn octet_from(digits: &[u8]) -> Option<u8>
    ensures { result ≡ octet_of digits.now }
{
    match digits {
        [a] if is_digit(*a) => Some(a - b'0'),
        [a, b] if is_leading(*a) && is_digit(*b) => Some(10 * (a - b'0') + (b - b'0')),
        [a, b, c] if is_leading(*a) && is_digit(*b) && is_digit(*c) => {
            let number = 100 * u16::from(a - b'0') + 10 * u16::from(b - b'0') + u16::from(c - b'0');
            u8::try_from(number).ok()
        }
        _ => None,
    }
}

pub fn is_digit(byte: u8) -> bool
    ensures { result ≡ is_digit byte }
{
    b'0' <= byte && byte <= b'9'
}

pub fn is_leading(byte: u8) -> bool
    ensures { result ≡ is_leading byte }
{
    b'1' <= byte && byte <= b'9'
}
