//! The address of a datagram in a script, `IP:PORT`: an IPv4 address, and a port in decimal digits (RFC 3986,
//! 3.2.2, 3.2.3).
ghost use Rattle.std.specs.Prelude.{◌≡◌, ◌==◌, option_map, position};
ghost use Rattle.sng_script.specs.Lines.{address_of, parted, port_of};

use crate::number::number_of;
use memchr::memchr;
use sng_book::Address;
use sng_text::read_ipv4;

/// The address that the word names.
pub fn address_of(word: &[u8]) -> Option<Address>
    ensures { result ≡ address_of word.now }
{
    let (ip, port) = parted(word, b':')?;
    let ip = read_ipv4(ip)?;
    let port = port_of(port)?;
    Some(Address { ip, port })
}

/// What stands before the first byte of this value and what stands behind it, where there is one.
pub fn parted(text: &[u8], byte: u8) -> Option<(&[u8], &[u8])>
    ensures { option_map (λ parts. (parts.0.now, parts.1.now)) result ≡ parted byte text.now }
{
    let at = place_of(text, byte)?;
    Some((&text[..at], &text[at + 1..]))
}

fn place_of(text: &[u8], byte: u8) -> Option<usize>
    ensures { result ≡ position (λ b. b == byte) text.now }
{
    memchr(byte, text)
}

/// The port that one decimal digit or more write.
fn port_of(digits: &[u8]) -> Option<u16>
    ensures { result ≡ port_of digits.now }
{
    let port = number_of(digits)?;
    u16::try_from(port).ok()
}
