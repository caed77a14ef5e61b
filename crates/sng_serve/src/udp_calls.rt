//! What the system does with the socket of the devices on top of what std offers: a larger buffer for what
//! comes (socket(7)), and a datagram without a wait (recv(2)).
ghost use Rattle.std.specs.Prelude.{◌≡◌, ◌≤◌, ◌+◌, ◌*◌, ◌∷◌, [], length, slice_index, IfSome};
ghost use Rattle.std.specs.Net.Addr.{ipv4_octets};
ghost use Rattle.std.specs.Net.Socket.{v4_ip, v4_port};
ghost use Rattle.libc.specs.Io.{Moved, Status};

use libc::net as c;
use std::net::{Ipv4Addr, SocketAddrV4, UdpSocket};
use std::os::fd::AsRawFd;

/// So many bytes of memory are asked for, with what the system needs beside each datagram. It keeps twice as
/// many, and no more than twice `net.core.rmem_max`.
const RECEIVE_BYTES: u32 = 4 << 20;

/// Asks the system for room for datagrams until they are read. Where it refuses, the socket keeps what it
/// has.
pub fn widen(socket: &UdpSocket) {
    let [first, second, third, fourth] = RECEIVE_BYTES.to_ne_bytes();
    let value = [
        first, second, third, fourth, 0, 0, 0, 0, 0, 0, 0, 0, 0, 0, 0, 0,
    ];
    let _kept_as_it_is = set_room(socket, &value);
}

fn set_room(socket: &UdpSocket, value: &[u8; 16]) -> i32
    ensures { Status result }
{
    unsafe { c::setsockopt(socket.as_raw_fd(), c::SOL_SOCKET, c::SO_RCVBUF, value, 4) }
}

/// The datagram that lies in the socket: how many bytes of the buffer it has, and from where it came. None
/// where none lies there, or the call failed. The socket has an address of IPv4.
pub fn receive_now(socket: &UdpSocket, buffer: &mut [u8]) -> Option<(usize, SocketAddrV4)>
    ensures { IfSome result (λ came. came.0 ≤ length buffer.old) }
{
    let mut address = [0u8; c::_SS_SIZE];
    let count = receive(socket, buffer, &mut address);
    let count = usize::try_from(count).ok()?;
    Some((count, sender(&address)))
}

fn receive(socket: &UdpSocket, buffer: &mut [u8], address: &mut [u8; c::_SS_SIZE]) -> isize
    ensures { Moved (length buffer.old) result }
{
    let mut size = c::_SS_SIZE as u32;
    unsafe {
        c::recvfrom(
            socket.as_raw_fd(),
            buffer,
            c::MSG_DONTWAIT,
            address,
            &mut size,
        )
    }
}

/// The address in a C `sockaddr_in`: behind two bytes of its family the port, the high byte first, and four
/// bytes of the address (ip(7)).
fn sender(address: &[u8; c::_SS_SIZE]) -> SocketAddrV4
    ensures port { v4_port result ≡ 256 * slice_index address.now 2 + slice_index address.now 3 }
    ensures ip { ipv4_octets (v4_ip result) ≡ slice_index address.now 4 ∷ slice_index address.now 5
        ∷ slice_index address.now 6 ∷ slice_index address.now 7 ∷ [] }
{
    let port = u16::from_be_bytes([address[2], address[3]]);
    let ip = Ipv4Addr::new(address[4], address[5], address[6], address[7]);
    SocketAddrV4::new(ip, port)
}
