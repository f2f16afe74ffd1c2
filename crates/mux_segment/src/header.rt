ghost use Rattle.std.specs.Prelude.{◌≡◌, ◌≤◌, ◌<◌, ◌^◌};
ghost use Rattle.mux_segment.specs.Segment.{header_bytes, header_of, FitsHeader};

/// The side of who began a protocol.
pub const INITIATOR: u8 = 0;

/// The side of who answers.
pub const RESPONDER: u8 = 1;

/// The header of a segment.
#[derive(Clone, Copy, PartialEq, Eq)]
pub struct Header {
    /// The low 32 bits of a clock in microseconds.
    pub time: u32,
    /// `INITIATOR` or `RESPONDER`, whichever sent it.
    pub side: u8,
    /// The number of the protocol, below 32,768.
    pub id: u16,
    /// How many bytes of payload follow.
    pub size: u16,
}

/// The header that eight bytes are.
pub fn read_header(bytes: [u8; 8]) -> Header
    ensures header { result ≡ header_of bytes }
    ensures fits { FitsHeader result }
{
    let [a, b, c, d, e, f, g, h] = bytes;
    let word = u16::from_be_bytes([e, f]);
    Header {
        time: u32::from_be_bytes([a, b, c, d]),
        side: (word / 0x8000) as u8,
        id: word % 0x8000,
        size: u16::from_be_bytes([g, h]),
    }
}

/// The eight bytes of a header.
pub fn write_header(header: &Header) -> [u8; 8]
    requires side { header.now.side ≤ 1 }
    requires id { header.now.id < 2 ^ 15 }
    ensures bytes { result ≡ header_bytes header.now }
    ensures read { header_of result ≡ header.now }
{
    let [a, b, c, d] = header.time.to_be_bytes();
    let [e, f] = (u16::from(header.side) * 0x8000 + header.id).to_be_bytes();
    let [g, h] = header.size.to_be_bytes();
    [a, b, c, d, e, f, g, h]
}
