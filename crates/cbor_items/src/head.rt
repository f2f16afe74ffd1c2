ghost use Rattle.std.specs.Prelude.{◌≡◌, ◌<◌, ◌≤◌, ◌++◌, [], ℕ, length, take, IfSome, Some, OnOk, OnErr};
ghost use Rattle.cbor_items.specs.declared.head.Head.{Head};
ghost use Rattle.cbor_items.specs.Reading.{Gives};
ghost use Rattle.cbor_items.specs.Head.{info_of, argument_len, head_of, value_of, may_begin, may_follow, initial_at, argument_at, head_and_rest, head_at, IsHead, shortest_head};

use crate::initial::NEXT_BYTE;
use crate::stop::Stop;
use net_base::{Octets, OutOfMemory};

/// A head of an item (RFC 8949, section 3): what kind of item it is, and its value or its length.
#[derive(Clone, Copy, PartialEq, Eq)]
pub struct Head {
    /// 0 to 7.
    pub major: u8,
    /// 0 in an indefinite head.
    pub value: u64,
    /// No length is told. Of major type 7 this is a break.
    pub indefinite: bool,
    /// How many bytes the head takes.
    pub size: usize,
}

/// The head at the front of the bytes (RFC 8949, section 3). None exactly where they do not begin with a whole valid
/// one.
pub fn read_head(bytes: &[u8]) -> Option<Head>
    ensures head { result ≡ head_at bytes.now }
    ensures some { IfSome result (λ head. IsHead head (take head.size bytes.now)) }
    ensures only { (head : Head) (n : ℕ) → IsHead head (take n bytes.now) → result ≡ Some head }
{
    match split_head(bytes) {
        Ok((head, _)) => Some(head),
        Err(_) => None,
    }
}

/// Appends the shortest head (RFC 8949, section 4.2.1) of a major type, at most 7, and a value, which is below 24 with
/// major type 7. A refusal changes nothing.
#[tactic(auto, unfolding(crate::specs::Head::shortest_head))]
pub fn write_head(out: &mut Octets, major: u8, value: u64) -> Result<(), OutOfMemory>
    requires major { major ≤ 7 }
    requires simple { major ≡ 7 → value < 24 }
    ensures ok { OnOk result (out.new ≡ out.old ++ shortest_head major value) }
    ensures err { OnErr result (out.new ≡ out.old) }
{
    let initial = major * 32;
    match value {
        0..=23 => out.push(initial + value as u8),
        24..=0xff => out.extend_from_slice(&[initial + 24, value as u8]),
        0x100..=0xffff => {
            let [a, b] = (value as u16).to_be_bytes();
            out.extend_from_slice(&[initial + 25, a, b])
        }
        0x1_0000..=0xffff_ffff => {
            let [a, b, c, d] = (value as u32).to_be_bytes();
            out.extend_from_slice(&[initial + 26, a, b, c, d])
        }
        _ => {
            let [a, b, c, d, e, f, g, h] = value.to_be_bytes();
            out.extend_from_slice(&[initial + 27, a, b, c, d, e, f, g, h])
        }
    }
}

// The head at the front of the bytes, and the bytes behind it.
fn split_head(bytes: &[u8]) -> Result<(Head, &[u8]), Stop>
    ensures { Gives (λ read. (read.0, read.1.now)) result (head_and_rest bytes.now) }
{
    let (initial, rest) = split_initial(bytes)?;
    split_argument(initial, rest)
}

/// The initial byte of a head, and the bytes behind it.
#[inline(always)]
pub(crate) fn split_initial(bytes: &[u8]) -> Result<(u8, &[u8]), Stop>
    ensures { Gives (λ read. (read.0, read.1.now)) result (initial_at bytes.now) }
{
    match bytes {
        [] => Err(Stop::More),
        [initial, rest @ ..] => {
            if may_begin(*initial) {
                Ok((*initial, rest))
            } else {
                Err(Stop::Bad)
            }
        }
    }
}

/// The head of an initial byte, and the bytes behind it.
#[inline(always)]
pub(crate) fn split_argument(initial: u8, bytes: &[u8]) -> Result<(Head, &[u8]), Stop>
    ensures { Gives (λ read. (read.0, read.1.now)) result (argument_at initial bytes.now) }
{
    let info = initial % 32;
    if info < 24 {
        return Ok((small_head(initial), bytes));
    }
    let len = argument_len(info);
    if bytes.len() < len {
        return Err(Stop::More);
    }
    let (argument, rest) = bytes.split_at(len);
    if initial == NEXT_BYTE && argument[0] < 32 {
        return Err(Stop::Bad);
    }
    let head = Head {
        major: initial / 32,
        value: value(info, argument),
        indefinite: info == 31,
        size: 1 + len,
    };
    Ok((head, rest))
}

// A head whose value is in its initial byte.
fn small_head(initial: u8) -> Head
    requires { info_of initial < 24 }
    ensures { result ≡ head_of initial [] }
{
    Head {
        major: initial / 32,
        value: u64::from(initial % 32),
        indefinite: false,
        size: 1,
    }
}

fn may_begin(initial: u8) -> bool
    ensures { result ≡ may_begin initial }
{
    match initial % 32 {
        0..=27 => true,
        28..=30 => false,
        _ => !matches!(initial / 32, 0 | 1 | 6),
    }
}

fn argument_len(info: u8) -> usize
    ensures { result ≡ argument_len info }
{
    match info {
        24 => 1,
        25 => 2,
        26 => 4,
        27 => 8,
        _ => 0,
    }
}

fn value(info: u8, argument: &[u8]) -> u64
    requires { length argument.now ≡ argument_len info }
    ensures { result ≡ value_of info argument.now }
{
    match info {
        0..=23 => u64::from(info),
        24 => u64::from(argument[0]),
        25 => u64::from(u16::from_be_bytes([argument[0], argument[1]])),
        26 => u64::from(u32::from_be_bytes([argument[0], argument[1], argument[2], argument[3]])),
        27 => u64::from_be_bytes([
            argument[0],
            argument[1],
            argument[2],
            argument[3],
            argument[4],
            argument[5],
            argument[6],
            argument[7],
        ]),
        _ => 0,
    }
}
