//! Writing a message.
ghost use Rattle.std.specs.Prelude.{◌≡◌, ◌≤◌, ◌++◌, length, take, is_err, OnOk, OnErr, if◌then◌else◌};
ghost use Rattle.std.specs.Io.KnownBytes.{Appends};
ghost use Rattle.ilp_io.specs.Counts.{CountsUp};
ghost use Rattle.ilp_io.specs.Writing.{AppendsProperPrefix};
ghost use Rattle.ilp_http.specs.Pending.{pending, Sends, Stops};
ghost use Rattle.ilp_http.specs.Writing.{response_head, response_text, own_field, head_lines, request_text};

use crate::outgoing::{Outgoing, OwnField};
use crate::pending::{Pending, ROOM, put_behind};
use crate::status::{Kind, Status, first_lines, kind_text, lines_to_length};
use ilp_io::{Sink, WriteFault, put_all};
use itoa::Buffer;

// The octets of a short response. The longest head has fewer.
const SHORT: usize = 256;

// Puts the lines of a response before its body into a room, and answers how many octets they have.
#[inline]
fn put_head(room: &mut [u8], status: Status, kind: Kind, body: &[u8]) -> usize
    requires { SHORT ≤ length room.old }
    ensures octets { take result room.new ≡ response_head status kind body.now }
    ensures short { result ≤ SHORT }
{
    let mut digits = Buffer::new();
    let text = digits.format(body.len()).as_bytes();
    let len = put_behind(room, 0, first_lines(status));
    let len = put_behind(room, len, lines_to_length(kind, body));
    let len = put_behind(room, len, text);
    put_behind(room, len, b"\r\nConnection: close\r\n\r\n")
}

// Writes a head and a body: in one write where they are short enough to wait for each other.
#[inline(never)]
fn put_both<W: Sink>(sink: &mut W, head: &[u8], body: &[u8]) -> Result<(), WriteFault>
    requires { length head.now ≤ ROOM }
    ensures ok { OnOk result
        (Appends (W.contents sink.old) (W.contents sink.new) (head.now ++ body.now)) }
    ensures err { OnErr result
        (AppendsProperPrefix (W.contents sink.old) (W.contents sink.new) (head.now ++ body.now)) }
    ensures failed { CountsUp (W.failures sink.old) (W.failures sink.new)
        (if is_err result then 1 else 0) }
{
    let mut waiting = Pending::new();
    waiting.keep(head);
    waiting.add(sink, body)?;
    waiting.send(sink)
}

/// Writes a response of HTTP/1.1 (RFC 9112, section 4) after which the connection is closed: the
/// status line, the lines that the status has of its own, the kind of a body that is not empty, its
/// length, and the body.
///
/// It is refused only where a write fails or takes no octet. Then a part of the response was taken.
pub fn write_response<W: Sink>(
    sink: &mut W,
    status: Status,
    kind: Kind,
    body: &[u8],
) -> Result<(), WriteFault>
    ensures ok { OnOk result (Appends (W.contents sink.old) (W.contents sink.new)
        (response_text status kind body.now)) }
    ensures err { OnErr result (AppendsProperPrefix (W.contents sink.old) (W.contents sink.new)
        (response_text status kind body.now)) }
    ensures failed { CountsUp (W.failures sink.old) (W.failures sink.new)
        (if is_err result then 1 else 0) }
{
    let mut room = [0u8; SHORT];
    let len = put_head(&mut room, status, kind, body);
    if body.len() > SHORT - len {
        return put_both(sink, &room[..len], body);
    }
    let end = put_behind(&mut room, len, body);
    put_all(sink, &room[..end])
}

// Adds three texts.
fn add_text<W: Sink>(
    waiting: &mut Pending,
    sink: &mut W,
    before: &[u8],
    value: &[u8],
    after: &[u8],
) -> Result<(), WriteFault>
    ensures ok { OnOk result (Sends (W.contents sink.old) (W.contents sink.new)
        (pending waiting.old) (pending waiting.new) (before.now ++ (value.now ++ after.now))) }
    ensures err { OnErr result (Stops (W.contents sink.old) (W.contents sink.new)
        (pending waiting.old) (before.now ++ (value.now ++ after.now))) }
    ensures failed { CountsUp (W.failures sink.old) (W.failures sink.new)
        (if is_err result then 1 else 0) }
{
    waiting.add(sink, before)?;
    waiting.add(sink, value)?;
    waiting.add(sink, after)
}

// Adds the field that a request has for its receiver, if it has one.
fn add_own<W: Sink>(
    waiting: &mut Pending,
    sink: &mut W,
    own: OwnField<'_>,
) -> Result<(), WriteFault>
    ensures ok { OnOk result (Sends (W.contents sink.old) (W.contents sink.new)
        (pending waiting.old) (pending waiting.new) (own_field own.entry)) }
    ensures err { OnErr result (Stops (W.contents sink.old) (W.contents sink.new)
        (pending waiting.old) (own_field own.entry)) }
    ensures failed { CountsUp (W.failures sink.old) (W.failures sink.new)
        (if is_err result then 1 else 0) }
{
    match own {
        OwnField::Absent => waiting.add(sink, b""),
        OwnField::Bearer(token) => {
            add_text(waiting, sink, b"Authorization: Bearer ", token, b"\r\n")
        }
        OwnField::IdempotencyKey(key) => {
            add_text(waiting, sink, b"Idempotency-Key: ", key, b"\r\n")
        }
    }
}

// Adds the lines of a request before its body, of this kind and this length.
fn add_head<W: Sink>(
    waiting: &mut Pending,
    sink: &mut W,
    head: &Outgoing<'_>,
    kind: &[u8],
    length: &[u8],
) -> Result<(), WriteFault>
    ensures ok { OnOk result (Sends (W.contents sink.old) (W.contents sink.new)
        (pending waiting.old) (pending waiting.new) (head_lines head.now kind.now length.now)) }
    ensures err { OnErr result (Stops (W.contents sink.old) (W.contents sink.new)
        (pending waiting.old) (head_lines head.now kind.now length.now)) }
    ensures failed { CountsUp (W.failures sink.old) (W.failures sink.new)
        (if is_err result then 1 else 0) }
{
    add_text(waiting, sink, b"POST ", head.target, b" HTTP/1.1\r\n")?;
    add_text(waiting, sink, b"Host: ", head.host, b"\r\n")?;
    add_text(waiting, sink, b"Content-Type: ", kind, b"\r\n")?;
    add_text(waiting, sink, b"Content-Length: ", length, b"\r\n")?;
    add_own(waiting, sink, head.own)?;
    waiting.add(sink, b"Connection: close\r\n\r\n")
}

/// Writes a POST of HTTP/1.1 (RFC 9112, section 3) after whose response the connection is closed:
/// the request line, Host, the kind of the body, its length, the field for the receiver, and the
/// body. What the head gives goes out as it is: no line break in it is looked for.
///
/// It is refused only where a write fails or takes no octet. Then a part of the request was taken.
pub fn write_request<W: Sink>(
    sink: &mut W,
    head: &Outgoing<'_>,
    body: &[u8],
) -> Result<(), WriteFault>
    ensures ok { OnOk result (Appends (W.contents sink.old) (W.contents sink.new)
        (request_text head.now body.now)) }
    ensures err { OnErr result (AppendsProperPrefix (W.contents sink.old) (W.contents sink.new)
        (request_text head.now body.now)) }
    ensures failed { CountsUp (W.failures sink.old) (W.failures sink.new)
        (if is_err result then 1 else 0) }
{
    let mut digits = Buffer::new();
    let length = digits.format(body.len()).as_bytes();
    let mut waiting = Pending::new();
    add_head(&mut waiting, sink, head, kind_text(head.kind), length)?;
    waiting.add(sink, body)?;
    waiting.send(sink)
}
