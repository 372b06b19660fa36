//! The subprotocols that a request asks for.
ghost use Rattle.std.specs.Prelude.{◌≡◌, length, All, option_map};
ghost use Rattle.httparse.specs.Spans.{IsHeaderWithin, header_bytes};
ghost use Rattle.websocket.specs.Headers.{fields_of};
ghost use Rattle.serve_handshakes.specs.Protocols.{asks_protocol, field_asks, field_behind, has_word, protocol_behind};

use crate::fields::same_but_for_case;
use crate::shown::piece_behind;
use httparse::spans::HeaderSpan;

// Whether one of the pieces between spaces and commas is this word.
fn has_word(value: &[u8], wanted: &[u8]) -> bool
    ensures { result ≡ has_word value.now wanted.now }
{
    let mut start = 0;
    for i in 0..value.len() {
        if value[i] == b' ' || value[i] == b',' {
            if &value[start..i] == wanted {
                return true;
            }
            start = i + 1;
        }
    }
    &value[start..] == wanted
}

// Whether a field asks for this subprotocol.
fn field_asks(head: &[u8], span: &HeaderSpan, wanted: &[u8]) -> bool
    requires { IsHeaderWithin (length head.now) span.now }
    ensures { result ≡ field_asks (header_bytes head.now span.now) wanted.now }
{
    same_but_for_case(span.name.of(head), b"Sec-WebSocket-Protocol")
        && has_word(span.value.of(head), wanted)
}

/// Whether this subprotocol is asked for.
pub(crate) fn asks_protocol(head: &[u8], spans: &[HeaderSpan], wanted: &[u8]) -> bool
    requires { All (IsHeaderWithin (length head.now)) spans.now }
    ensures { result ≡ asks_protocol (fields_of head.now spans.now) wanted.now }
{
    for span in spans {
        if field_asks(head, span, wanted) {
            return true;
        }
    }
    false
}

// What stands behind this front in a field, if it asks for subprotocols.
fn field_behind<'b>(head: &'b [u8], span: &HeaderSpan, front: &[u8]) -> Option<&'b [u8]>
    requires { IsHeaderWithin (length head.now) span.now }
    ensures { option_map (λ v. v.now) result ≡ field_behind (header_bytes head.now span.now) front.now }
{
    if same_but_for_case(span.name.of(head), b"Sec-WebSocket-Protocol") {
        piece_behind(span.value.of(head), b' ', b',', front)
    } else {
        None
    }
}

/// What stands behind this front in the first subprotocol that begins with it.
pub(crate) fn protocol_behind<'b>(
    head: &'b [u8],
    spans: &[HeaderSpan],
    front: &[u8],
) -> Option<&'b [u8]>
    requires { All (IsHeaderWithin (length head.now)) spans.now }
    ensures { option_map (λ v. v.now) result ≡ protocol_behind (fields_of head.now spans.now) front.now }
{
    for span in spans {
        match field_behind(head, span, front) {
            Some(found) => return Some(found),
            None => {}
        }
    }
    None
}
