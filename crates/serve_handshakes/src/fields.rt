//! What stands in the fields of a head.
ghost use Rattle.std.specs.Prelude.{◌≡◌, length, All, option_map};
ghost use Rattle.httparse.specs.Spans.{IsHeaderWithin};
ghost use Rattle.websocket.specs.Headers.{eq_ignore_case, fields_of, has_token, header_value, is_some_text};
ghost use Rattle.serve_handshakes.specs.Fields.{host_count, is_long_from, is_long_body, lists};

use httparse::spans::HeaderSpan;

/// How many bytes of a body a request may announce.
pub const MAX_BODY_BYTES: u64 = 65_536;

/// Whether the texts are equal but for the case of letters.
pub(crate) fn same_but_for_case(a: &[u8], b: &[u8]) -> bool
    ensures { result ≡ eq_ignore_case a.now b.now }
{
    a.eq_ignore_ascii_case(b)
}

/// The value of the first field with this name.
pub(crate) fn field<'b>(head: &'b [u8], spans: &[HeaderSpan], name: &[u8]) -> Option<&'b [u8]>
    requires { All (IsHeaderWithin (length head.now)) spans.now }
    ensures { option_map (λ v. v.now) result ≡ header_value (fields_of head.now spans.now) name.now }
{
    for span in spans {
        if same_but_for_case(span.name.of(head), name) {
            return Some(span.value.of(head));
        }
    }
    None
}

/// How many fields tell the host.
pub(crate) fn host_count(head: &[u8], spans: &[HeaderSpan]) -> usize
    requires { All (IsHeaderWithin (length head.now)) spans.now }
    ensures { result ≡ host_count (fields_of head.now spans.now) }
{
    let mut count = 0;
    for span in spans {
        if same_but_for_case(span.name.of(head), b"Host") {
            count += 1;
        }
    }
    count
}

// Whether one of the pieces between spaces and commas is this one, but for the case of letters.
fn has_token(value: &[u8], wanted: &[u8]) -> bool
    ensures { result ≡ has_token value.now wanted.now }
{
    let mut start = 0;
    for i in 0..value.len() {
        if value[i] == b' ' || value[i] == b',' {
            if same_but_for_case(&value[start..i], wanted) {
                return true;
            }
            start = i + 1;
        }
    }
    same_but_for_case(&value[start..], wanted)
}

/// Whether the fields with this name, which are one list, list this, whatever the case of letters.
pub(crate) fn lists(head: &[u8], spans: &[HeaderSpan], name: &[u8], wanted: &[u8]) -> bool
    requires { All (IsHeaderWithin (length head.now)) spans.now }
    ensures { result ≡ lists (fields_of head.now spans.now) name.now wanted.now }
{
    for span in spans {
        if same_but_for_case(span.name.of(head), name) && has_token(span.value.of(head), wanted) {
            return true;
        }
    }
    false
}

/// Whether a field is this, if it is there.
pub(crate) fn tells(value: Option<&[u8]>, wanted: &[u8]) -> bool
    ensures { result ≡ is_some_text (option_map (λ v. v.now) value.entry) wanted.now }
{
    match value {
        Some(value) => same_but_for_case(value, wanted),
        None => false,
    }
}

// Whether a number is above what a body may have.
fn is_long(digits: &[u8]) -> bool
    ensures { result ≡ is_long_from 0 digits.now }
{
    let mut bytes: u64 = 0;
    for digit in digits {
        if !digit.is_ascii_digit() {
            return false;
        }
        bytes = (bytes * 10 + u64::from(*digit - b'0')).min(MAX_BODY_BYTES + 1);
    }
    bytes > MAX_BODY_BYTES
}

/// Whether the length of a body is above what it may be, if it is told.
pub(crate) fn is_long_body(length: Option<&[u8]>) -> bool
    ensures { result ≡ is_long_body (option_map (λ v. v.now) length.entry) }
{
    match length {
        Some(digits) => is_long(digits),
        None => false,
    }
}
