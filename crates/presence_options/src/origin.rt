//! What an origin is: whose pages may connect.
ghost use Rattle.std.specs.Prelude.{◌≡◌, slice_index};
ghost use Rattle.std.specs.Char.{is_ascii_lowercase};
ghost use Rattle.presence_options.specs.Origins.{behind, is_behind_scheme, is_bracketed, is_end, is_named, is_of_host, is_of_sockets, is_origin, is_place, is_port, is_port_of_scheme, is_without_host, may_be_in};

/// The parts of an origin that may have more than one byte, and of a peer's place.
#[derive(Clone, Copy, PartialEq, Eq, Debug)]
pub(crate) enum Part {
    Scheme,
    Host,
    /// An IPv6 address.
    Address,
    /// An IPv6 address whose end may be written as an IPv4 one.
    Mixed,
}

// Whether the byte may stand in this part.
fn may_be_in(part: Part, byte: u8) -> bool
    ensures { result ≡ may_be_in part byte }
{
    match part {
        Part::Scheme => {
            byte.is_ascii_lowercase()
                || byte.is_ascii_digit()
                || byte == b'+'
                || byte == b'-'
                || byte == b'.'
        }
        Part::Host => byte.is_ascii_alphanumeric() || byte == b'-' || byte == b'.' || byte == b'_',
        Part::Address => byte.is_ascii_hexdigit() || byte == b':',
        Part::Mixed => byte.is_ascii_hexdigit() || byte == b':' || byte == b'.',
    }
}

/// What stands behind the bytes that may stand in this part.
pub(crate) fn behind(part: Part, text: &[u8]) -> &[u8]
    ensures { result.now ≡ behind part text.now }
{
    for i in 0..text.len() {
        if !may_be_in(part, text[i]) {
            return &text[i..];
        }
    }
    &text[text.len()..]
}

// Whether the text is a number from 1 to 65535, without a zero in front.
fn is_port(text: &[u8]) -> bool
    ensures { result ≡ is_port text.now }
{
    let mut port: u32 = 0;
    for digit in text {
        if !digit.is_ascii_digit() {
            return false;
        }
        port = port * 10 + u32::from(*digit - b'0');
        if port == 0 || port > 65_535 {
            return false;
        }
    }
    port > 0
}

// Whether the text is nothing, or `:` and a port.
fn is_end(text: &[u8]) -> bool
    ensures { result ≡ is_end text.now }
{
    text.is_empty() || text.starts_with(b":") && is_port(&text[1..])
}

// Whether the text is a host's name, and the end of an origin.
fn is_named(place: &[u8]) -> bool
    ensures { result ≡ is_named place.now }
{
    let rest = behind(Part::Host, place);
    rest.len() < place.len() && is_end(rest)
}

// Whether the text is an IPv6 address, `]`, and the end of an origin.
fn is_bracketed(place: &[u8]) -> bool
    ensures { result ≡ is_bracketed place.now }
{
    let rest = behind(Part::Address, place);
    rest.len() < place.len() && rest.starts_with(b"]") && is_end(&rest[1..])
}

// Whether the text is a host, and a port where it has one.
fn is_place(place: &[u8]) -> bool
    ensures { result ≡ is_place place.now }
{
    if place.starts_with(b"[") {
        is_bracketed(&place[1..])
    } else {
        is_named(place)
    }
}

// Whether the scheme is one of WebSockets, which no page has.
fn is_of_sockets(text: &[u8]) -> bool
    ensures { result ≡ is_of_sockets text.now }
{
    text.starts_with(b"ws://") || text.starts_with(b"wss://")
}

// Whether the port is the scheme's own, which browsers leave out.
fn is_port_of_scheme(text: &[u8]) -> bool
    ensures { result ≡ is_port_of_scheme text.now }
{
    text.starts_with(b"http://") && text.ends_with(b":80")
        || text.starts_with(b"https://") && text.ends_with(b":443")
}

// Whether the text begins with a small letter.
fn begins_with_a_letter(text: &[u8]) -> bool
    ensures { result ≡ is_ascii_lowercase (slice_index text.now 0) }
{
    !text.is_empty() && text[0].is_ascii_lowercase()
}

// Whether the text is what stands behind a scheme.
fn is_behind_scheme(text: &[u8]) -> bool
    ensures { result ≡ is_behind_scheme text.now }
{
    text.starts_with(b"://") && is_place(&text[3..])
}

// Whether the text is `scheme://host` or `scheme://host:port`.
fn is_of_host(text: &[u8]) -> bool
    ensures { result ≡ is_of_host text.now }
{
    begins_with_a_letter(text)
        && is_behind_scheme(behind(Part::Scheme, text))
        && !is_of_sockets(text)
        && !is_port_of_scheme(text)
}

// Whether the text is what pages without a host tell.
fn is_without_host(text: &[u8]) -> bool
    ensures { result ≡ is_without_host text.now }
{
    text == b"null".as_slice() || text == b"file://".as_slice()
}

/// Whether the text is an origin as browsers tell it.
#[tactic(auto, unfolding(crate::specs::Origins::is_origin))]
pub(crate) fn is_origin(text: &[u8]) -> bool
    ensures { result ≡ is_origin text.now }
{
    is_without_host(text) || is_of_host(text)
}

// Whether the scheme has a capital.
fn has_capital_in_scheme(text: &[u8]) -> bool {
    match behind(Part::Scheme, text).first() {
        Some(byte) => byte.is_ascii_uppercase(),
        None => false,
    }
}

/// What is wrong with a text that is no origin.
pub(crate) fn flaw_of(text: &str) -> &'static str {
    if text == "*" {
        "pages of any may connect where none is given"
    } else if text.ends_with('/') {
        "it ends in a slash"
    } else if !text.contains("://") {
        "it has no scheme"
    } else if has_capital_in_scheme(text.as_bytes()) {
        "browsers tell a scheme in lower case"
    } else if is_of_sockets(text.as_bytes()) {
        "a page has no such scheme: write http or https"
    } else if is_port_of_scheme(text.as_bytes()) {
        "browsers leave out a port that is the scheme's own"
    } else {
        "its scheme, its host or its port is none"
    }
}
