//! The vectors of RFC 4231.
use crate::{are_same, hmac_sha256};

// The number that a digit of hex is.
fn digit(d: u8) -> u8 {
    if d.is_ascii_digit() {
        d - b'0'
    } else if d >= b'a' && d <= b'f' {
        d - b'a' + 10
    } else {
        0
    }
}

// The code that 64 digits of hex are.
fn code(text: &[u8; 64]) -> [u8; 32] {
    let mut out = [0; 32];
    for i in 0..32 {
        out[i] = (digit(text[2 * i]) % 16) * 16 + digit(text[2 * i + 1]) % 16;
    }
    out
}

// 4.2
#[test]
fn case_1(rt: HostRuntime) {
    let wanted = code(b"b0344c61d8db38535ca8afceaf0bf12b881dc200c9833da726e9376c2e32cff7");
    assert!(rt; are_same(&hmac_sha256(&[0x0b; 20], b"Hi There"), &wanted));
}

// 4.3: a key shorter than the code
#[test]
fn case_2(rt: HostRuntime) {
    let wanted = code(b"5bdcc146bf60754e6a042426089575c75a003f089d2739839dec58b964ec3843");
    let found = hmac_sha256(b"Jefe", b"what do ya want for nothing?");
    assert!(rt; are_same(&found, &wanted));
    let other = code(b"5bdcc146bf60754e6a042426089575c75a003f089d2739839dec58b964ec3842");
    assert!(rt; !are_same(&found, &other));
}

// 4.4
#[test]
fn case_3(rt: HostRuntime) {
    let wanted = code(b"773ea91e36800e46854db8ebd09181a72959098b3ef8c122d9635514ced565fe");
    assert!(rt; are_same(&hmac_sha256(&[0xaa; 20], &[0xdd; 50]), &wanted));
}

// 4.5: a key of 25 bytes
#[test]
fn case_4(rt: HostRuntime) {
    let wanted = code(b"82558a389a443c0ea4cc819899f2083a85f0faa3e578f8077a2e3ff46729665b");
    let mut key = [0; 25];
    for i in 0..25 {
        key[i] = i as u8 + 1;
    }
    assert!(rt; are_same(&hmac_sha256(&key, &[0xcd; 50]), &wanted));
}

// 4.7: a key longer than a block
#[test]
fn case_6(rt: HostRuntime) {
    let wanted = code(b"60e431591ee0b67f0d8a26aacbf5b77f8e0bc6213728c5140546040f0ee37f54");
    let found = hmac_sha256(
        &[0xaa; 131],
        b"Test Using Larger Than Block-Size Key - Hash Key First",
    );
    assert!(rt; are_same(&found, &wanted));
}

// 4.8: the text is longer than a block too
#[test]
fn case_7(rt: HostRuntime) {
    let wanted = code(b"9b09ffa71b942fcb27635fbcd5b0e944bfdc63644f0713938a7f51535c3a35e2");
    let found = hmac_sha256(
        &[0xaa; 131],
        b"This is a test using a larger than block-size key and a larger than block-size data. The key needs to be hashed before being used by the HMAC algorithm.",
    );
    assert!(rt; are_same(&found, &wanted));
}
