//! Files of keys.
use crate::{KeyFault, Keys, KeysFault};
use std::alloc::Global;
use std::test::Fail;

// What is wrong with a file of this text.
fn fault(alloc: Global, text: &str) -> Result<Option<KeysFault>, Fail> {
    match Keys::read(alloc, String::from_str(alloc, text)?) {
        Ok(_) => Ok(None),
        Err(fault) => Ok(Some(fault)),
    }
}

#[test]
fn both_kinds(rt: HostRuntime) -> Result<(), Fail> {
    let alloc = rt.alloc();
    let text = String::from_str(
        alloc,
        "base64url:AAECAwQFBgcICQoLDA0ODxAREhMUFRYXGBkaGxwdHh8\nplain-key-of-thirty-two-bytes-000\r\n",
    )?;
    let Ok(keys) = Keys::read(alloc, text) else {
        return Err(Fail::from("it is refused"));
    };
    let keys = keys.as_slice();
    assert_eq!(rt; keys.len(), 2);
    assert_eq!(rt; keys[0].len(), 32);
    assert_eq!(rt; keys[0].as_slice()[31], 31);
    assert!(rt; keys[1].as_slice() == b"plain-key-of-thirty-two-bytes-000".as_slice());
    Ok(())
}

#[test]
fn refused(rt: HostRuntime) -> Result<(), Fail> {
    let alloc = rt.alloc();
    assert_eq!(rt; fault(alloc, "")?, Some(KeysFault::NoKey));
    assert_eq!(rt;
        fault(alloc, "plain-key-of-thirty-two-bytes-000\nshort\n")?,
        Some(KeysFault::Line {
            line: 2,
            fault: KeyFault::TooShort
        })
    );
    assert_eq!(rt;
        fault(alloc, "a key with spaces, of thirty-two bytes or more\n")?,
        Some(KeysFault::Line {
            line: 1,
            fault: KeyFault::NotVisible
        })
    );
    assert_eq!(rt;
        fault(
            alloc,
            "base64url:AAECAwQFBgcICQoLDA0ODxAREhMUFRYXGBkaGxwdHh8="
        )?,
        Some(KeysFault::Line {
            line: 1,
            fault: KeyFault::NotBase64
        })
    );
    Ok(())
}
