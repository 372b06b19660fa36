//! Notices.
use presence_base::Text;
use std::alloc::{AllocError, Global};
use std::marker::Model;

/// The longest notice, in bytes.
pub const MAX_NOTICE_BYTES: usize = 256;

/// What is noted of a join or a leave: a text of at most 256 bytes.
#[derive(Debug)]
pub struct Notice {
    text: Text,
}

impl Drop for Notice {
    fn drop(self) {
        let Notice { text } = self;
        drop(text);
    }
}

impl Model for Notice {
    ghost use Rattle.std.specs.Prelude.{List, ℕ, IsTrue};
    ghost use Rattle.hook_registry.specs.Noted.{is_notice};

    ghost Value = { List ℕ };

    ghost view = { λ n. n.text };

    ghost invariant = { λ n. IsTrue (is_notice n.text) };
}

impl Notice {
    ghost use Rattle.std.specs.Prelude.{◌≡◌, [], false, IfOk, IsTrue};
    ghost use Rattle.presence_base.specs.Names.{guarded};
    ghost use Rattle.hook_registry.specs.Noted.{is_notice};

    /// The empty text.
    pub fn empty(alloc: Global) -> Notice
        ensures { result ≡ [] }
    {
        Notice {
            text: Text::of_string(String::new(alloc)),
        }
    }

    /// The notice that the text is, or `None` where it is longer than 256 bytes.
    pub fn new(alloc: Global, text: &str) -> Result<Option<Notice>, AllocError>
        ensures text { IfOk result (λ o. o ≡ guarded (is_notice text.now) text.now) }
        ensures none { is_notice text.now ≡ false → result ≡ Ok None }
    {
        if text.len() > MAX_NOTICE_BYTES {
            return Ok(None);
        }
        let text = Text::new(alloc, text)?;
        Ok(Some(Notice { text }))
    }

    pub fn as_str(&self) -> &str
        ensures text { result.now ≡ self.now }
        ensures limits { IsTrue (is_notice self.now) }
    {
        self.text.as_str()
    }
}
