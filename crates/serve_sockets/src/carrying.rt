//! Streams that carry what their clients have shown.

/// A stream that carries the token which its client has shown.
pub trait CarriesToken {
    ghost use Rattle.std.specs.Prelude.{◌≡◌, ℕ, List, Option, option_map};

    /// That token.
    ghost carried: { Self → Option (List ℕ) };

    /// That token.
    fn token(&self) -> Option<&[u8]>
        ensures { option_map (λ v. v.now) result ≡ carried self.now };
}
