//! Laws of requests: functions that do nothing, and whose contracts are the laws.
ghost use Rattle.std.specs.Prelude.{◌≡◌};
ghost use Rattle.serve_handshakes.specs.declared.fields.TheConstants.{MAX_BODY_BYTES};
ghost use Rattle.serve_handshakes.specs.declared.head.TheConstants.{MAX_FIELDS};

/// How many fields a head may have, and how many bytes a body.
pub fn limits_are_these()
    ensures fields { MAX_FIELDS ≡ 124 }
    ensures body { MAX_BODY_BYTES ≡ 65536 }
{}
