//! Laws of handshakes: functions that do nothing, and whose contracts are the laws.
ghost use Rattle.std.specs.Prelude.{◌≡◌, ℕ, None};
ghost use Rattle.serve_handshakes.specs.Answering.{Answers, AnswersAll, NamesNoToken};
ghost use Rattle.serve_handshakes.specs.declared.answer.Answer.{Answer};
ghost use Rattle.serve_handshakes.specs.declared.answer.Site.{Site};
ghost use Rattle.serve_handshakes.specs.declared.head.Request.{Request};
ghost use Rattle.serve_handshakes.specs.declared.greeting.TheConstants.{MAX_CLOSING_BYTES, MAX_HEAD_BYTES};
ghost use Rattle.serve_handshakes.specs.declared.guests.TheConstants.{MAX_HANDSHAKES};
ghost use Rattle.serve_handshakes.specs.declared.party.TheConstants.{MAX_EMPTY_READS};
ghost use Rattle.serve_handshakes.specs.declared.pace.TheConstants.{BURST_MICROSECONDS};

/// How many handshakes go on at most, how often one may read nothing, how long its head may be, how much is thrown away
/// behind an answer, and the handshakes of how many microseconds may come at once.
pub fn limits_are_these()
    ensures handshakes { MAX_HANDSHAKES ≡ 1024 }
    ensures empty { MAX_EMPTY_READS ≡ 200 }
    ensures head { MAX_HEAD_BYTES ≡ 8192 }
    ensures closing { MAX_CLOSING_BYTES ≡ 1048576 }
    ensures burst { BURST_MICROSECONDS ≡ 10000000 }
{}

/// Where clients don't sign in each request is answered as if there were no tokens, and nobody is told to sign in.
pub fn without_keys_nobody_signs_in()
    ensures as_before { (site : Site) (places : ℕ) (request : Request) (answer : Answer)
        → Answers site None places request answer → AnswersAll site places request answer }
    ensures no_token { (site : Site) (places : ℕ) (request : Request) (answer : Answer)
        → Answers site None places request answer → NamesNoToken answer }
{}
