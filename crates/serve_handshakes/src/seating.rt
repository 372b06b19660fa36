//! Who may have a WebSocket.
ghost use Rattle.std.specs.Prelude.{◌≡◌, ◌≤◌};
ghost use Rattle.serve_handshakes.specs.Seating.{places_behind, seated_in};

use crate::answer::Answer;

/// How a client stands among those of its address.
#[derive(Clone, Copy, PartialEq, Eq, Debug)]
pub enum Admission {
    /// It may have a place, if there is one.
    Welcome,
    /// As many clients of its address are here as may be.
    OneTooMany,
    /// Clients of its address come too fast.
    TooSoon,
    /// There is no file or no memory for a place.
    NoRoom,
}

/// What a client gets to whom a request is answered so, where it stands so and there are so many places: a WebSocket takes one
/// of them, and without one there is none.
pub fn seated(answer: Answer, standing: Admission, places: &mut u64) -> Answer
    ensures answer { result ≡ seated_in standing places.old answer }
    ensures places { places.new ≡ places_behind standing places.old answer }
    ensures fewer { places.new ≤ places.old }
{
    let Answer::Socket(_) = answer else {
        return answer;
    };
    match standing {
        Admission::OneTooMany => Answer::Crowded,
        Admission::TooSoon => Answer::Hasty,
        Admission::NoRoom => Answer::Full,
        Admission::Welcome if *places == 0 => Answer::Full,
        Admission::Welcome => {
            *places -= 1;
            answer
        }
    }
}
