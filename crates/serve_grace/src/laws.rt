//! Laws of the grace: functions that do nothing, and whose contracts are the laws.
ghost use Rattle.std.specs.Prelude.{◌≡◌, ◌≤◌, ℕ};
ghost use Rattle.serve_grace.specs.Staying.{Stays};

/// Who stays was there; behind the grace nobody stays, and the later it is the fewer do.
pub fn all_are_let_go()
    ensures there { (clients passed grace stay : ℕ) → Stays clients passed grace stay → stay ≤ clients }
    ensures ended { (clients passed grace stay : ℕ) → Stays clients passed grace stay → grace ≤ passed → stay ≡ 0 }
    ensures later { (clients passed more grace stay fewer : ℕ) → Stays clients passed grace stay → passed ≤ more
        → Stays clients more grace fewer → fewer ≤ stay }
{}
