// How far a branch may go.
ghost use Rattle.std.specs.Prelude.{◌≡◌, ℕ, ◌*◌, ◌*ℤ◌, pos};
ghost use Rattle.armv7.specs.Faults.{place_index};
ghost use Rattle.sink.specs.Outcome.{outcome};
ghost use Rattle.visitor.specs.Operands.{beyond};

use armv7::{Fault, Place};

// Refuses a branch whose distance, in steps of the scale, does not fit 32 bits when it is told in bytes.
pub fn admit_distance(distance: i32, scale: u8, place: Place) -> Result<(), Fault>
    ensures bytes { outcome result ≡ beyond (place_index place) 2147483648 (distance *ℤ pos scale) }
    ensures steps { (steps : ℕ) → scale * steps ≡ 2147483648 → outcome result ≡ beyond (place_index place) steps distance }
{
    let bytes = distance.checked_mul(i32::from(scale));
    bytes.ok_or(Fault::Displacement(place))?;
    Ok(())
}
