//! Whether units are enough.

ghost use Rattle.std.specs.Prelude.{◌≡◌, ◌≤◌, ◌<◌, true, false};

use mp_core::steps::Steps;

/// Whether so many units are left.
pub fn can_pay<S: Steps>(steps: &S, needs: u32) -> bool
    ensures enough { result ≡ true → needs ≤ (S.core steps.now).view.left }
    ensures short { result ≡ false → (S.core steps.now).view.left < needs }
{
    needs <= steps.left()
}
