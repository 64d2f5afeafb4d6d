//! Whether the log pages of the controllers are given.

ghost use Rattle.std.specs.Prelude.{◌≡◌, ◌≤◌, length};
ghost use Rattle.mp_checks.specs.Checks.{first_fault, value_unless};
ghost use Rattle.mp_topology.specs.Fits.{box_checks, fits_checks};

use crate::errors::{Field, TopologyError};
use crate::fields::at;
use crate::topology::Controller;

fn check_box(controller: &Controller, index: u32, boxes: usize) -> Result<(), TopologyError>
    ensures { result ≡ value_unless (first_fault (box_checks boxes index controller.now)) tt }
{
    match controller.page {
        Some(page) => {
            if (page as usize) < boxes {
                Ok(())
            } else {
                Err(TopologyError::Range(at(Field::Page, index)))
            }
        }
        None => Ok(()),
    }
}

/// Checks that the page of each controller is among this many boxes.
///
/// # Errors
///
/// `Range` at the page of the first whose page isn't.
#[tactic(auto, unfolding(crate::specs::Fits::fits_checks))]
pub(crate) fn check_boxes(controllers: &[Controller], boxes: usize) -> Result<(), TopologyError>
    requires { length controllers.now ≤ 64 }
    ensures { result ≡ value_unless (first_fault (fits_checks boxes controllers.now)) tt }
{
    for (i, controller) in controllers.iter().enumerate() {
        check_box(controller, i as u32, boxes)?;
    }
    Ok(())
}
