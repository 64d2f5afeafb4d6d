//! The places of controllers by their names.

ghost use Rattle.std.specs.Prelude.{◌≡◌, ◌<◌, ◌≤◌, length, IfOk, List, ℕ, Some, None, is_some, if◌then◌else◌};
ghost use Rattle.std.specs.Borrow.{Bor};
ghost use Rattle.std.specs.BTreeMap.{get};
ghost use Rattle.std.specs.Str.{bytes_eq};
ghost use Rattle.mp_script.specs.Places.{key_cmp, HasPlaces};

use mp_topology::topology::Controller;
use mp_words::numbers::Ctrl;
use std::alloc::{AllocError, Global};
use std::collections::BTreeMap;

/// The places with one name more, where it isn't there.
fn put<'a>(
    places: BTreeMap<&'a [u8], Ctrl>,
    name: &'a [u8],
    ctrl: Ctrl,
) -> Result<BTreeMap<&'a [u8], Ctrl>, AllocError>
    ensures { IfOk result (λ m. (w : Bor (List ℕ)) → get key_cmp m w ≡ (if is_some (get key_cmp places.entry w) then get key_cmp places.entry w else if bytes_eq name.now w.now then Some ctrl else None)) }
{
    let mut places = places;
    if places.contains_key(&name) {
        return Ok(places);
    }
    match places.insert(name, ctrl) {
        Ok(_) => Ok(places),
        Err(_) => Err(AllocError),
    }
}

fn ctrl_at(place: usize) -> Ctrl
    requires { place < 64 }
    ensures { result ≡ place }
{
    Ctrl::make(place as u32).unwrap()
}

/// The place of the name of each of at most 64 controllers.
///
/// # Errors
///
/// `AllocError` where memory runs out.
pub(crate) fn places_of<'a>(
    alloc: Global,
    controllers: &'a [Controller],
) -> Result<BTreeMap<&'a [u8], Ctrl>, AllocError>
    requires { length controllers.now ≤ 64 }
    ensures { IfOk result (HasPlaces controllers.now) }
{
    let mut places = BTreeMap::new(alloc);
    for (i, controller) in controllers.iter().enumerate() {
        let name = controller.name.as_str().as_bytes();
        places = put(places, name, ctrl_at(i))?;
    }
    Ok(places)
}
