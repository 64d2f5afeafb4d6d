//! The first of the nearest paths.

ghost use Rattle.std.specs.Prelude.{◌≡◌, ◌≤◌, None, filter};
ghost use Rattle.mp_words.specs.PathTable.{paths_of, is_in};
ghost use Rattle.mp_policy.specs.Nearer.{nearer_of};
ghost use Rattle.mp_policy.specs.Choices.{first_nearest, nearest_choice};

use crate::distance::Distance;
use crate::listed::path_at;
use mp_words::path::Path;
use mp_words::reading::Reading;
use mp_words::states::{NON_OPTIMIZED, OPTIMIZED};

/// Whether the path is enabled and in this ANA state.
pub(crate) fn is_in(path: &Path, state: u8) -> bool
    ensures { result ≡ is_in state path.now }
{
    let its_state = path.row.state;
    path.row.enabled() && its_state == state
}

/// The path, where it is nearer than the best so far, else that.
fn nearer<D: Distance>(best: Option<Path>, path: Path, by: &D) -> Path
    ensures { result ≡ nearer_of (D.far by.now) best path }
{
    match best {
        None => path,
        Some(best) => {
            if by.of(&path) < by.of(&best) {
                path
            } else {
                best
            }
        }
    }
}

/// The first of the nearest paths that are enabled and in this state.
fn nearest<D: Distance>(reading: &Reading, state: u8, by: &D) -> Option<Path>
    requires { reading.now.len ≤ 8 }
    ensures { result ≡ first_nearest (D.far by.now) (filter (is_in state) (paths_of reading.now)) }
{
    let mut best: Option<Path> = None;
    for place in 0..usize::from(reading.len) {
        let path = path_at(reading, place);
        let is_candidate = is_in(&path, state);
        if is_candidate {
            best = Some(nearer(best, path, by));
        }
    }
    best
}

/// The first of the nearest optimized paths, else of the nearest non-optimized ones.
pub(crate) fn nearest_of_both<D: Distance>(reading: &Reading, by: &D) -> Option<Path>
    requires { reading.now.len ≤ 8 }
    ensures { result ≡ nearest_choice (D.far by.now) (paths_of reading.now) }
{
    match nearest(reading, OPTIMIZED, by) {
        Some(path) => Some(path),
        None => nearest(reading, NON_OPTIMIZED, by),
    }
}
