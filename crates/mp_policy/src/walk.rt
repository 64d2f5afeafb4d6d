//! The walk of round robin: from behind the last choice, and round to before it.

ghost use Rattle.std.specs.Prelude.{◌≡◌, ◌≤◌, ◌<◌, ◌+◌, None, slice_index_or, fold, length};
ghost use Rattle.mp_words.specs.PathTable.{paths_of};
ghost use Rattle.mp_policy.specs.Walks.{walk_step, walk_after, after_walk};

use crate::listed::{count, path_at};
use crate::nearest::is_in;
use mp_words::path::Path;
use mp_words::reading::Reading;
use mp_words::states::{NON_OPTIMIZED, OPTIMIZED};

/// The first enabled optimized path and the last enabled non-optimized one that a walk met.
#[derive(Clone, Copy)]
pub struct Walked {
    pub first: Option<Path>,
    pub last: Option<Path>,
}

/// One path more.
fn walk_step(walked: Walked, path: Path) -> Walked
    ensures { result ≡ walk_step walked path }
{
    if is_in(&path, OPTIMIZED) {
        match walked.first {
            None => Walked {
                first: Some(path),
                last: walked.last,
            },
            Some(_) => walked,
        }
    } else if is_in(&path, NON_OPTIMIZED) {
        Walked {
            first: walked.first,
            last: Some(path),
        }
    } else {
        walked
    }
}

/// The path at a place of the walk from this place.
fn walk_path(reading: &Reading, place: usize, k: usize) -> Path
    requires within { reading.now.len ≤ 8 }
    requires listed { place < reading.now.len }
    requires k { k + 1 < reading.now.len }
    ensures path { result ≡ slice_index_or (walk_after place (paths_of reading.now)) k result }
    ensures within { k < length (walk_after place (paths_of reading.now)) }
{
    let count = count(reading);
    let next = place + 1 + k;
    if next < count {
        path_at(reading, next)
    } else {
        path_at(reading, next - count)
    }
}

/// The walk from this place.
pub(crate) fn walk(reading: &Reading, place: usize) -> Walked
    requires within { reading.now.len ≤ 8 }
    requires listed { place < reading.now.len }
    ensures { result ≡ fold walk_step (record { first = None; last = None }) (walk_after place (paths_of reading.now)) }
{
    let count = count(reading);
    let mut walked = Walked {
        first: None,
        last: None,
    };
    for k in 0..count - 1 {
        let path = walk_path(reading, place, k);
        walked = walk_step(walked, path);
    }
    walked
}

/// The choice after a walk from the last choice.
pub(crate) fn after_walk(last: &Path, walked: &Walked) -> Option<Path>
    ensures { result ≡ after_walk last.now walked.now }
{
    if walked.first.is_some() {
        walked.first
    } else if is_in(last, OPTIMIZED) {
        Some(*last)
    } else if walked.last.is_some() {
        walked.last
    } else if is_in(last, NON_OPTIMIZED) {
        Some(*last)
    } else {
        None
    }
}
