//! Laps over plain memory.

ghost use Rattle.std.specs.Prelude.{◌≡◌, ◌≤◌, IfOk};
ghost use Rattle.mp_plain.specs.TwoPaths.{two_path_words};

use crate::lap::laps;
use mp_plain::plain::Plain;
use mp_words::answers::Answers;
use mp_words::near::Near;
use mp_words::numbers::Node;
use mp_words::words::Words;
use std::alloc::Global;
use thiserror::Error;

/// Why there are no laps to tell of.
#[derive(Clone, Copy, Debug, Error)]
pub enum BenchError {
    #[error("out of memory")]
    NoMemory,
}

/// What is told of laps: how many requests are done, and what stands in the words afterwards of the side that was
/// entered and of the path that is nearer.
#[derive(Clone, Copy)]
pub struct Told {
    pub done: u32,
    pub side: u64,
    pub depth: u64,
}

/// The words of two live, optimized and ready paths, listed under NUMA.
pub fn two_paths() -> Words
    ensures { result ≡ two_path_words }
{
    Words {
        index: 0,
        sides: [0, 0],
        order: 0xFFFF_FF10_0000_0000,
        rows: [
            0x0000_4240_0000_0000,
            0x0000_4241_0000_0000,
            0,
            0,
            0,
            0,
            0,
            0,
            0,
            0,
            0,
            0,
            0,
            0,
            0,
        ],
        depths: [0; 15],
        currents: [0; 8],
    }
}

/// One node, near to every controller.
pub fn one_node() -> Near {
    let mut distance = [[0; 8]; 8];
    distance[0][0] = 10;
    Near {
        nodes: 1,
        distance,
        home: [None; 64],
    }
}

/// So many laps of lane 0 over the words of two paths, with a status of 0 for each attempt.
///
/// # Errors
///
/// `NoMemory` where memory ran out.
pub fn bench(alloc: Global, count: u32) -> Result<Told, BenchError>
    requires { count ≤ 30000000 }
    ensures { IfOk result (λ t. t.done ≤ count) }
{
    let mut plain = Plain::make(alloc, &two_paths(), 2 * count).map_err(|_| BenchError::NoMemory)?;
    let node = Node::make(0).unwrap();
    let answers = Answers::make(alloc);
    let done = laps(alloc, &mut plain, &one_node(), node, &answers, count).map_err(
        |_| BenchError::NoMemory,
    )?;
    let words = plain.words();
    Ok(Told {
        done,
        side: words.sides[0],
        depth: words.depths[0],
    })
}
