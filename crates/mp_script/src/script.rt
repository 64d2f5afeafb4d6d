//! What a script says.

ghost use Rattle.std.specs.Prelude.{◌≡◌, IfOk, IfErr};

use crate::errors::ScriptError;
use crate::pages::Pages;
use mp_topology::topology::Topology;
use mp_words::answers::Answers;
use mp_words::numbers::{Ctrl, Node, ReqId};
use mp_words::row::{CState, Policy};
use sqlite_items::Items;
use std::alloc::Global;

/// What one line of a lane asks for. A box is named by its number, from 0.
#[derive(Clone, Copy)]
pub enum Line {
    Submit(ReqId, Node),
    Finish(ReqId),
    FinishAll,
    Requeue,
    Log(Ctrl, u32),
    Ctrl(Ctrl, CState),
    Anatt(Ctrl),
    Add(Ctrl, Option<u32>),
    Remove(Ctrl),
    Reap,
    Policy(Policy),
}

/// A line with its number in the file, from 1.
#[derive(Clone, Copy)]
pub struct Numbered1 {
    pub number: u32,
    pub line: Line,
}

/// The lines of one lane, in order, and whether it is the keeper's.
#[derive(Drop)]
pub struct LanePlan {
    pub keeper: bool,
    pub lines: Items<Numbered1>,
}

impl LanePlan {
    /// A plan that equals this one.
    ///
    /// # Errors
    ///
    /// `NoMemory` where memory runs out.
    pub fn copy(&self, alloc: Global) -> Result<LanePlan, ScriptError>
        ensures equal { IfOk result (λ plan. plan ≡ self.now) }
        ensures cause { IfErr result (λ e. e ≡ ScriptError.NoMemory) }
    {
        // The proof needs each type inside a line named here.
        let _: (Option<Line>, Option<CState>, Option<Policy>) = (None, None, None);
        let lines = Items::from_slice(alloc, self.lines.as_slice())?;
        Ok(LanePlan {
            keeper: self.keeper,
            lines,
        })
    }
}

/// The scripted statuses, and the lanes in order.
#[derive(Drop)]
pub struct Script {
    pub answers: Answers,
    pub lanes: Items<LanePlan>,
}

/// The topology, and the bytes of each box's page.
#[derive(Drop)]
pub struct World {
    pub topology: Topology,
    pub pages: Pages,
}
