//! The answers of a text so far.

ghost use Rattle.std.specs.Prelude.{◌≡◌, ◌<◌, [], IfOk, OnOk, false, ℕ, List, map};
ghost use Rattle.std.specs.List.{list_any};
ghost use Rattle.mp_words.specs.Answers.{is_of, put_answer, IsAnswer};
ghost use Rattle.mp_script.specs.Answered.{answers_in};

use mp_words::answers::{Answer, Answers};
use std::alloc::{AllocError, AllocFailed, Global};
use std::collections::BTreeMap;
use std::marker::Model;

/// The answers so far, by request and attempt.
#[derive(Drop)]
pub(crate) struct Answered {
    found: BTreeMap<(u32, u32), Answer>,
}

impl Model for Answered {
    ghost use Rattle.std.specs.Prelude.{List};
    ghost use Rattle.mp_words.specs.declared.answers.Answer.{Answer};
    ghost use Rattle.mp_script.specs.Answered.{answers_in, AreEntries};

    ghost Value = { List Answer };

    ghost view = { λ a. answers_in a.found.entries };

    ghost invariant = { λ a. AreEntries a.found.entries };
}

impl Answered {
    /// No answers.
    pub(crate) fn make(alloc: Global) -> Answered
        ensures { result ≡ [] }
    {
        Answered {
            found: BTreeMap::new(alloc),
        }
    }

    /// Whether an attempt of a request has a status.
    pub(crate) fn has(&self, req: u32, attempt: u32) -> bool
        ensures { result ≡ list_any (is_of req attempt) self.now }
    {
        self.found.contains_key(&(req, attempt))
    }

    /// Puts an answer to the others, of an attempt that has none.
    pub(crate) fn put(&mut self, answer: Answer) -> Result<(), AllocError>
        requires answer { IsAnswer answer }
        requires apart { list_any (is_of answer.req answer.attempt) self.old ≡ false }
        ensures { OnOk result (self.new ≡ put_answer answer self.old) }
    {
        match self
            .found
            .insert((answer.req.get(), answer.attempt), answer)
        {
            Ok(_) => Ok(()),
            Err(_) => Err(AllocError),
        }
    }

    /// The answers in a list.
    pub(crate) fn answers(self, alloc: Global) -> Result<Answers, AllocError>
        ensures { IfOk result (λ a. a ≡ self) }
    {
        let answers = values(alloc, &self.found)?;
        Ok(Answers::from_sorted(answers))
    }
}

fn values(alloc: Global, found: &BTreeMap<(u32, u32), Answer>) -> Result<Vec<Answer>, AllocError>
    ensures { IfOk result (λ v. v.items ≡ answers_in found.now.entries) }
{
    found.values().copied().collect(alloc)
}
