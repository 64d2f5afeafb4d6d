//! What it means that names and statuses are written and read.

ghost use Rattle.std.specs.Prelude.{◌≡◌, ◌<◌, List, ℕ, Some};
ghost use Rattle.mp_words.specs.declared.row.CState.{CState};
ghost use Rattle.mp_words.specs.declared.row.Policy.{Policy};
ghost use Rattle.mp_words.specs.Names.{policy_word, policy_named, cstate_word, cstate_named};
ghost use Rattle.mp_words.specs.Status.{status_word, status_in};

/// Each policy is found by its name, and a word that finds a policy is its name.
pub fn policies_have_names()
    ensures found { (policy : Policy) → policy_named (policy_word policy) ≡ Some policy }
    ensures named { (word : List ℕ) (policy : Policy) → policy_named word ≡ Some policy → policy_word policy ≡ word }
{}

/// Each controller state is found by its name, and a word that finds a state is its name.
pub fn cstates_have_names()
    ensures found { (cstate : CState) → cstate_named (cstate_word cstate) ≡ Some cstate }
    ensures named { (word : List ℕ) (cstate : CState) → cstate_named word ≡ Some cstate → cstate_word cstate ≡ word }
{}

/// The word of a status is read as the status.
pub fn status_is_read()
    ensures { (status : ℕ) → status < 65536 → status_in (status_word status) ≡ Some status }
{}
