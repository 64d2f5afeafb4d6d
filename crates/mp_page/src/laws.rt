//! What the definitions of this crate say, in words of their own. The functions do nothing: each one's contract is a law.
ghost use Rattle.std.specs.Prelude.{◌≡◌, ◌↔◌, ◌⊎◌, ◌≤◌, ◌++◌, ◌∷◌, ℕ, true, false, List, length, slice_index, Some, None, IfSome, Ok, Err};
ghost use Rattle.std.specs.List.{AllByRecursion};
ghost use Rattle.mp_page.specs.declared.page.Group.{Group};
ghost use Rattle.mp_page.specs.declared.page.Page.{Page};
ghost use Rattle.mp_page.specs.declared.page.PageError.{PageError};
ghost use Rattle.mp_page.specs.declared.boxes.BoxError.{BoxError};
ghost use Rattle.mp_page.specs.Page.{page_in};
ghost use Rattle.mp_page.specs.Grammar.{IsPage, IsReserved, IsRefused};
ghost use Rattle.mp_page.specs.Written.{page_bytes, CanWritePage, FitsPage};
ghost use Rattle.mp_page.specs.Gifts.{names, state_for};
ghost use Rattle.mp_page.specs.Boxes.{boxes_in, IsFile, IsFileRefused};

/// Every sequence of bytes is a page or is refused.
pub fn page_or_refused()
    ensures { (max : ℕ) (bytes : List ℕ) → ((page : Page) × IsPage max bytes page) ⊎ ((refusal : PageError) × IsRefused max bytes refusal) }
{}

/// What is read is the page that the bytes are, of which there is one at most.
pub fn page_is_read()
    ensures { (max : ℕ) (bytes : List ℕ) (page : Page) → (page_in max bytes ≡ Ok page) ↔ IsPage max bytes page }
{}

/// What is answered otherwise is why the bytes are no page, for which there is one reason at most.
pub fn refusal_is_read()
    ensures { (max : ℕ) (bytes : List ℕ) (refusal : PageError) → (page_in max bytes ≡ Err refusal) ↔ IsRefused max bytes refusal }
{}

/// Want of memory is no reason.
pub fn memory_is_no_refusal()
    ensures { (max : ℕ) (bytes : List ℕ) → page_in max bytes ≡ Err PageError.NoMemory → ⊥ }
{}

/// What is written reads back as the same page, under each bound that its groups keep.
pub fn written_page_is_read()
    ensures { (max : ℕ) (page : Page) → CanWritePage page → FitsPage page → AllByRecursion (λ group. group.id ≤ max) page.groups → page_in max (page_bytes page) ≡ Ok page }
{}

/// Bytes after the last descriptor change nothing.
pub fn more_bytes_are_the_page()
    ensures { (max : ℕ) (bytes more : List ℕ) (page : Page) → IsPage max bytes page → IsPage max (bytes ++ more) page }
{}

/// Reserved bytes change nothing: bytes that differ from a page's only there are the same page.
pub fn reserved_bytes_are_free()
    ensures { (max : ℕ) (bytes other : List ℕ) (page : Page) → IsPage max bytes page → length other ≡ length bytes
        → ((place : ℕ) → (IsReserved page place → ⊥) → slice_index other place ≡ slice_index bytes place) → IsPage max other page }
{}

/// What is read of a file is the boxes that it is.
pub fn file_is_read()
    ensures { (bytes : List ℕ) (boxes : List (List ℕ)) → (boxes_in bytes ≡ Ok boxes) ↔ IsFile bytes boxes }
{}

/// What is answered otherwise is why the bytes are no file, for which there is one reason at most.
pub fn file_refusal_is_read()
    ensures { (bytes : List ℕ) (refusal : BoxError) → (boxes_in bytes ≡ Err refusal) ↔ IsFileRefused bytes refusal }
{}

/// The last descriptor that names a namespace states its state.
pub fn last_descriptor_states()
    ensures { (page : Page) (nsid : ℕ) (before after : List Group) (group : Group) → page.groups ≡ before ++ group ∷ after → names nsid group ≡ true
        → AllByRecursion (λ other. names nsid other ≡ false) after → state_for page nsid ≡ Some group.state }
{}

/// No state is stated exactly where no descriptor names the namespace.
pub fn unnamed_has_no_state()
    ensures { (page : Page) (nsid : ℕ) → (state_for page nsid ≡ None) ↔ AllByRecursion (λ group. names nsid group ≡ false) page.groups }
{}

/// The state that a page states of a namespace is an ANA state, from 1 to 15.
pub fn stated_state_is_in_range()
    ensures { (max : ℕ) (bytes : List ℕ) (page : Page) (nsid : ℕ) → page_in max bytes ≡ Ok page → IfSome (state_for page nsid) (λ state. (1 ≤ state) × (state ≤ 15)) }
{}
