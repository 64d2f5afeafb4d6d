//! The forms of the program's words.

ghost use Rattle.std.specs.Prelude.{◌≡◌, option_map, map, string_bytes};
ghost use Rattle.mp_run.specs.Forms.{bound_in, option_form, pages_form, form_of};
ghost use Rattle.mp_run.specs.FormsView.{told_form};

use mp_checks::digits::number_of;

/// The greatest ANA group identifier that there can be.
const MOST_GROUPS: u64 = 4_294_967_295;

/// The names of the three files of a run.
#[derive(Clone, Copy)]
pub(crate) struct Names<'w> {
    pub topology: &'w str,
    pub boxes: &'w str,
    pub script: &'w str,
}

/// What words ask for.
#[derive(Clone, Copy)]
pub(crate) enum Form<'w> {
    /// A run of three files on one thread.
    Serial(Names<'w>),
    /// The text of the pages of a file of boxes, whose groups are at most so great.
    Pages(&'w str, u32),
    Help,
    Version,
}

/// A bound on ANA groups: one to ten digits, of a number from 1 to 4,294,967,295.
fn bound(digits: &[u8]) -> Option<u32>
    ensures { result ≡ bound_in digits.now }
{
    let bound = number_of(digits)?;
    if 1 <= bound && bound <= MOST_GROUPS {
        Some(bound as u32)
    } else {
        None
    }
}

/// The form of a word alone.
fn option_form<'w>(word: &'w str) -> Option<Form<'w>>
    ensures { option_map told_form result ≡ option_form word.now }
{
    match word {
        "--help" => Some(Form::Help),
        "--version" => Some(Form::Version),
        _ => None,
    }
}

/// The form of the text of pages under a bound, if there is one.
fn pages_form<'w>(boxes: &'w str, bound: Option<u32>) -> Option<Form<'w>>
    ensures { option_map told_form result ≡ pages_form boxes.now bound }
{
    bound.map(|bound| Form::Pages(boxes, bound))
}

/// The form of the words, if they have one.
pub(crate) fn form_of<'w>(words: &'w [String]) -> Option<Form<'w>>
    ensures { option_map told_form result ≡ form_of (map string_bytes words.now) }
{
    match words {
        [word] => option_form(word.as_str()),
        [form, boxes, most] => {
            if form.as_str() == "pages" {
                pages_form(boxes.as_str(), bound(most.as_bytes()))
            } else {
                None
            }
        }
        [form, topology, boxes, script] => {
            if form.as_str() == "serial" {
                Some(Form::Serial(Names {
                    topology: topology.as_str(),
                    boxes: boxes.as_str(),
                    script: script.as_str(),
                }))
            } else {
                None
            }
        }
        _ => None,
    }
}
