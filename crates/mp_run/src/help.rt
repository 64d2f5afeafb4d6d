//! What the program says of itself.

ghost use Rattle.std.specs.Prelude.{◌≡◌};
ghost use Rattle.mp_run.specs.Help.{help_text, version_text};

const HELP: &str = "anamp: the paths of one NVMe namespace.\n\
\n\
\x20 anamp serial T P S   run the script S over the topology T, with the log pages in P, on one\n\
\x20                      thread, and write the paths and the outcome of each request\n\
\x20 anamp pages P MAX    write what the log pages in P say, where MAX is the greatest ANA group\n\
\x20 anamp --help         write this text\n\
\x20 anamp --version      write the name and the version of the program\n\
\n\
T    the topology, in TOML: the namespace, its controllers, nodes and distances, the policy\n\
P    boxes: ANA log pages (0Ch), each behind its length as four bytes, little endian; may be\n\
\x20    empty. Boxes are counted from 0\n\
S    the script: lanes of lines such as `submit 0 1` and `finish all`\n\
MAX  a number from 1 to 4294967295\n\
\n\
A file has at most 16777216 bytes. The text goes to standard output, and a line on standard\n\
error says why there is none. The status with which the program ends:\n\
\n\
\x20 0  the text was written        5  the topology is refused\n\
\x20 1  memory ran out              6  the script is refused\n\
\x20 2  the words are no form       7  the boxes are refused\n\
\x20 3  a file couldn't be read     8  a file is too long\n\
\x20 4  the output took no more     9  a lane is spent\n\
\n\
`file I` is the file's place among the files of the words, from 1.\n\
\n\
`lane L is spent`: each lane has 2097152 units, and the drain too, of which calls use some. L is\n\
the first lane that had fewer left than its next call needs, or 16 for the drain.\n\
\n\
`topology refused WORD FIELD I`: FIELD is the name of a field in the file. I counts from 0: for\n\
a controller's field it is the controller's place in the file, for `opening` the name's place in\n\
the list, for `distance` the row, or the number of nodes where there are more or fewer rows; else\n\
it is 0.\n\
\x20 NotToml    the text is no TOML table; nothing follows\n\
\x20 Field      a needed field is missing, or has another type\n\
\x20 Range      a value that isn't allowed, or the name of a controller or the number of a box that\n\
\x20            isn't there\n\
\x20 Duplicate  a name that stands there for the second time\n\
\x20 Limit      more than 64 controllers, or more than 8 names in `opening`\n\
\n\
`script refused WORD N`: N is the number of the line, from 1, where every line counts.\n\
\x20 NotAscii   a byte that no script has; here N is the byte's offset in the file, from 0\n\
\x20 Line       no line of a script, or one that can't stand there\n\
\x20 NotKeeper  a keeper's line in another lane\n\
\x20 Number     a number that is none, or is out of its range\n\
\x20 Unknown    a controller, box, state, policy or request that isn't there; a box for a\n\
\x20            controller without ANA, or none for one with it\n\
\x20 Repeat     a request submitted, an attempt answered or a keeper's lane begun a second time\n\
\x20 Limit      more than 65536 lines, or more than 16 lanes\n\
\n\
`boxes refused WORD N`: N is the offset of the box in the file, in bytes from 0.\n\
\x20 TooMany    more than 1024 boxes; no number follows\n\
\x20 ShortBox   fewer bytes are left than a length has, or than the box's length says\n\
\x20 LongBox    a length above 65536\n\
\n\
Example: anamp serial topology.toml boxes script\n";

const VERSION: &str = "anamp 0.2.0\n";

/// The help: the forms, the files, the statuses, the refusals, and an example.
#[tactic(auto, unfolding(crate::specs::Help::help_text))]
pub(crate) fn help() -> &'static str
    ensures { result.now ≡ help_text }
{
    HELP
}

/// The name and the version of the program.
#[tactic(auto, unfolding(crate::specs::Help::version_text))]
pub(crate) fn version() -> &'static str
    ensures { result.now ≡ version_text }
{
    VERSION
}
