//! The texts of the help.

pub(crate) const ABOUT: &str =
    "Plays AppleTalk internets, audits images of their tables, runs scripts over these, and \
    reads, shows, draws and joins the tables of an internet that stands.";

pub(crate) const AFTER_HELP: &str = "Without a command, atalk audits the image on standard input.

Exit status:
  0  yes: the tables keep every rule; or a run was made
  1  no: the line printed names the first rule that is broken, and where; or, with --settled, the
     first row that may change; or nobody answered a question
  2  the input is refused, for the reason that its number gives; or a usage error
  3  out of memory, or reading or writing failed

A refusal prints `refused: N` on standard error:
  8   the cables of an image aren't those of the image to which it is joined
  11  more happens in a play, or more is joined, than there is room for
  12  the input is no image
  13  the input is no internet file, or no tables file
  14  out of memory
  15  the input can't be opened or read
  16  the answer can't be written
  17  the script has a bad line
Where standard error is a terminal, a no and a refusal are explained there; --explain=always or the
variable ATALK_EXPLAIN says it everywhere.

Examples:
  atalk audit three-cables.image
  atalk trace three-cables.image echo.script
  atalk play two-routers.toml --image two-routers.image
  atalk play two-routers.toml --capture two-routers.pcapng
  atalk make museum.toml --image museum.image
  atalk draw museum.image | dot -Tsvg > museum.svg

More: man atalk, man atalk-image, man atalk-script, man atalk-internet, man atalk-tables";

pub(crate) const AFTER_COMMAND: &str = "Exit status:
  0  yes: the tables keep every rule; or what was asked for was done
  1  no: the line printed names the first rule that is broken, and where; or nobody answered
  2  refused: the input, by `refused: N` on standard error, or the arguments
  3  out of memory, or reading or writing failed

More: atalk --help has the numbers of refusals, and man atalk the rest";

pub(crate) const AUDIT: &str =
    "Judges images and prints one line for each: yes with a summary, or no with the first fault";

pub(crate) const TRACE: &str =
    "Runs a script over an image that passes the audit, and prints what happens";

pub(crate) const PLAY: &str =
    "Plays an internet file to its last tick, and prints what its nodes received and \
    the verdict on the tables";

pub(crate) const MAKE: &str =
    "Reads a tables file, which says what each router and node holds, and prints the verdict on it";

pub(crate) const SHOW: &str = "Prints the tables file of an image";

pub(crate) const DRAW: &str = "Prints a drawing of an image, in the language of Graphviz' dot";

pub(crate) const JOIN: &str =
    "Joins images of parts of one internet, over the same cables, into one, and prints the verdict \
    on it";

pub(crate) const ROUTE: &str = "Is a router of an internet file, on real cables";

pub(crate) const SURVEY: &str =
    "Asks all routers that can be reached from a real cable for what they hold: the capture of the \
    cable tells it";

pub(crate) const ASK: &str = "Asks stations that can be reached from a real cable one question";

pub(crate) const NAME: &str = "The interface that carries the cable";

pub(crate) const HARDWARE: &str =
    "The hardware address of the station that asks, in hexadecimal, as 02004E560001";

pub(crate) const QUESTION: &str =
    "echo ADDR, names OBJECT:TYPE@ZONE, zones, or routes with or without ADDR";

pub(crate) const LOCAL: &str = "The zones of the station's own cable";

pub(crate) const MINE: &str = "The zone in which the station is by default";

pub(crate) const COUNT: &str = "How many echoes are asked for; 1, if it isn't given";

pub(crate) const PARTS: &str =
    "The images, of which each has some of the routers and nodes; - is standard input";

pub(crate) const ROUTED: &str = "The internet file, which may not be -";

pub(crate) const ROUTER: &str = "The number of the router, as verdicts name it";

pub(crate) const CABLE: &str =
    "The interface that carries the cable with this number, in place of `cable K`; may be given for \
    each cable";

pub(crate) const EVERY: &str = "Writes the image every so many ticks too; asks for --image";

pub(crate) const LOG: &str = "Prints a line on standard error for each change of the tables";

pub(crate) const TABLES: &str = "The tables file; - is standard input";

pub(crate) const NET: &str = "Draws how each router sends datagrams for this network on";

pub(crate) const IMAGE: &str = "The image; - is standard input";

pub(crate) const IMAGES: &str =
    "The images; - is standard input. Of several, each line begins with its name";

pub(crate) const SCRIPT: &str = "The script; - is standard input";

pub(crate) const INTERNET: &str = "The internet file; - is standard input";

pub(crate) const OUT: &str = "The file for the image of the tables, which may not be -";

pub(crate) const CAPTURE: &str =
    "The file for a capture of the cables, in pcapng, for Wireshark, which may not be -";

pub(crate) const VERSION_2: &str =
    "Writes the image in version 2, with each station's mappings; without it the image is of \
    version 1 where that can hold the tables, else of version 2";

pub(crate) const EXPLAIN: &str =
    "When a person is told more on standard error: always, never, or auto, which is where that is a \
    terminal";

pub(crate) const QUIET: &str =
    "Prints nothing on standard output: the exit status tells the verdict";

pub(crate) const JSON: &str = "Prints one JSON object a line instead of text";

pub(crate) const SETTLED: &str =
    "After a yes, also tells whether routing data can still change a route: `settled: yes`, or \
    `settled: no` with the first row";
