//! What the program says of itself.

use crate::{Exit, print_line};
use std::rt::Runtime;

/// How the program is called, for whoever called it otherwise.
pub(crate) const USAGE: &str =
    "usage: connector packet HEX, check CONFIG, replay CONFIG, serve CONFIG [JOURNAL], new-period CONFIG JOURNAL [NEW-CONFIG], follows JOURNAL [CONFIG ..], follows CONFIG JOURNAL.P NEW-CONFIG JOURNAL, backup JOURNAL FOLDER, statement CONFIG JOURNAL PEER [FROM [TO]] [--csv] [--packet HEX] [--key KEY]";

// The versions of the program and of the kit that it is made with. The first stands in the file VERSION
// too, and the manual is made from the help.
const VERSION: &str = "connector 0.1.0, of rattle-kit-13f with the logic dac8208d650f15bf";

const HELP: &str = "\
A connector of the Interledger Protocol, version 4: it forwards packets between
its peers, keeps an exact balance with each, and has engines settle.

connector serve CONFIG [JOURNAL]  runs the connector until /close is posted
connector check CONFIG [JOURNAL]  says whether a configuration is valid, and what
                                  a start over a journal would do
connector replay CONFIG           runs the script of standard input over a
                                  configuration, without sockets
connector new-period CONFIG JOURNAL [NEW-CONFIG]
                                  closes the books of a journal, and begins its
                                  next period, by NEW-CONFIG where it is given
connector follows JOURNAL [CONFIG ..]
                                  says whether each period of a journal, or of the
                                  one in a folder, begins with what the one before
                                  brought forward; with CONFIG where an older
                                  program ended it. With the words CONFIG JOURNAL.P
                                  NEW-CONFIG JOURNAL it says it of these two
connector backup JOURNAL FOLDER   copies the files of a journal, which a connector
                                  may have, as they are at one moment, into a
                                  folder that is empty or not there yet
connector statement CONFIG JOURNAL PEER [FROM [TO]] [OPTION ..]
                                  lists what moved a peer's balance from FROM on
                                  and before TO, days or moments in UTC; --csv
                                  for a spreadsheet, --packet HEX what is of one
                                  condition, --key KEY what has that key
connector packet HEX              says in words what a packet has
connector help                    says this, as -h and --help do
connector --version               says the versions of the program and of the kit

CONFIG is a file in TOML, or - for the built-in configuration. JOURNAL is the
file that a run begins with, if it is there, and is saved to in the end.
JOURNAL.P has the text of its period P, and NEW-CONFIG is that of the next one.

The exit status is 0 where it is done, 1 where it is refused, which standard
output ends with as `refused NUMBER NAME`, 2 where the arguments are not
understood, and 3 where standard output failed.";

/// Whether a word asks for help.
pub(crate) fn is_help(word: &str) -> bool {
    matches!(word, "-h" | "--help")
}

/// Says what each command does.
pub(crate) fn run_help<R: Runtime>(rt: &R) -> Exit {
    print_line(rt, HELP)
}

/// Says which version this is.
pub(crate) fn run_version<R: Runtime>(rt: &R) -> Exit {
    print_line(rt, VERSION)
}
