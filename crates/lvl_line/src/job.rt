//! What a command line asks for, and why one is refused.
use clap::Error;

/// What a command line asks for. All texts are as they are in the line, not parsed yet. A file whose name is `-` is
/// standard input; at most one is.
#[derive(Debug, Drop, PartialEq, Eq)]
pub enum Job {
    /// To compare two files, each with the name of its top cell if one is given, with the texts of
    /// a map of Layers, of a window and of what is ignored if they are given.
    Compare {
        first: String,
        second: String,
        top_a: Option<String>,
        top_b: Option<String>,
        map: Option<String>,
        window: Option<String>,
        ignore: Option<String>,
        /// Whether the limits are those for whole chips.
        large: bool,
        /// Whether compressed blocks are read.
        unpack: bool,
        /// Whether the reason of a difference is asked for.
        why: bool,
        /// Whether files are compared only if their grid steps agree.
        units: bool,
    },
    /// To show a file, with the name of its top cell and the text of what is ignored if they are given.
    Show {
        file: String,
        top: Option<String>,
        ignore: Option<String>,
        /// Whether the limits are those for whole chips.
        large: bool,
        /// Whether compressed blocks are read.
        unpack: bool,
    },
    /// To list the cells of a file, with the text of what is ignored if it is given.
    Cells {
        file: String,
        ignore: Option<String>,
        /// Whether the limits are those for whole chips.
        large: bool,
        /// Whether compressed blocks are read.
        unpack: bool,
    },
    /// To hash what a file draws, with the name of its top cell and the text of what is ignored if they are
    /// given.
    Digest {
        file: String,
        top: Option<String>,
        ignore: Option<String>,
        /// Whether the limits are those for whole chips.
        large: bool,
        /// Whether compressed blocks are read.
        unpack: bool,
    },
    /// To list the digests of files, with the name of the top cell of each and the text of what is ignored if
    /// they are given.
    List {
        files: Vec<String>,
        top: Option<String>,
        ignore: Option<String>,
        /// Whether the limits are those for whole chips.
        large: bool,
        /// Whether compressed blocks are read.
        unpack: bool,
    },
    /// To hash the files of a list again, with the name of the top cell of each and the text of what is ignored
    /// if they are given.
    Check {
        /// The file that has the list.
        list: String,
        /// Whether only the files that aren't the same are reported.
        quiet: bool,
        top: Option<String>,
        ignore: Option<String>,
        /// Whether the limits are those for whole chips.
        large: bool,
        /// Whether compressed blocks are read.
        unpack: bool,
    },
}

/// Why a command line is refused.
#[derive(Debug, Drop)]
pub enum LineFault {
    /// `clap` refuses the words, the options of `digest` don't go together, standard input is named twice, or the words
    /// ask for help or the version. The error has the text to print.
    Words(Error),
    /// An allocation failed.
    OutOfMemory,
}
