/// A command of the program, with the values that its words give.
#[derive(Debug, Drop)]
pub enum Command {
    /// Serve by the configuration of this file, and end after this many rounds, 1 to 1,099,511,627,776, where nothing ends
    /// it before. The rounds are told to the file `trace`, where one is named.
    Serve {
        configuration: String,
        trace: Option<String>,
        rounds: u64,
    },
    /// Read the configuration of this file and say whether it is right.
    Check {
        configuration: String,
    },
    /// Serve so many subscribers in memory, 1 to 4,000, with so many workers, 1 to 16.
    Exercise {
        subscribers: u64,
        workers: u64,
    },
    /// Judge the trace of this file.
    Audit {
        trace: String,
    },
}

/// Why no command was read.
#[derive(Clone, Copy, Debug)]
pub enum WordsError {
    /// The words are no command.
    Refused,
    /// There was no memory.
    OutOfMemory,
}
