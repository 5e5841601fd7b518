//! The options of the command line, their limits, and the version.

/// The version that `--version` prints. The Python client has the same.
pub const VERSION: &str = "0.7.0";

/// The default for `--flush`: the number of entries at which a memtable is compacted.
pub const DEFAULT_FLUSH: u32 = 10_000;

/// The greatest value of `--flush`. The least is 1.
pub const MOST_FLUSH: u32 = 100_000;

/// The least value of `--flush-bytes`.
pub const LEAST_FLUSH_BYTES: u32 = 1_048_576;

/// The greatest value of `--flush-bytes`.
pub const MOST_FLUSH_BYTES: u32 = 67_108_864;

/// The greatest value of `--merge`. The least is 2.
pub const MOST_MERGE: u32 = 64;

/// The default and least value of `--cache`: the most blocks that each file caches.
pub const LEAST_CACHE: u32 = 8;

/// The greatest value of `--cache`.
pub const MOST_CACHE: u32 = 4096;

/// The least value of `--session-bytes`. The greatest is 4,294,967,295.
pub const LEAST_SESSION_BYTES: u32 = 1_048_576;

/// The least value of `--log-bytes`.
pub const LEAST_LOG_BYTES: u32 = 4096;

/// The default and greatest value of `--log-bytes`: the size of a log in bytes at which a checkpoint is made. It is
/// half of a log's upper bound.
pub const MOST_LOG_BYTES: u32 = 33_554_432;

/// The one value of `--format`: the format of files in pieces with checksums.
pub const SUMS_FORMAT: u32 = 3;

/// The options given on the command line.
#[derive(Clone, Copy, Debug, PartialEq, Eq)]
pub struct Options<'a> {
    /// The folder of the store. None: in memory.
    pub dir: Option<&'a str>,
    /// A folder with the pipes to a program that keeps rows and stamps, which several servers share. None: the store is
    /// this program's own.
    pub rows: Option<&'a str>,
    /// Whether a folder without a log gets one. A folder with a log is opened with it in any case.
    pub log: bool,
    /// The format of the files that a folder gets: 3. None: that which the folder has.
    pub format: Option<u32>,
    /// The bytes of edits in a log at which a checkpoint empties it: 4,096 to 33,554,432.
    pub log_bytes: u32,
    /// The number of entries at which a memtable is compacted: 1 to 100,000.
    pub flush: u32,
    /// The bytes of entries at which a memtable is compacted too: 1,048,576 to 67,108,864. None: bytes aren't limited.
    pub flush_bytes: Option<u32>,
    /// The number of files at which a tablet's newest files are merged: 2 to 64. None: never, or by levels with upkeep.
    pub merge: Option<u32>,
    /// The most blocks cached of each file: 8 to 4,096.
    pub cache: u32,
    /// The most bytes that the writes of all sessions may have: 1,048,576 or more. None: there is no limit.
    pub session_bytes: Option<u32>,
    /// Whether the store keeps house by itself: files are merged by levels, in steps, if no number is given, and a
    /// checkpoint that a log makes due is followed by a sweep of the files that nothing needs.
    pub upkeep: bool,
    /// Whether several clients share the streams: each body begins with a client's number.
    pub clients: bool,
    /// The client that alone may ask for upkeep: 1 or more. None: each may.
    pub admin: Option<u32>,
}
