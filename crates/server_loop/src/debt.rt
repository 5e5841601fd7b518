//! How many bytes of merges are owed: merges by levels go on at the pace at which requests come and files are written.

ghost use Rattle.std.specs.Prelude.{◌<◌, IfSome};

/// Bytes owed for each call: 4 KiB, so that a merge ends though nothing more is written.
const BYTES_PER_CALL: u64 = 4 * 1024;

/// Bytes owed for each byte by which the fullest memtable has grown. By levels an entry is written anew each time that
/// its file doubles, so 16 are enough for 65,536 memtables.
const BYTES_PER_BYTE: u64 = 16;

/// Bytes owed for each file that was written, and for one that a merge has begun: 128 KiB, half a step, so that small
/// files don't wait.
const BYTES_PER_FILE: u64 = 128 * 1024;

/// Bytes that are owed when a step is made: 256 KiB. A step's other work, a look at each tablet, is small beside them.
const STEP_BYTES: u64 = 256 * 1024;

/// The most bytes that are owed: 1 MiB. So no request waits long for a step, and after a checkpoint of many tablets the
/// merges of their files are spread over many requests.
const MOST_BYTES: u64 = 1024 * 1024;

/// The bytes that merges owe.
#[derive(Clone, Copy)]
pub(crate) struct Debt {
    /// The bytes owed.
    pub(crate) owed: u64,
    /// The most bytes of any memtable at the last call.
    pub(crate) filled: usize,
    /// The name of the next file at the last call; 0 before the first.
    pub(crate) next_name: u64,
}

impl Debt {
    /// Nothing is owed.
    pub(crate) const NONE: Debt = Debt {
        owed: 0,
        filled: 0,
        next_name: 0,
    };

    /// Adds what is owed with a call, at which no memtable has more than `filled` bytes, and the next file has this name.
    pub(crate) fn grow(&mut self, filled: usize, next_name: u64) {
        let grown = filled.saturating_sub(self.filled) as u64;
        let files = match self.next_name {
            0 => 0,
            last => next_name.saturating_sub(last),
        };
        self.filled = filled;
        self.next_name = next_name;
        self.owed = self
            .owed
            .saturating_add(BYTES_PER_CALL)
            .saturating_add(grown.saturating_mul(BYTES_PER_BYTE))
            .saturating_add(files.saturating_mul(BYTES_PER_FILE))
            .min(MOST_BYTES);
    }

    /// The bytes of the next step, if enough are owed for one. Then nothing is owed any more.
    pub(crate) fn pay(&mut self) -> Option<usize>
        ensures { IfSome result (λ bytes. 0 < bytes) }
    {
        if self.owed < STEP_BYTES {
            return None;
        }
        let bytes = self.owed as usize;
        self.owed = 0;
        Some(bytes)
    }
}
