//! Laws of the bytes of all logs.

ghost use Rattle.std.specs.Prelude.{◌≡◌, ◌≢◌, ◌+◌, ◌<◌, ◌≤◌, ◌⊎◌, ◌++◌, ◌∷◌, [], ℕ, List, codes, length, replicate, take};
ghost use Rattle.std.specs.List.{AllByRecursion};
ghost use Rattle.commit_log.specs.Crc32.{crc32};
ghost use Rattle.cell_key.specs.declared.edits.Edit.{Edit};
ghost use Rattle.commit_log.specs.Edits.{IsStoredEdit, LogsEdits, spelled_edits};
ghost use Rattle.commit_log.specs.Frames.{IsLog, IsRecord, IsTail, frame, log_of};
ghost use Rattle.commit_log.specs.Records.{NamesRoots};
ghost use Rattle.commit_log.specs.Numbered.{Hides, IsBroken, IsNumberedLog, IsShort, frames_from, numbered};

use cell_key::one_key_a_text;

/// The checksum has the check value of CRC-32, by which it differs from other CRCs.
pub fn check_value()
    ensures { crc32 (codes "123456789") ≡ 0xCBF43926 }
{}

/// Zeros are not read as records.
pub fn zeros_are_a_tail()
    ensures { (n : ℕ) → IsTail (replicate n 0) }
{}

/// The bytes of a log of format 1 can be read in only one way.
pub fn one_reading()
    ensures { (bytes : List ℕ) (first second : List (List ℕ)) (left other : List ℕ)
        → IsLog bytes first left → IsLog bytes second other → (first ≡ second) × (left ≡ other) }
{}

/// A log reads back as it was written: all records, and no tail.
pub fn whole_log()
    ensures { (records : List (List ℕ)) → AllByRecursion IsRecord records
        → IsLog (log_of records) records [] }
{}

/// A prefix of a log that has the whole header is a log of a prefix of its records.
pub fn torn_log()
    ensures { (records : List (List ℕ)) (n : ℕ) → AllByRecursion IsRecord records → 8 ≤ n
        → (k : ℕ) × (tail : List ℕ) × IsLog (take n (log_of records)) (take k records) tail }
{}

/// How records hold edits, and that edits with the same encoding change cells in the same way.
pub fn logs_edits()
    ensures { LogsEdits }
{
    one_key_a_text();
}

/// The effect of further records on the root that a log is over, and on its stamps.
pub fn names_roots()
    ensures { NamesRoots }
{}

/// Edits with the same encoding are equal in number.
pub fn as_many_edits()
    ensures { (a b : List Edit) → AllByRecursion IsStoredEdit a → AllByRecursion IsStoredEdit b
        → spelled_edits a ≡ spelled_edits b → length a ≡ length b }
{}

/// Numbered frames can be read in only one way.
pub fn one_numbered_reading()
    ensures { (first : ℕ) (bytes : List ℕ) (some other : List (List ℕ)) (left rest : List ℕ)
        → IsNumberedLog first bytes some left → IsNumberedLog first bytes other rest
        → (some ≡ other) × (left ≡ rest) }
{}

/// A log is not broken.
pub fn log_or_broken()
    ensures { (first : ℕ) (bytes : List ℕ) (records : List (List ℕ)) (tail : List ℕ)
        → IsNumberedLog first bytes records tail → ¬ IsBroken first bytes }
{}

/// A kill during an append leaves a log of the same records, or of one more: it is never broken. The payload must
/// contain no whole frame with one of the next numbers.
pub fn torn_numbered_append()
    ensures { (first n : ℕ) (records : List (List ℕ)) (payload : List ℕ)
        → AllByRecursion IsShort records → IsShort payload
        → ¬ Hides (first + length records) payload
        → IsNumberedLog first
        (frames_from first records ++ take n (frame (numbered (first + length records) payload)))
        records (take n (frame (numbered (first + length records) payload)))
        ⊎ IsNumberedLog first
        (frames_from first records ++ take n (frame (numbered (first + length records) payload)))
        (records ++ payload ∷ []) [] }
{}

/// Any bytes that aren't the next frame, followed by a later frame, are found to be damage.
pub fn damage_is_told()
    ensures { (first : ℕ) (records : List (List ℕ)) (junk payload behind : List ℕ) (m : ℕ)
        → AllByRecursion IsShort records → IsShort payload
        → first + length records ≤ m → m < first + length records + 131072
        → ((other rest : List ℕ) → IsShort other
        → junk ++ (frame (numbered m payload) ++ behind)
        ≢ frame (numbered (first + length records) other) ++ rest)
        → IsBroken first
        (frames_from first records ++ (junk ++ (frame (numbered m payload) ++ behind))) }
{}
