//! Files and the oracle's mark in real folders: tables of steps.

use crate::tests::memory::files::{merge_within, write};
use cell_key::{MOST_STAMP, Refusal, Stamp};
use file_store::{DirFiles, FileFault, Files};
use memtable::Memtable;
use oracle::{DirMark, MarkFault, MarkStore};
use std::alloc::Global;
use std::os::unix::fs::symlink;
use std::test::Fail;
use std::{fs, io, process};

/// What another program does to a name in the folder, or finds there. The name of the folder itself is empty.
#[derive(Clone, Copy)]
enum Act {
    Write(&'static [u8]),
    /// A folder is made.
    Make,
    Remove,
    /// A symbolic link to this name is made.
    Link(&'static str),
    /// A file has these bytes.
    Has(&'static [u8]),
    /// There is something, or nothing.
    Is(bool),
}

/// A call of the files, with its answer.
#[derive(Clone, Copy)]
enum Call {
    /// The folder is opened once more.
    Open,
    Put(u64, &'static [u8]),
    /// The bytes at an offset, of which at most eight are asked for.
    Read(u64, u64, &'static [u8]),
    Size(u64, Option<u64>),
    Remove(u64),
    List(&'static [u64]),
    Faults(u64),
    /// A file is begun, and left.
    Leave(u64),
    /// A file of pieces is written: all of them, and then it is finished, or given up. Its old size is seen until then.
    Pieces(u64, bool, u64),
    /// Many files are put, each with its name, and each is read right after its put; or all are read again.
    PutMany,
    ReadMany,
}

/// A call of the mark, with its answer.
#[derive(Clone, Copy)]
enum MarkCall {
    /// The folder is opened once more.
    Open,
    Load(Stamp),
    Store(Stamp),
    Faults(u64),
}

/// A step, or a call that must fail.
#[derive(Clone, Copy)]
enum Step {
    Beside(&'static str, Act),
    Files(Call),
    FilesFail(Call),
    Mark(MarkCall),
    MarkFails(MarkCall),
    /// A sorted file of forty blocks is refused, since it would be too large.
    TooLarge,
}

/// Files that don't belong to the store.
const OTHERS: [Step; 5] = [
    Step::Beside("t0000000000000003.new", Act::Write(b"other")),
    Step::Beside("t0000000000000004.tab.old", Act::Write(b"other")),
    Step::Beside("T0000000000000005.tab", Act::Write(b"other")),
    Step::Beside("t000000000000000A.tab", Act::Write(b"other")),
    Step::Beside("notes", Act::Write(b"other")),
];

/// They stay. Files exist after their put, one of them put twice, and are gone after they were removed twice.
const KEPT: [Step; 22] = [
    Step::Files(Call::List(&[])),
    Step::Files(Call::Put(10, b"old bytes")),
    Step::Files(Call::Put(10, b"ten bytes!")),
    Step::Files(Call::Put(2, b"")),
    Step::Files(Call::List(&[2, 10])),
    Step::Files(Call::Size(10, Some(10))),
    Step::Files(Call::Size(2, Some(0))),
    Step::Files(Call::Size(3, None)),
    Step::Files(Call::Read(10, 0, b"ten byte")),
    Step::Files(Call::Read(10, 6, b"tes!")),
    Step::Files(Call::Read(10, 10, b"")),
    Step::Files(Call::Read(10, u64::MAX, b"")),
    Step::Files(Call::Read(2, 0, b"")),
    Step::Files(Call::Read(3, 0, b"")),
    Step::Files(Call::Remove(10)),
    Step::Files(Call::Remove(10)),
    Step::Files(Call::List(&[2])),
    Step::Files(Call::Size(10, None)),
    Step::Files(Call::Faults(0)),
    Step::Beside("t0000000000000002.tab", Act::Has(b"")),
    Step::Beside("t0000000000000004.tab.old", Act::Has(b"other")),
    Step::Beside("notes", Act::Has(b"other")),
];

/// The mark of a new folder is 0, and a stored one is written.
const MARKED: [Step; 4] = [
    Step::Mark(MarkCall::Load(0)),
    Step::Mark(MarkCall::Store(1000)),
    Step::Beside("oracle.mark", Act::Has(b"\0\0\0\0\0\0\x03\xE8")),
    Step::Mark(MarkCall::Store(MOST_STAMP)),
];

/// The greatest mark is loaded, and bytes that are not a mark are a fault.
const MARKED_BADLY: [Step; 11] = [
    Step::Mark(MarkCall::Load(MOST_STAMP)),
    Step::Mark(MarkCall::Faults(0)),
    Step::Beside("oracle.mark", Act::Write(b"")),
    Step::MarkFails(MarkCall::Load(0)),
    Step::Beside("oracle.mark", Act::Write(b"\0\0\0\0\0\0\0")),
    Step::MarkFails(MarkCall::Load(0)),
    Step::Beside("oracle.mark", Act::Write(b"\0\0\0\0\0\0\0\0\0")),
    Step::MarkFails(MarkCall::Load(0)),
    Step::Beside("oracle.mark", Act::Write(b"\x80\0\0\0\0\0\0\0")),
    Step::MarkFails(MarkCall::Load(0)),
    Step::Mark(MarkCall::Faults(4)),
];

/// Every call fails once the folder is removed.
const REMOVED: [Step; 8] = [
    Step::Beside("", Act::Remove),
    Step::FilesFail(Call::Put(1, b"x")),
    Step::FilesFail(Call::List(&[])),
    Step::Files(Call::Faults(2)),
    Step::MarkFails(MarkCall::Store(5)),
    Step::FilesFail(Call::Open),
    Step::MarkFails(MarkCall::Open),
    Step::Beside("", Act::Make),
];

/// A put that fails because a folder has the file's name leaves no temporary file, and succeeds later.
const TAKEN: [Step; 8] = [
    Step::Beside("t0000000000000005.tab", Act::Make),
    Step::FilesFail(Call::Put(5, b"five")),
    Step::Beside("t0000000000000005.new", Act::Is(false)),
    Step::Beside("t0000000000000005.tab", Act::Remove),
    Step::Files(Call::Faults(1)),
    Step::Files(Call::Put(5, b"five")),
    Step::Files(Call::Size(5, Some(4))),
    Step::Files(Call::Faults(1)),
];

/// A file is never overwritten in place: the target of a link with its name is unchanged.
const LINKED: [Step; 5] = [
    Step::Beside("old", Act::Write(b"old")),
    Step::Beside("t0000000000000005.tab", Act::Link("old")),
    Step::Files(Call::Put(5, b"five")),
    Step::Beside("old", Act::Has(b"old")),
    Step::Beside("t0000000000000005.tab", Act::Has(b"five")),
];

/// A file that was read stays open. Once it is replaced or removed, its old bytes are never read; and if more files are
/// read than the store keeps open, each is read right.
const KEPT_OPEN: [Step; 11] = [
    Step::Files(Call::Put(5, b"old")),
    Step::Files(Call::Read(5, 0, b"old")),
    Step::Files(Call::Read(5, 0, b"old")),
    Step::Files(Call::Put(5, b"newer bytes")),
    Step::Files(Call::Read(5, 0, b"newer by")),
    Step::Files(Call::Read(5, 0, b"newer by")),
    Step::Files(Call::Remove(5)),
    Step::Files(Call::Read(5, 0, b"")),
    Step::Files(Call::PutMany),
    Step::Files(Call::ReadMany),
    Step::Files(Call::Faults(0)),
];

/// A file has its old bytes until one that is written in pieces is finished, and after one was given up.
const IN_PIECES: [Step; 11] = [
    Step::Files(Call::Put(7, b"old")),
    Step::Files(Call::Pieces(7, false, 3)),
    Step::Files(Call::Read(7, 0, b"old")),
    Step::Files(Call::Pieces(7, true, 3)),
    Step::Files(Call::Size(7, Some(4_587_520))),
    Step::Files(Call::Read(7, 0, b"\0\0\0\0\0\0\0\0")),
    Step::Files(Call::Read(7, 65_532, b"\0\0\0\0\x01\x01\x01\x01")),
    Step::Files(Call::Read(7, 4_587_512, b"EEEEEEEE")),
    Step::Files(Call::List(&[7])),
    Step::Files(Call::Faults(0)),
    Step::Beside("t0000000000000007.new", Act::Is(false)),
];

/// A file that was neither finished nor given up is there until the folder is opened again.
const LEFT: [Step; 2] = [
    Step::Files(Call::Leave(7)),
    Step::Beside("t0000000000000007.new", Act::Is(true)),
];

const LEFT_BEFORE: [Step; 2] = [
    Step::Files(Call::List(&[])),
    Step::Beside("t0000000000000007.new", Act::Is(false)),
];

/// Nothing is left of a file that is refused when pieces of it are written.
const REFUSED: [Step; 4] = [
    Step::TooLarge,
    Step::Beside("t0000000000000001.new", Act::Is(false)),
    Step::Files(Call::List(&[])),
    Step::Files(Call::Faults(0)),
];

/// The names of folders, and the steps in them after each time that they are opened.
const FOLDERS: [(&str, &[&[Step]]); 9] = [
    ("files", &[&OTHERS, &KEPT]),
    ("mark", &[&MARKED, &MARKED_BADLY]),
    ("removed", &[&REMOVED]),
    ("taken", &[&TAKEN]),
    ("links", &[&LINKED]),
    ("open", &[&KEPT_OPEN]),
    ("pieces", &[&IN_PIECES]),
    ("left", &[&LEFT, &LEFT_BEFORE]),
    ("refused", &[&REFUSED]),
];

/// How many files are read: more than the store keeps open.
const MANY: u64 = 200;

/// The length of a piece, and the number of pieces: more bytes than a folder's file has when it is first forced to the
/// disk.
const PIECE: usize = 65_536;

const PIECES: u8 = 70;

/// Whether the bytes of a file at an offset, of which at most eight are asked for, are these.
fn reads(
    files: &mut DirFiles<HostRuntime>,
    name: u64,
    offset: u64,
    wanted: &[u8],
) -> Result<bool, FileFault> {
    let mut bytes = [0u8; 8];
    let count = files.read_at(name, offset, &mut bytes)?;
    Ok(bytes.get(..count) == Some(wanted))
}

/// Whether each of many files, which contains its name, is read right, after its put or without it.
fn are_read(files: &mut DirFiles<HostRuntime>, puts: bool) -> Result<bool, FileFault> {
    for name in 1..MANY {
        if puts {
            files.put(name, &name.to_be_bytes())?;
        }
        if !reads(files, name, 0, &name.to_be_bytes())? {
            return Ok(false);
        }
    }
    Ok(true)
}

/// A memtable of `a` at the stamps 1 to 40, with values of 4,000 bytes.
fn forty(alloc: Global) -> Result<Memtable, Refusal> {
    let value = vec![in alloc; b'v'; 4000]?;
    let mut table = Memtable::new(alloc);
    for stamp in 1..=40 {
        write(alloc, &mut table, b"a", stamp, Some(&value), None)?;
    }
    Ok(table)
}

/// A folder of the store.
#[derive(Drop)]
struct Folder {
    rt: HostRuntime,
    path: String,
    files: DirFiles<HostRuntime>,
    mark: DirMark<HostRuntime>,
}

impl Folder {
    /// Opens a folder.
    fn open(rt: HostRuntime, path: &str) -> Result<Folder, Fail> {
        Ok(Folder {
            rt,
            path: path.to_string(rt.alloc())?,
            files: DirFiles::open(rt, path)?,
            mark: DirMark::open(rt, path)?,
        })
    }

    /// What another program does.
    fn beside(&self, name: &str, act: Act) -> io::Result<bool> {
        let rt = &self.rt;
        let path = format!(in rt.alloc(); "{}/{name}", self.path)?;
        let path = path.as_str();
        match act {
            Act::Write(bytes) => fs::write(rt, path, bytes)?,
            Act::Make => fs::create_dir(rt, path)?,
            Act::Remove => fs::remove_dir_all(rt, path)?,
            Act::Link(target) => symlink(rt, target, path)?,
            Act::Has(bytes) => return Ok(fs::read(rt, path)?.as_slice() == bytes),
            Act::Is(wanted) => return Ok(fs::exists(rt, path)? == wanted),
        }
        Ok(true)
    }

    /// Whether the store has exactly these files.
    fn lists(&mut self, wanted: &[u64]) -> Result<bool, FileFault> {
        let mut names = Vec::new(self.rt.alloc());
        self.files.list(&mut names)?;
        Ok(names.as_slice() == wanted)
    }

    /// Begins a file, and leaves it.
    fn leave(&mut self, name: u64) -> Result<(), FileFault> {
        let mut writing = self.files.begin(name)?;
        self.files.push(&mut writing, b"seven")
    }

    /// Writes a file in pieces, each of which has its number as each byte, and finishes it or gives it up; answers
    /// whether it had this size until then.
    fn write_pieces(&mut self, name: u64, finishes: bool, size: u64) -> Result<bool, FileFault> {
        let mut piece = vec![in self.rt.alloc(); 0u8; PIECE]?;
        let mut writing = self.files.begin(name)?;
        for number in 0..PIECES {
            piece.fill(number);
            self.files.push(&mut writing, &piece)?;
        }
        let is_old = self.files.size(name)? == Some(size);
        if finishes {
            self.files.finish(writing)?;
        } else {
            self.files.give_up(writing);
        }
        Ok(is_old)
    }

    /// Whether a call of the files is answered so.
    fn call(&mut self, call: Call) -> Result<bool, FileFault> {
        match call {
            Call::Open => {
                DirFiles::open(self.rt, self.path.as_str())?;
            }
            Call::Put(name, bytes) => self.files.put(name, bytes)?,
            Call::Read(name, offset, wanted) => {
                return reads(&mut self.files, name, offset, wanted);
            }
            Call::Size(name, size) => return Ok(self.files.size(name)? == size),
            Call::Remove(name) => self.files.remove(name)?,
            Call::List(wanted) => return self.lists(wanted),
            Call::Faults(count) => return Ok(self.files.faults() == count),
            Call::Leave(name) => self.leave(name)?,
            Call::Pieces(name, finishes, size) => return self.write_pieces(name, finishes, size),
            Call::PutMany => return are_read(&mut self.files, true),
            Call::ReadMany => return are_read(&mut self.files, false),
        }
        Ok(true)
    }

    /// Whether a call of the mark is answered so.
    fn mark(&mut self, call: MarkCall) -> Result<bool, MarkFault> {
        match call {
            MarkCall::Open => {
                DirMark::open(self.rt, self.path.as_str())?;
            }
            MarkCall::Load(stamp) => return Ok(self.mark.load()? == stamp),
            MarkCall::Store(stamp) if stamp <= MOST_STAMP => self.mark.store(stamp)?,
            MarkCall::Store(_) => return Ok(false),
            MarkCall::Faults(count) => return Ok(self.mark.faults() == count),
        }
        Ok(true)
    }

    /// Whether a file of forty blocks is refused within a limit of 100,000 bytes.
    fn is_too_large(&mut self) -> Result<bool, Refusal> {
        let alloc = self.rt.alloc();
        let table = forty(alloc)?;
        let written = merge_within(alloc, &table, None, true, 1, 100_000, &mut self.files);
        Ok(written == Err(Refusal::FileTooLarge))
    }

    /// Whether a step goes as it should.
    fn goes(&mut self, step: Step) -> Result<bool, Fail> {
        match step {
            Step::Beside(name, act) => Ok(self.beside(name, act)?),
            Step::Files(call) => Ok(self.call(call) == Ok(true)),
            Step::FilesFail(call) => Ok(self.call(call) == Err(FileFault::Device)),
            Step::Mark(call) => Ok(matches!(self.mark(call), Ok(true))),
            Step::MarkFails(call) => Ok(self.mark(call).is_err()),
            Step::TooLarge => Ok(self.is_too_large()?),
        }
    }
}

/// A new folder with this name in the machine's temporary folder.
fn new_folder(rt: &HostRuntime, name: &str) -> io::Result<String> {
    testing::folders::new_folder(rt, process::id(rt.process()), name)
}

/// Opens a folder; answers the first step that doesn't go as it should.
fn first_wrong(rt: HostRuntime, path: &str, steps: &[Step]) -> Result<Option<usize>, Fail> {
    let mut folder = Folder::open(rt, path)?;
    for (at, step) in steps.iter().enumerate() {
        if !folder.goes(*step)? {
            return Ok(Some(at));
        }
    }
    Ok(None)
}

#[test]
fn folders(rt: HostRuntime) -> Result<(), Fail> {
    for (name, parts) in FOLDERS {
        let path = new_folder(&rt, name)?;
        for steps in parts {
            let wrong = first_wrong(rt, path.as_str(), *steps)?;
            assert!(rt; wrong.is_none(), "{name} {wrong:?}");
        }
        fs::remove_dir_all(&rt, path.as_str())?;
    }
    Ok(())
}

/// The end of a file fails once the folder is removed, and so does the begin of another.
#[test]
fn a_folder_is_removed_under_a_file(rt: HostRuntime) -> Result<(), Fail> {
    let path = new_folder(&rt, "under")?;
    let mut folder = Folder::open(rt, path.as_str())?;
    let writing = folder.files.begin(7)?;
    fs::remove_dir_all(&rt, path.as_str())?;
    let finished = folder.files.finish(writing);
    let is_begun = folder.files.begin(8).is_ok();
    assert!(rt; finished == Err(FileFault::Device) && !is_begun && folder.files.faults() == 2);
    Ok(())
}
