//! The formats of a root.

ghost use Rattle.std.specs.Prelude.{◌≡◌};
ghost use Rattle.metadata_table.specs.Roots.{root_head};
ghost use Rattle.metadata_table.specs.RootReader.{format_of};

/// The formats of a root. Their heads differ, and format 2 has each file's length after its name. Both can be read;
/// format 2 is written.
#[derive(Clone, Copy)]
pub enum RootFormat {
    One,
    Two,
}

/// The head of format 2, as a number.
const HEAD_TWO: u64 = 0x5441_4252_4F4F_5432;

impl RootFormat {
    /// The bytes that a root begins with.
    pub(crate) fn head(self) -> &'static [u8]
        ensures { result.now ≡ root_head self }
    {
        match self {
            RootFormat::One => b"TABROOT1",
            RootFormat::Two => b"TABROOT2",
        }
    }

    /// The format of a head. An unknown head counts as format 1, and is refused later because it is not that format's
    /// head.
    pub(crate) fn of(head: u64) -> RootFormat
        ensures { result ≡ format_of head }
    {
        if head == HEAD_TWO {
            RootFormat::Two
        } else {
            RootFormat::One
        }
    }
}
