//! Wires: what a program that keeps rows and stamps answers.

ghost use Rattle.std.specs.Prelude.{◌≡◌, ℕ, Bool, Option, option_map, IfOk, OnErr, IfErr, IfSome, IsOkUnless, ◌<◌, ◌^◌};
ghost use Rattle.std.specs.List.{AllByRecursion};
ghost use Rattle.cell_key.specs.Cells.{IsEditOf};
ghost use Rattle.cell_key.specs.Places.{place_named};
ghost use Rattle.remote_rows.specs.Pages.{IsPageOf};
ghost use Rattle.remote_rows.specs.Wires.{DrawsNext, IsDone, IsEdit, IsRowOf, IsWireRefusal, KeepsRows, Makes, WireView};

use cell_key::{Edit, Family, Refusal, Row, Stamp};

/// A row as it was at one moment: its guard, and the edits that make it from nothing.
#[derive(Drop)]
pub struct FetchedRow {
    pub guard: u64,
    pub edits: Vec<Edit>,
}

/// Keys of one moment, as the edits that make them from nothing, and whether no key is left after them.
#[derive(Drop)]
pub struct Page {
    pub edits: Vec<Edit>,
    pub is_last: bool,
}

/// What became of edits that were given with a guard.
#[derive(Clone, Copy, Debug)]
pub enum Swap {
    /// They were made, all at once.
    Done,
    /// The row had another guard. Nothing was changed.
    Raced,
}

/// A wire to a program that keeps rows. Each row has a guard, a number that rises at each change of the row.
///
/// A refusal is `Device` if the wire or the other end failed, and `NoMemory` if an allocation failed.
pub trait RowWire {
    /// The view of the rows at the other end.
    ghost seen: { WireView Self };

    /// The wire has failed for good.
    ghost failed: { Self → Bool };

    /// A request has begun, for which nothing was asked yet.
    ghost begun: { Self → Type 0 };

    /// A request begins, or is made again: what is asked next is for it. Asks nothing, and changes nothing.
    fn begin(&mut self)
        ensures begun { begun self.new }
        ensures kept { KeepsRows seen self.old self.new }
        ensures same { failed self.new ≡ failed self.old };

    /// A row with all its versions, and its guard.
    ///
    /// # Errors
    ///
    /// `Device` or `NoMemory`.
    fn fetch(&mut self, row: &Row) -> Result<FetchedRow, Refusal>
        ensures found { IfSome (seen.cells self.old) (λ cells. IfOk result
            (IsRowOf cells (seen.guard self.old row.now) row.now)) }
        ensures edits { IfOk result (λ fetched.
            AllByRecursion (IsEditOf row.now) fetched.edits.items) }
        ensures kept { KeepsRows seen self.old self.new }
        ensures refusal { IfErr result IsWireRefusal };

    /// Makes edits of a row in order, all at once, if the row's guard is the given one.
    ///
    /// # Errors
    ///
    /// `Device` or `NoMemory`. If the other end doesn't tell its cells, the edits may have been made.
    fn swap(&mut self, row: &Row, guard: u64, edits: Vec<Edit>) -> Result<Swap, Refusal>
        requires { AllByRecursion (IsEditOf row.now) edits.items }
        ensures done { IfOk result (λ swap. IsDone swap
            → Makes seen row.now guard edits.items self.old self.new) }
        ensures raced { IfOk result (λ swap. ¬ IsDone swap → KeepsRows seen self.old self.new) }
        ensures err { OnErr result (KeepsRows seen self.old self.new) }
        ensures refusal { IfErr result IsWireRefusal };

    /// The keys after a cell, or from the start without one, in order, about `most` of them.
    ///
    /// # Errors
    ///
    /// `Device` or `NoMemory`.
    fn page(&mut self, after: Option<(&Row, &Family)>, most: u32) -> Result<Page, Refusal>
        ensures found { IfSome (seen.cells self.old) (λ cells. IfOk result
            (IsPageOf cells (option_map place_named after.entry))) }
        ensures edits { IfOk result (λ page. AllByRecursion IsEdit page.edits.items) }
        ensures kept { KeepsRows seen self.old self.new }
        ensures refusal { IfErr result IsWireRefusal };

    /// Whether the wire has failed for good: each later call is refused, and nobody may know what became of a swap.
    fn is_failed(&self) -> bool
        ensures { result ≡ failed self.now };
}

/// A wire to a program that keeps stamps, and the floors that servers publish.
pub trait StampWire {
    /// The last stamp, if the other end tells it: then nobody else draws.
    ghost last: { Self → Option ℕ };

    /// The other end has told this number as the least floor that all servers have published.
    ghost told: { Self → ℕ → Type 0 };

    /// The wire has failed for good.
    ghost failed: { Self → Bool };

    /// The last stamp, if nobody else draws.
    fn known(&self) -> Option<Stamp>
        ensures known { result ≡ last self.now }
        ensures limit { IfSome result (λ last. last < 2 ^ 63) };

    /// Draws a stamp, which is above all that anyone was given before.
    ///
    /// # Errors
    ///
    /// `Device` if the wire or the other end failed.
    fn draw(&mut self) -> Result<Stamp, Refusal>
        ensures drawn { IfOk result (λ stamp. DrawsNext (last self.old) stamp (last self.new)) }
        ensures left { OnErr result (last self.new ≡ last self.old) }
        ensures refusal { IsOkUnless result Refusal.Device };

    /// Publishes a floor of this server, and returns the least of the floors that all servers have published.
    ///
    /// # Errors
    ///
    /// `Device` if the wire or the other end failed.
    fn publish(&mut self, floor: Stamp) -> Result<Stamp, Refusal>
        ensures told { IfOk result (told self.new) }
        ensures alone { IfSome (last self.old) (λ _. IfOk result (λ least. least ≡ floor)) }
        ensures kept { last self.new ≡ last self.old }
        ensures refusal { IsOkUnless result Refusal.Device };

    /// Whether the wire has failed for good: each later call is refused.
    fn is_failed(&self) -> bool
        ensures { result ≡ failed self.now };
}
