//! Stamps that another program keeps.

ghost use Rattle.std.specs.Prelude.{◌≡◌, ◌<◌, ◌≤◌, ◌^◌, ⊤, Ok, IfOk, IsOkUnless};
ghost use Rattle.remote_rows.specs.Stamps.{last_stamp};

use crate::faults::count;
use crate::shared::SharedStamps;
use crate::wire::StampWire;
use cell_key::{MOST_STAMP, Refusal, Stamp};
use rows::Stamps;

/// Stamps that another program keeps, from which others may draw too, and the floors that are published there. A stamp
/// that isn't above all that were drawn here before, or is above the greatest one, is a fault of the other end.
#[derive(Drop)]
pub struct RemoteStamps<W: StampWire> {
    wire: W,
    drawn: Stamp,
    faults: u64,
}

impl<W: StampWire> RemoteStamps<W> {
    /// The stamps behind a wire. Asks nothing.
    pub fn new(wire: W) -> RemoteStamps<W>
        ensures wire { result.wire ≡ wire }
        ensures drawn { result.drawn ≡ 0 }
        ensures faults { result.faults ≡ 0 }
    {
        RemoteStamps {
            wire,
            drawn: 0,
            faults: 0,
        }
    }

    /// The last stamp, as far as it is known here.
    fn last(&self) -> Stamp
        ensures { result ≡ last_stamp (W.last self.now.wire) self.now.drawn }
    {
        match self.wire.known() {
            Some(last) => last,
            None => self.drawn,
        }
    }
}

impl<W: StampWire> Stamps for RemoteStamps<W> {
    ghost source = { record {
      last = λ stamps. last_stamp (W.last stamps.wire) stamps.drawn;
      known = λ stamps. W.last stamps.wire;
      leaves = λ _ _. ⊤;
    } };

    ghost faults = { λ stamps. stamps.faults };

    fn known(&self) -> Option<Stamp> {
        self.wire.known()
    }

    fn draw(&mut self) -> Result<Stamp, Refusal> {
        let last = self.last();
        if last == MOST_STAMP {
            return Err(Refusal::Exhausted);
        }
        let answer = above(self.wire.draw(), last);
        let stamp = count(&mut self.faults, answer)?;
        self.drawn = stamp;
        Ok(stamp)
    }
}

impl<W: StampWire> SharedStamps for RemoteStamps<W> {
    ghost allows = { λ stamps. W.told stamps.wire };

    ghost lost = { λ stamps. W.failed stamps.wire };

    fn publish(&mut self, floor: Stamp) -> Result<Stamp, Refusal> {
        let answer = up_to(self.wire.publish(floor), floor);
        count(&mut self.faults, answer)
    }

    fn is_lost(&self) -> bool {
        self.wire.is_failed()
    }
}

/// A stamp that was drawn, if it is above the last one and not above the greatest one.
fn above(drawn: Result<Stamp, Refusal>, last: Stamp) -> Result<Stamp, Refusal>
    requires { IsOkUnless drawn Refusal.Device }
    ensures same { IfOk result (λ stamp. drawn ≡ Ok stamp) }
    ensures above { IfOk result (λ stamp. last < stamp) }
    ensures limit { IfOk result (λ stamp. stamp < 2 ^ 63) }
    ensures refusal { IsOkUnless result Refusal.Device }
{
    match drawn {
        Ok(stamp) if stamp > last && stamp <= MOST_STAMP => Ok(stamp),
        _ => Err(Refusal::Device),
    }
}

/// The least floor, if it isn't above the one that was published.
fn up_to(published: Result<Stamp, Refusal>, floor: Stamp) -> Result<Stamp, Refusal>
    requires { IsOkUnless published Refusal.Device }
    ensures same { IfOk result (λ least. published ≡ Ok least) }
    ensures below { IfOk result (λ least. least ≤ floor) }
    ensures refusal { IsOkUnless result Refusal.Device }
{
    match published {
        Ok(least) if least <= floor => Ok(least),
        _ => Err(Refusal::Device),
    }
}
