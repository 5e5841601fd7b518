//! Laws of sessions, whatever is called. Each is a function that does nothing: its contract is the law.

ghost use Rattle.std.specs.Prelude.{◌≡◌};
ghost use Rattle.si_model.specs.Machine.{State};
ghost use Rattle.txn_client.specs.Shows.{ShowsClients};
ghost use Rattle.txn_client.specs.declared.sessions.Clients.{Clients};

/// Sessions that show a state also show any state with the same top, the same starts and the same active sessions.
pub fn shows_on()
    ensures { (clients : Clients) (st next : State) → ShowsClients clients st → next.top ≡ st.top
        → next.begun ≡ st.begun → next.active ≡ st.active → ShowsClients clients next }
{}
