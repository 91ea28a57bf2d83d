//! How far the exchange of a context has come.

ghost use Rattle.std.specs.Prelude.{◌≡◌};
ghost use Rattle.krb_context.specs.States.{is_waiting, is_final};

/// How far the exchange of tokens has come.
#[derive(Clone, Copy, Debug, PartialEq, Eq, Hash)]
pub enum KerberosState {
    /// Nothing was exchanged.
    TgtExchange,
    /// An acceptor awaits an AP-REQ; an initiator has sent a TGT-REQ.
    Preauthentication,
    /// The last token of the exchange is awaited.
    ApExchange,
    /// Messages can be sealed.
    Final,
}

impl KerberosState {
    /// Returns whether an AP-REQ may come.
    pub fn is_waiting(self) -> bool
        ensures { result ≡ is_waiting self }
    {
        matches!(
            self,
            KerberosState::TgtExchange | KerberosState::Preauthentication
        )
    }

    /// Returns whether the exchange is over.
    pub fn is_final(self) -> bool
        ensures { result ≡ is_final self }
    {
        matches!(self, KerberosState::Final)
    }
}
