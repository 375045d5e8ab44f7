//! Leave to take a desk.
ghost use Rattle.std.specs.Prelude.{◌≡◌};
ghost use Rattle.hd_routes.specs.Requests.{IsAsked};

/// Leave to take a desk. Only the table of routes gives one, for an upgrade whose only Host names this server and whose only
/// Origin is that of the server's page (RFC 6455, section 10.2).
#[derive(Clone, Copy, Debug, PartialEq, Eq)]
pub struct Pass {
    /// The port of the server.
    port: u16,
    /// What the upgrade's key is answered by.
    accept_key: [u8; 28],
    pub ghost asked: { ∥ IsAsked port accept_key ∥₁ },
}

impl Pass {
    /// Leave for a request that asks for a desk.
    pub(crate) fn new(port: u16, accept_key: [u8; 28]) -> Pass
        requires { IsAsked port accept_key }
        ensures { result.accept_key ≡ accept_key }
    {
        Pass { port, accept_key }
    }

    /// What the upgrade's key is answered by (RFC 6455, section 4.2.2).
    pub(crate) fn accept_key(&self) -> &[u8; 28]
        ensures { result.now ≡ self.now.accept_key }
    {
        &self.accept_key
    }
}
