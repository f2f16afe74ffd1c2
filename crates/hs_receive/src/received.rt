use hs_decide::Verdict;
use net_base::FaultKind;

/// What an item comes to in the handshake.
#[derive(Clone, Copy, PartialEq, Eq)]
pub enum Received {
    /// It is a message that may come on its side, and was decided.
    Decided(Verdict),
    Fault(FaultKind),
}
