ghost use Rattle.std.specs.Prelude.{◌≡◌, ◌≤◌};
ghost use Rattle.accept_gate.specs.Gate.{gate_of};
ghost use Rattle.net_base.specs.Bounds.{AreSound};

use net_base::Settings;

/// What the limits say of one more connection.
#[derive(Clone, Copy, PartialEq, Eq)]
pub enum Gate {
    /// It is let in.
    Free,
    /// It is let in, and nobody else for so many milliseconds.
    Pause(u64),
    /// It is turned away.
    Full,
}

/// The gate, by how many counted connections there are before the new one. The pause grows from none at the
/// soft limit to the whole delay at the hard limit, rounded down.
pub fn verdict(settings: &Settings, count: u64) -> Gate
    requires { AreSound settings.now }
    ensures { result ≡ gate_of settings.now count }
{
    if count >= settings.hard {
        return Gate::Full;
    }
    if count < settings.soft {
        return Gate::Free;
    }
    let above = count + 1 - settings.soft;
    let room = settings.hard - settings.soft;
    Gate::Pause(settings.delay * above / room)
}
