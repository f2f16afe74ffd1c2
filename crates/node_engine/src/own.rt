ghost use Rattle.std.specs.Prelude.{◌≡◌};
ghost use Rattle.machine.specs.Own.{own_info};
ghost use Rattle.net_base.specs.Bounds.{AreSound};

use hs_message::VersionInfo;
use net_base::Settings;

/// What a node says of itself in the handshake.
pub fn own_info(settings: &Settings) -> VersionInfo
    requires { AreSound settings.now }
    ensures { result ≡ own_info settings.now }
{
    VersionInfo {
        magic: settings.magic as u32,
        initiator_only: settings.initiator_only == 1,
        sharing: settings.sharing == 1,
        query: false,
    }
}
