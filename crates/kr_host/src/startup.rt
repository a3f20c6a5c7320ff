//! What a daemon opens when it starts.

ghost use Rattle.std.specs.Prelude.{◌≡◌, ◌<◌, ◌≤◌, IsTrue};
ghost use Rattle.kr_defs.specs.OpenOptions.{are_options};
ghost use Rattle.kr_flags.specs.Words.{AreInRange};
ghost use Rattle.kr_host.specs.Starts as starts;

use crate::opening::options_of;
use kr_defs::{Options, Text};
use kr_flags::Settings;

/// What a daemon opens: two addresses, a controller, and its seats.
#[derive(Debug, Drop)]
pub struct Startup {
    /// Where clients are served.
    pub listen: Text,
    /// Where the quorum is; none where it is of this process alone.
    pub link: Option<Text>,
    /// What the controller is started with.
    pub options: Options,
    /// How many seats read from it: one for each client that is served at once, and one for the images that a link asks for.
    pub seats: u32,
}

/// What a daemon with these settings opens.
pub fn startup_of(settings: Settings) -> Startup
    requires { AreInRange settings }
    ensures exact { result ≡ starts.startup_of settings }
    ensures options { IsTrue (are_options result.options) }
    ensures seats { (0 < result.seats) × (result.seats ≤ 64) }
{
    let Settings {
        listen,
        node,
        cluster,
        salt,
        link,
        clients,
    } = settings;
    let seats = seats_of(clients, &link);
    Startup {
        listen,
        link,
        options: options_of(node, cluster, salt),
        seats,
    }
}

fn seats_of(clients: u32, link: &Option<Text>) -> u32
    requires { (0 < clients) × (clients ≤ 63) }
    ensures exact { result ≡ starts.seats_of clients link.now }
    ensures range { (0 < result) × (result ≤ 64) }
{
    match link {
        None => clients,
        Some(_) => clients + 1,
    }
}
