ghost use Rattle.std.specs.Prelude.{◌≡◌, ⊤};
ghost use Rattle.line_run.specs.Meaning.{IsInterpreted};
ghost use Rattle.local_clients.specs.Replay.{nobody, event_means, line_means};
ghost use Rattle.local_clients.specs.Rules.{AreInRange, CanHappen};

use crate::client_line::{ClientLine, read_line};
use crate::{ClientEvent, ClientRules, Clients};
use io_edge::PieceWriter;
use line_run::{Interpreter, Stop, tell_line};
use std::alloc::Global;
use std::marker::Model;

// How many events there may be.
const EVENTS_MOST: u64 = 1_000_000;

/// The clients, as lines lead them on.
#[derive(Drop)]
pub(crate) struct ClientsReplay {
    alloc: Global,
    clients: Clients,
}

impl Model for ClientsReplay {
    ghost use Rattle.local_clients.specs.Clients.{ClientsState};

    ghost Value = { ClientsState };

    ghost view = { λ r. r.clients };
}

impl ClientsReplay {
    /// No line was read yet. Takes no memory.
    pub(crate) fn new(alloc: Global, rules: ClientRules) -> Self
        requires { AreInRange rules }
        ensures { result ≡ nobody rules }
    {
        ClientsReplay {
            alloc,
            clients: Clients::new(alloc, rules),
        }
    }

    // An event happens, which stands in this line.
    fn happen(
        &mut self,
        event: ClientEvent,
        line: &[u8],
        pieces: &mut PieceWriter,
    ) -> Result<(), Stop>
        requires { CanHappen event }
        ensures { IsInterpreted (event_means self.old line.now event) self.new pieces.old pieces.new result }
    {
        if self.clients.taken() >= EVENTS_MOST {
            return Err(Stop::TooMany);
        }
        let actions = self.clients.take(&event)?;
        tell_line(self.alloc, line, actions.as_slice(), pieces)?;
        Ok(())
    }
}

impl Interpreter for ClientsReplay {
    ghost use Rattle.local_clients.specs.Clients.{ClientsState};

    ghost State = { ClientsState };

    ghost state = { λ r. r };

    ghost means = { line_means };

    ghost holds = { λ _. ⊤ };

    fn interpret(&mut self, line: &[u8], pieces: &mut PieceWriter) -> Result<(), Stop> {
        match read_line(self.alloc, line)? {
            ClientLine::Happen(event) => self.happen(event, line, pieces),
            ClientLine::Skipped => Ok(()),
            ClientLine::End => {
                pieces.push_line(line)?;
                Err(Stop::Ended)
            }
        }
    }
}
