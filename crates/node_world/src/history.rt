ghost use Rattle.std.specs.Prelude.{◌≡◌, ◌++◌, ◌∷◌, []};

use http_server::Log;
use std::marker::Model;

// What was handed over, one after another. Only contracts see it: it takes no memory and nothing is done for it.
#[derive(Drop)]
pub(crate) struct History<T> {
    log: Log<T, ()>,
}

impl<T> Model for History<T> {
    ghost use Rattle.std.specs.Prelude.{List, map};

    ghost Value = { List T };

    ghost view = { λ h. map (λ entry. entry.0) h.log.items };
}

impl<T> History<T> {
    pub(crate) fn new() -> History<T>
        ensures { result ≡ [] }
    {
        History { log: Log::new() }
    }

    pub(crate) fn and(&self, item: &T) -> History<T>
        ensures { result ≡ self.now ++ item.now ∷ [] }
    {
        History {
            log: self.log.and(item, &()),
        }
    }
}
