ghost use Rattle.std.specs.Prelude.{◌≡◌, ◌≤◌, map, string_bytes, IfSome};
ghost use Rattle.std.specs.Option.{option_map};
ghost use Rattle.node_run.specs.Asked.{asked_by, node_of};

use net_base::read_number;

// How many events of its world a node may take.
const EVENTS_MOST: u64 = 900_000;

// What the words of a node ask for: the names of its files, and how many events of its world there are to be.
#[derive(Clone, Copy)]
pub(crate) struct NodeWords<'a> {
    pub(crate) conf: &'a str,
    pub(crate) topo: &'a str,
    pub(crate) count: u64,
}

impl<'a> NodeWords<'a> {
    // What the words ask for, without the program's name. None is where they are not those of a node.
    pub(crate) fn of_words(words: &'a [String]) -> Option<NodeWords<'a>>
        ensures asked { option_map asked_by result ≡ node_of (map string_bytes words.now) }
        ensures few { IfSome result (λ asked. asked.count ≤ 900_000) }
    {
        match words {
            [word, conf, topo, count] if word.as_str() == "node" => {
                let count = read_number(count.as_bytes(), EVENTS_MOST)?;
                Some(NodeWords {
                    conf: conf.as_str(),
                    topo: topo.as_str(),
                    count,
                })
            }
            _ => None,
        }
    }
}
