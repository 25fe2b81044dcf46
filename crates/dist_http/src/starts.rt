//! What starts are given: limits that are one for all, and a word and a key that are drawn for each.
ghost use Rattle.std.specs.Prelude.{◌≡◌, None};
ghost use Rattle.dist_http.specs.Starts.{start_of, left_of};

use http_connections::start::Start;
use http_connections::stream::LINK_TIMEOUT_MS;
use rand_core::Rng;

/// What the starts of schedulers and build servers are given.
#[derive(Drop)]
pub struct Starts<G> {
    /// What their words and keys are drawn from.
    pub random: G,
    /// How many processors there are.
    pub cpus: u64,
    /// After how many connections a listener ends, where it does.
    pub limit: Option<u64>,
    /// How long a link waits for a byte to come or to go before it fails, in milliseconds; at least 1.
    pub timeout_ms: u64,
}

impl<G> Starts<G> {
    /// Those of listeners that do not end, on a machine with so many processors, under the usual limit of
    /// waiting. It takes no memory.
    pub fn new(random: G, cpus: u64) -> Self
        ensures { result
            ≡ record { random = random; cpus = cpus; limit = None; timeout_ms = 30000 } }
    {
        Starts {
            random,
            cpus,
            limit: None,
            timeout_ms: LINK_TIMEOUT_MS,
        }
    }
}

impl<G: Rng> Starts<G> {
    /// The next start: its word is drawn, and then its key.
    pub fn draw(&mut self) -> Start
        ensures start { result
            ≡ start_of (G.stream self.old.random) self.old.cpus self.old.limit self.old.timeout_ms }
        ensures left { G.stream self.new.random ≡ left_of (G.stream self.old.random) }
        ensures kept { self.new ≡ record self.old { random = self.new.random } }
    {
        let word = self.random.next_u64();
        let mut key = [0; 32];
        self.random.fill_bytes(&mut key);
        Start {
            word,
            key,
            cpus: self.cpus,
            limit: self.limit,
            timeout_ms: self.timeout_ms,
        }
    }
}
