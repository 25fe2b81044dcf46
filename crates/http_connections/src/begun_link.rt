//! A link whose first bytes were read before.
ghost use Rattle.std.specs.Prelude.{◌≡◌};
ghost use Rattle.http_connections.specs.Begun.{left_of, link_of};

use dist_types::fault::Failed;
use dist_types::link::Link;
use dist_types::sink::Sink;
use dist_types::source::Source;

/// A link whose first bytes were read before: they come first, and then what the link has left.
#[derive(Drop)]
pub struct BegunLink<L: Link> {
    begun: Vec<u8>,
    at: usize,
    link: L,
}

impl<L: Link> BegunLink<L> {
    ghost use Rattle.dist_types.specs.Content.{Taken};

    /// The link behind these bytes. It takes no memory.
    pub fn new(begun: Vec<u8>, link: L) -> Self
        ensures left { Taken begun.items (left_of L.left result) (L.left link) }
        ensures link { link_of result ≡ link }
    {
        BegunLink { begun, at: 0, link }
    }
}

impl<L: Link> Source for BegunLink<L> {
    ghost left = { λ l. left_of L.left l };

    ghost faults = { λ l. L.Source.faults l.link };

    ghost apart = { λ l. L.Source.apart l.link };

    fn read(&mut self, buf: &mut [u8]) -> Result<usize, Failed> {
        if self.at >= self.begun.len() {
            return self.link.read(buf);
        }
        let n = buf.len().min(self.begun.len() - self.at);
        buf[..n].copy_from_slice(&self.begun[self.at..self.at + n]);
        self.at += n;
        Ok(n)
    }
}

impl<L: Link> Sink for BegunLink<L> {
    ghost held = { λ l. L.held l.link };

    ghost faults = { λ l. L.Sink.faults l.link };

    ghost apart = { λ l. (left_of L.left l, L.Source.faults l.link) };

    fn write(&mut self, bytes: &[u8]) -> Result<usize, Failed> {
        self.link.write(bytes)
    }
}

impl<L: Link> Link for BegunLink<L> {
    ghost use Rattle.std.specs.Prelude.{refl};

    ghost reads_alone = { λ l. L.reads_alone l.link };

    ghost writes_alone = { λ _. refl };
}
