//! Which heads settle what is asked of a scheduler with quotas.
use dist_token::checks::{ServerAuthCheck, TokenRefusal};
use dist_types::addr::Addr;
use dist_types::fault::Memory;
use dist_types::rules::Rules;
use http_connections::take::HeadTest;
use http_head::request::Request;
use http_routes::settled::scheduler_settled;

/// Heads of a peer under the checks of clients and of servers: nobody reads the body of a request whose head
/// settles what it asks.
#[derive(Drop)]
pub(crate) struct PeerHeads<'c, 's, K, V> {
    /// Who sent them.
    pub peer: Addr,
    /// The check of clients.
    pub client: &'c K,
    /// The check of servers.
    pub server: &'s V,
}

impl<K: TokenRefusal, V: ServerAuthCheck> HeadTest for PeerHeads<'_, '_, K, V> {
    ghost use Rattle.dist_types.specs.declared.rules.Rules.TheVariants.{One};
    ghost use Rattle.http_routes.specs.Settled.{IsSettledAt};

    ghost settled = { λ heads r. IsSettledAt One (K.refuses heads.client.now)
        (V.server_of heads.server.now) r heads.peer };

    #[tactic(auto, using(http_routes::proofs::SettledLemmas::settled_at))]
    fn is_settled(&self, request: &Request) -> bool {
        match scheduler_settled(request, self.peer, self.client, self.server, Rules::One) {
            Ok(settled) => settled,
            Err(Memory) => false,
        }
    }
}
