//! Which heads settle what is asked of a scheduler.
use dist_token::checks::{ServerAuthCheck, TokenRefusal};
use dist_types::addr::Addr;
use dist_types::fault::Memory;
use dist_types::rules::Rules;
use http_connections::take::HeadTest;
use http_head::request::Request;
use http_routes::settled::scheduler_settled;

/// Heads of a peer under the checks of clients and of servers: nobody reads the body of a request that asks for the
/// status, is at no route, asks for a job without a token or with one that the check of clients refuses whatever the
/// moment is, or is from no server.
#[derive(Drop)]
pub(crate) struct PeerHeads<'c, 's, K, V> {
    /// Who sent them.
    pub peer: Addr,
    /// The check of clients.
    pub client: &'c K,
    /// The check of servers.
    pub server: &'s V,
    /// The rules that the scheduler goes by.
    pub rules: Rules,
}

impl<K: TokenRefusal, V: ServerAuthCheck> HeadTest for PeerHeads<'_, '_, K, V> {
    ghost use Rattle.http_routes.specs.Settled.{IsSettledAt};

    ghost settled = { λ heads r. IsSettledAt heads.rules (K.refuses heads.client.now) (V.server_of heads.server.now) r
        heads.peer };

    #[tactic(auto, using(http_routes::proofs::SettledLemmas::settled_at))]
    fn is_settled(&self, request: &Request) -> bool {
        match scheduler_settled(request, self.peer, self.client, self.server, self.rules) {
            Ok(settled) => settled,
            Err(Memory) => false,
        }
    }
}
