//! The check of clients that takes each listed name as a token.
ghost use Rattle.std.specs.Prelude.{◌≡◌, is_some};
ghost use Rattle.quota.specs.Clients.{place_of};

use dist_token::checks::{ClientAuthCheck, ClientVisibleMsg, TokenRefusal};
use dist_token::job_token::JWTJobAuthorizer;
use dist_types::fault::Memory;
use dist_types::token_error::TokenError;
use quota::state::QuotaState;
use std::alloc::Global;
use std::marker::Model;

/// Accepts the name of each client of a scheduler with quotas, and refuses any other token as
/// `FixedMismatch`. Contracts see the clients.
#[derive(Drop)]
pub(crate) struct ListedCheck<'q> {
    alloc: Global,
    quota: &'q QuotaState<JWTJobAuthorizer>,
}

impl<'q> Model for ListedCheck<'q> {
    ghost use Rattle.std.specs.Prelude.{List};
    ghost use Rattle.quota.specs.Clients.{Client};

    ghost Value = { List Client };

    ghost view = { λ check. check.quota.now.clients };
}

impl<'q> ListedCheck<'q> {
    /// The check of the clients of this scheduler. It takes no memory.
    pub fn new(alloc: Global, quota: &'q QuotaState<JWTJobAuthorizer>) -> Self
        ensures { result ≡ quota.now.clients }
    {
        ListedCheck { alloc, quota }
    }

    /// Whether a client has that name.
    #[tactic(auto, using(crate::proofs::ListedLemmas::some_mapped))]
    fn lists(&self, name: &str) -> bool
        ensures { result ≡ is_some (place_of self.now name.now) }
    {
        self.quota.held(name).is_some()
    }
}

impl TokenRefusal for ListedCheck<'_> {
    ghost use Rattle.quota_service.specs.Listed.{listed_refuses};

    ghost refuses = { listed_refuses };

    #[tactic(auto, using(crate::proofs::ListedLemmas::refused_unlisted))]
    fn is_refused(&self, token: &str) -> bool {
        !self.lists(token)
    }
}

impl ClientAuthCheck for ListedCheck<'_> {
    ghost use Rattle.std.specs.Prelude.{◌≡◌};
    ghost use Rattle.dist_token.specs.Checks.{fixed_shown};
    ghost use Rattle.quota_service.specs.CheckLaws.{listed_refusals};
    ghost use Rattle.quota_service.specs.Listed.{listed_verdict};

    ghost may_answer = { λ old now token answer new. (new ≡ old) × (answer ≡ listed_verdict old token) };

    ghost shown = { λ check e. fixed_shown };

    ghost refusals = { listed_refusals };

    #[tactic(auto, using(crate::proofs::ListedLemmas::lets_listed, crate::proofs::ListedLemmas::shuts_unlisted))]
    fn check(&mut self, _now: u64, token: &str) -> Result<(), TokenError> {
        if self.lists(token) {
            Ok(())
        } else {
            Err(TokenError::FixedMismatch)
        }
    }

    fn visible(&self, _e: &TokenError) -> Result<ClientVisibleMsg, Memory> {
        let text = String::from_str(self.alloc, "Fixed token mismatch")?;
        Ok(ClientVisibleMsg::from_nonsensitive(text))
    }
}
