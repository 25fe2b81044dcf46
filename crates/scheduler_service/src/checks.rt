//! The checks of tokens that a configuration chooses.
use dist_token::checks::{
    ClientAuthCheck, ClientVisibleMsg, EqCheck, JwtServerCheck, PlainServerCheck, ServerAuthCheck,
    TokenRefusal,
};
use dist_token::proxy::ProxyTokenCheck;
use dist_types::dialer::Dialer;
use dist_types::fault::Memory;
use dist_types::ids::ServerId;
use dist_types::token_error::TokenError;

/// How the tokens of build servers are checked.
#[derive(Drop)]
pub enum ServerCheck {
    /// Against a shared token.
    Plain(PlainServerCheck),
    /// By their signatures.
    Signed(JwtServerCheck),
}

impl ServerAuthCheck for ServerCheck {
    ghost use Rattle.scheduler_service.specs.Checks.{server_of};

    ghost server_of = { server_of };

    fn check(&self, token: &str) -> Result<Option<ServerId>, Memory> {
        match self {
            ServerCheck::Plain(check) => check.check(token),
            ServerCheck::Signed(check) => check.check(token),
        }
    }
}

/// How the tokens of clients are checked.
#[derive(Drop)]
pub enum ClientCheck<D: Dialer> {
    /// Against a shared token.
    Fixed(EqCheck),
    /// By asking a peer.
    Forwarded(ProxyTokenCheck<D>),
}

impl<D: Dialer> TokenRefusal for ClientCheck<D> {
    ghost use Rattle.scheduler_service.specs.Checks.{refuses};

    ghost refuses = { refuses };

    fn is_refused(&self, token: &str) -> bool {
        match self {
            ClientCheck::Fixed(check) => check.is_refused(token),
            ClientCheck::Forwarded(check) => check.is_refused(token),
        }
    }
}

impl<D: Dialer + Send> ClientAuthCheck for ClientCheck<D> {
    ghost use Rattle.scheduler_service.specs.Checks.{may_answer, shown};
    ghost use Rattle.scheduler_service.specs.CheckLaws.{refusals};

    ghost may_answer = { may_answer D.asked D.faults };

    ghost shown = { shown };

    ghost refusals = { refusals D.asked D.faults };

    fn check(&mut self, now: u64, token: &str) -> Result<(), TokenError> {
        match self {
            ClientCheck::Fixed(check) => check.check(now, token),
            ClientCheck::Forwarded(check) => check.check(now, token),
        }
    }

    fn visible(&self, e: &TokenError) -> Result<ClientVisibleMsg, Memory> {
        match self {
            ClientCheck::Fixed(check) => check.visible(e),
            ClientCheck::Forwarded(check) => check.visible(e),
        }
    }
}
