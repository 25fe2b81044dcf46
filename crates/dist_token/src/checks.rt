//! The checks of tokens: whether a build server, or a client, is let in.
ghost use Rattle.std.specs.Prelude.{◌≡◌, ℕ, Bool, true, List, Option, Ok, Result, IfOk, is_err, ⊤};
ghost use Rattle.std.specs.Prelude.{string_bytes};
ghost use Rattle.std.specs.Result.{result_ok};
ghost use Rattle.dist_types.specs.declared.addr.Addr.{Addr as Address};
ghost use Rattle.dist_types.specs.declared.token_error.TokenError.{TokenError as Refusal};
ghost use Rattle.dist_token.specs.Checks.{equal_verdict, equal_refuses, fixed_shown};
ghost use Rattle.dist_token.specs.CheckLaws.{equal_refusals};
ghost use Rattle.dist_token.specs.Verdict.{server_verdict, plain_server};

use crate::server_token::{check_server_token, check_under};
use crate::signing_key::SigningKey;
use dist_types::fault::Memory;
use dist_types::ids::ServerId;
use dist_types::token_error::TokenError;
use std::marker::Model;

/// Tells which server a token is accepted for.
pub trait ServerAuthCheck {
    /// The one server that a token is accepted for, or none.
    ghost server_of: { Self → List ℕ → Option Address };

    /// The one server that a token is accepted for, or none. `Memory` alone is refused.
    fn check(&self, token: &str) -> Result<Option<ServerId>, Memory>
        ensures { IfOk result (λ server. server ≡ server_of self.now token.now) };
}

/// Accepts plain tokens that carry the shared token.
#[derive(Drop)]
pub struct PlainServerCheck {
    token: String,
}

impl Model for PlainServerCheck {
    ghost use Rattle.std.specs.Prelude.{ℕ, List, string_bytes};

    ghost Value = { List ℕ };

    ghost view = { λ check. string_bytes check.token };
}

impl PlainServerCheck {
    ghost use Rattle.std.specs.Prelude.{string_bytes};

    /// The check of this shared token. It takes no memory.
    pub fn new(token: String) -> Self
        ensures { result ≡ string_bytes token }
    {
        PlainServerCheck { token }
    }
}

impl ServerAuthCheck for PlainServerCheck {
    ghost server_of = { plain_server };

    /// Takes no memory.
    fn check(&self, token: &str) -> Result<Option<ServerId>, Memory>
        ensures { result ≡ Ok (plain_server self.now token.now) }
    {
        Ok(check_server_token(token, self.token.as_str()))
    }
}

/// Accepts HS256 tokens under a key.
#[derive(Drop)]
pub struct JwtServerCheck {
    key: SigningKey,
}

impl Model for JwtServerCheck {
    ghost use Rattle.std.specs.Prelude.{ℕ, List};

    ghost Value = { List ℕ };

    ghost view = { λ check. check.key };
}

impl JwtServerCheck {
    /// The check of tokens under this key. It takes no memory.
    pub fn new(key: Vec<u8>) -> Self
        ensures { result ≡ key.items }
    {
        JwtServerCheck {
            key: SigningKey::new(key),
        }
    }
}

impl ServerAuthCheck for JwtServerCheck {
    ghost server_of = { λ key token. result_ok (server_verdict key token) };

    fn check(&self, token: &str) -> Result<Option<ServerId>, Memory> {
        check_under(self.key.allocator(), token, &self.key)
    }
}

/// A text that a client may see.
#[derive(Debug, Drop)]
pub struct ClientVisibleMsg {
    text: String,
}

impl Model for ClientVisibleMsg {
    ghost use Rattle.std.specs.Prelude.{ℕ, List, string_bytes};

    ghost Value = { List ℕ };

    ghost view = { λ msg. string_bytes msg.text };
}

impl ClientVisibleMsg {
    ghost use Rattle.std.specs.Prelude.{string_bytes};

    /// A message that tells nothing secret. It takes no memory.
    pub fn from_nonsensitive(text: String) -> Self
        ensures { result ≡ string_bytes text }
    {
        ClientVisibleMsg { text }
    }

    /// Its text.
    pub fn text(&self) -> &str
        ensures { result.now ≡ self.now }
    {
        self.text.as_str()
    }
}

/// Tells which tokens it refuses whatever the moment is, without asking anybody.
pub trait TokenRefusal {
    /// Which tokens it refuses so; it may tell none.
    ghost refuses: { Self → List ℕ → Bool };

    /// Whether it refuses a token so. It takes no memory.
    fn is_refused(&self, token: &str) -> bool
        ensures { result ≡ refuses self.now token.now };
}

/// Accepts the tokens of clients.
pub trait ClientAuthCheck: TokenRefusal + Send {
    /// Which answer it may give for a moment and a token, from its state before to its state after.
    ghost may_answer: { Self → ℕ → List ℕ → Result ⊤ Refusal → Self → Type 0 };

    /// The one text that is shown.
    ghost shown: { Self → Refusal → List ℕ };

    /// Accepts a token at a moment, in milliseconds, or says why not.
    fn check(&mut self, now: u64, token: &str) -> Result<(), TokenError>
        ensures { may_answer self.old now token.now result self.new };

    /// What a refused client may see. `Memory` alone is refused.
    fn visible(&self, e: &TokenError) -> Result<ClientVisibleMsg, Memory>
        ensures { IfOk result (λ msg. msg ≡ shown self.now e.now) };

    /// No answer accepts a token that it refuses whatever the moment is.
    ghost refusals: { (check : Self) (now : ℕ) (token : List ℕ) (answer : Result ⊤ Refusal) (new : Self)
        → may_answer check now token answer new → Self.refuses check token ≡ true → is_err answer ≡ true };
}

/// Accepts one token, and refuses any other as `FixedMismatch`.
#[derive(Drop)]
pub struct EqCheck {
    text: String,
}

impl Model for EqCheck {
    ghost use Rattle.std.specs.Prelude.{ℕ, List, string_bytes};

    ghost Value = { List ℕ };

    ghost view = { λ check. string_bytes check.text };
}

impl EqCheck {
    ghost use Rattle.std.specs.Prelude.{string_bytes};

    /// The check of this token. It takes no memory.
    pub fn new(text: String) -> Self
        ensures { result ≡ string_bytes text }
    {
        EqCheck { text }
    }
}

impl TokenRefusal for EqCheck {
    ghost refuses = { equal_refuses };

    fn is_refused(&self, token: &str) -> bool {
        self.text.as_str() != token
    }
}

impl ClientAuthCheck for EqCheck {
    ghost use Rattle.std.specs.Prelude.{◌≡◌};

    ghost may_answer = { λ old now token answer new. (new ≡ old) × (answer ≡ equal_verdict old token) };

    ghost shown = { λ check e. fixed_shown };

    ghost refusals = { equal_refusals };

    fn check(&mut self, _now: u64, token: &str) -> Result<(), TokenError> {
        if self.text.as_str() == token {
            Ok(())
        } else {
            Err(TokenError::FixedMismatch)
        }
    }

    fn visible(&self, _e: &TokenError) -> Result<ClientVisibleMsg, Memory> {
        let text = String::from_str(*self.text.allocator(), "Fixed token mismatch")?;
        Ok(ClientVisibleMsg::from_nonsensitive(text))
    }
}
