//! A fault as JSON: what it is, and under it what caused it.
ghost use Rattle.std.specs.Prelude.{◌≡◌, ◌<◌, [], ◌∷◌, ◌++◌, OnOk, IfOk, IfErr, length, string_bytes};
ghost use Rattle.json.specs.Token.{key, string, end_object};
ghost use Rattle.http_routes.specs.ErrJson.{texts_of, err_text, err_tokens, end_tokens};

use crate::error::HttpError;
use dist_types::text::Text;
use json::Writer;
use std::alloc::{AllocError, Global};

/// A fault as a reply tells it: a text, and the fault that caused it.
#[derive(Debug, Drop)]
pub struct ErrJson {
    /// What went wrong.
    pub description: Text,
    /// Why.
    pub cause: Option<Box<ErrJson>>,
}

// Writes the end of a fault, which tells its text.
fn write_end(description: &str, out: &mut Writer) -> Result<(), AllocError>
    ensures tokens { OnOk result (out.new.tokens ≡ out.old.tokens ++ end_tokens description.now) }
    ensures before { out.new.before ≡ out.old.before }
{
    out.key("description")?;
    out.string(description)?;
    out.end_object()
}

// Writes the tokens of a fault.
#[tactic(auto, unfolding(crate::specs::ErrJson::err_tokens))]
fn write_fault(fault: &ErrJson, out: &mut Writer) -> Result<(), AllocError>
    ensures tokens { OnOk result (out.new.tokens ≡ out.old.tokens ++ err_tokens (texts_of fault.now)) }
    ensures before { out.new.before ≡ out.old.before }
{
    out.begin_object()?;
    out.key("cause")?;
    match &fault.cause {
        Some(cause) => {
            write_fault(cause, out)?;
            write_end(fault.description.get(), out)
        }
        None => {
            out.null()?;
            write_end(fault.description.get(), out)
        }
    }
}

impl ErrJson {
    /// A fault without a cause. It takes no memory.
    pub fn of(description: Text) -> Self
        ensures texts { texts_of result ≡ description ∷ [] }
    {
        ErrJson {
            description,
            cause: None,
        }
    }

    /// A fault that this one caused. Refused for want of memory alone.
    pub fn under(self, alloc: Global, description: Text) -> Result<Self, HttpError>
        ensures texts { IfOk result (λ e. texts_of e ≡ description ∷ texts_of self) }
        ensures memory { IfErr result (λ e. e ≡ HttpError.Memory) }
    {
        let cause = Box::new(alloc, self)?;
        Ok(ErrJson {
            description,
            cause: Some(cause),
        })
    }

    /// The fault of these texts, outermost first. Refused for want of memory alone.
    pub fn new(alloc: Global, texts: &[Text]) -> Result<Self, HttpError>
        requires { 0 < length texts.now }
        ensures texts { IfOk result (λ e. texts_of e ≡ texts.now) }
        ensures memory { IfErr result (λ e. e ≡ HttpError.Memory) }
    {
        let description = texts[0].copy(alloc)?;
        if texts.len() == 1 {
            return Ok(ErrJson::of(description));
        }
        let cause = ErrJson::new(alloc, &texts[1..])?;
        cause.under(alloc, description)
    }

    /// The JSON (RFC 8259), with no spaces and its members in byte order. Refused for want of memory alone.
    #[tactic(auto, using(crate::proofs::ErrJsonLemmas::printed))]
    pub fn into_data(self, alloc: Global) -> Result<String, HttpError>
        ensures text { IfOk result (λ s. string_bytes s ≡ err_text (texts_of self)) }
        ensures memory { IfErr result (λ e. e ≡ HttpError.Memory) }
    {
        let mut out = Writer::new(Vec::new(alloc));
        write_fault(&self, &mut out)?;
        let json = String::from_utf8(out.into_inner()).unwrap();
        Ok(json)
    }
}
