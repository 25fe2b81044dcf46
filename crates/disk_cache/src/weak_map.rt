//! Weak maps: the weak keys of compilers, each with the id of the archive that was packaged for it.
ghost use Rattle.std.specs.Prelude.{◌≡◌, [], IfOk, Some, is_some, option_map, option_and_then, codes};
ghost use Rattle.serde_json.specs.Data.{string, put};
ghost use Rattle.serde_json.specs.Find.{as_str, get};
ghost use Rattle.serde_json.specs.View.{view, members_view};
ghost use Rattle.disk_cache.specs.WeakMaps.{json_of, object_texts, texts_in, weak_map_in, recorded};
ghost use Rattle.disk_cache.specs.WeakMaps.{recorded_id, with_recorded};

use dist_types::fault::Memory;
use dist_types::toolchain::Toolchain;
use serde_json::{Map, Value};
use std::alloc::{AllocError, Global};
use std::marker::Model;

/// The weak keys that are recorded, each with an id, which contracts see as the list of both, by key.
#[derive(Drop)]
pub struct WeakMap {
    value: Value,
}

impl Model for WeakMap {
    ghost use Rattle.std.specs.Prelude.{◌≡◌, ℕ, List, [], true, is_some, unwrap_or};
    ghost use Rattle.serde_json.specs.View.{view as seen};
    ghost use Rattle.disk_cache.specs.WeakMaps.{object_texts};

    ghost Value = { List (List ℕ × List ℕ) };

    ghost view = { λ w. unwrap_or (object_texts (seen w.value)) [] };

    ghost invariant = { λ w. is_some (object_texts (seen w.value)) ≡ true };
}

/// The value that bytes are as JSON.
fn json_of(alloc: Global, bytes: &[u8]) -> Result<Option<Value>, Memory>
    ensures { IfOk result (λ value. option_map view value ≡ json_of bytes.now) }
{
    let Ok(text) = str::from_utf8(bytes) else {
        return Ok(None);
    };
    match Value::from_str(alloc, text) {
        Ok(value) => Ok(Some(value)),
        Err(e) => { if e.is_memory() { Err(Memory) } else { Ok(None) } }
    }
}

/// Whether all members are texts.
#[tactic(auto, using(crate::proofs::JsonLemmas::more_texts, crate::proofs::JsonLemmas::no_texts))]
fn are_texts(members: &Map<String, Value>) -> bool
    ensures { result ≡ is_some (texts_in (members_view members.now.entries)) }
{
    for (_, member) in members {
        if !member.is_string() {
            return false;
        }
    }
    true
}

/// Whether it is an object of texts.
fn is_text_object(value: &Value) -> bool
    ensures { result ≡ is_some (object_texts (view value.now)) }
{
    match value.as_object() {
        Some(members) => are_texts(members),
        None => false,
    }
}

impl WeakMap {
    /// The weak map in which nothing is recorded. It takes no memory.
    pub(crate) fn empty(alloc: Global) -> Self
        ensures { result ≡ [] }
    {
        WeakMap {
            value: Value::Object(Map::new(alloc)),
        }
    }

    /// The weak map that bytes are, where they are one. Refused for want of memory alone.
    #[tactic(auto, unfolding(crate::specs::WeakMaps::weak_map_in))]
    pub(crate) fn read(alloc: Global, bytes: &[u8]) -> Result<Option<Self>, Memory>
        ensures { IfOk result (λ map. map ≡ weak_map_in bytes.now) }
    {
        match json_of(alloc, bytes)? {
            Some(value) => {
                if is_text_object(&value) {
                    Ok(Some(WeakMap { value }))
                } else {
                    Ok(None)
                }
            }
            None => Ok(None),
        }
    }

    /// What is recorded under a weak key.
    fn recorded(&self, key: &str) -> Option<&str>
        ensures { option_map (λ t. t.now) result ≡ recorded key.now self.now }
    {
        text_at(&self.value, key)
    }

    /// The id that is recorded under a weak key; a text that is no id records none. It takes no memory.
    pub(crate) fn recorded_id(&self, key: &str) -> Option<Toolchain>
        ensures { result ≡ recorded_id key.now self.now }
    {
        let text = self.recorded(key)?;
        match Toolchain::new(text) {
            Ok(tc) => Some(tc),
            Err(_) => None,
        }
    }

    /// The same with an id recorded under a key. Refused for want of memory alone.
    pub(crate) fn with_recorded(
        &self,
        alloc: Global,
        key: &str,
        tc: &Toolchain,
    ) -> Result<Self, AllocError>
        ensures { IfOk result (λ map. map ≡ with_recorded key.now tc.now self.now) }
    {
        let Value::Object(members) = self.value.clone()? else {
            unreachable!();
        };
        let members = with_member(alloc, members, key, tc.archive_id())?;
        Ok(WeakMap {
            value: Value::Object(members),
        })
    }

    /// Its text in JSON, `{}` where nothing is recorded. Refused for want of memory alone.
    pub(crate) fn text(&self, alloc: Global) -> Result<Vec<u8>, AllocError>
        ensures reads { IfOk result (λ text. weak_map_in text.items ≡ Some self.now) }
        ensures empty { IfOk result (λ text. self.now ≡ [] → text.items ≡ codes "{}") }
    {
        let text = self.value.to_vec(alloc)?;
        Ok(text)
    }
}

/// The text under a key of an object.
fn text_at<'a>(value: &'a Value, key: &str) -> Option<&'a str>
    ensures { option_map (λ t. t.now) result ≡ option_and_then as_str (get key.now (view value.now)) }
{
    value.get(key).and_then(Value::as_str)
}

/// Members with a text under a key.
fn with_member(
    alloc: Global,
    members: Map<String, Value>,
    key: &str,
    text: &str,
) -> Result<Map<String, Value>, AllocError>
    ensures { IfOk result (λ m. members_view m.entries ≡ put key.now (string text.now) (members_view
        members.entries)) }
{
    let mut members = members;
    let text = Value::String(String::from_str(alloc, text)?);
    serde_json::put(&mut members, alloc, key, text)?;
    Ok(members)
}
