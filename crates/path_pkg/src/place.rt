//! How far along a path one is.
ghost use Rattle.std.specs.Prelude.{◌≡◌, IfOk, string_bytes};
ghost use Rattle.path_pkg.specs.Path.{is_absolute};
ghost use Rattle.path_pkg.specs.Place.{spot_of};
ghost use Rattle.path_pkg.specs.Spot.{spot_text, above, below, noted, beside, start};

use crate::path::{is_absolute, path_text};
use dist_types::text::Text;
use std::alloc::{AllocError, Global};

/// The path so far, and the links that were replaced on it, each with what stands in its place.
#[derive(Debug, Drop)]
pub struct Place {
    pub absolute: bool,
    pub parts: Vec<Text>,
    pub links: Vec<(Text, Text)>,
}

/// Where a path is taken from.
pub(crate) fn start(alloc: Global, path: &str) -> Place
    ensures { spot_of result ≡ start path.now }
{
    Place {
        absolute: is_absolute(path),
        parts: Vec::new(alloc),
        links: Vec::new(alloc),
    }
}

/// The text of the path so far.
pub(crate) fn text(alloc: Global, place: &Place) -> Result<String, AllocError>
    ensures { IfOk result (λ text. string_bytes text ≡ spot_text (spot_of place.now)) }
{
    path_text(alloc, place.absolute, &place.parts)
}

/// Without the last part.
pub(crate) fn above(place: Place) -> Place
    ensures { spot_of result ≡ above (spot_of place) }
{
    let Place {
        absolute,
        mut parts,
        links,
    } = place;
    let _ = parts.pop();
    Place {
        absolute,
        parts,
        links,
    }
}

/// With one part more.
pub(crate) fn below(place: Place, name: Text) -> Result<Place, AllocError>
    ensures { IfOk result (λ p. spot_of p ≡ below (spot_of place) name) }
{
    let Place {
        absolute,
        mut parts,
        links,
    } = place;
    parts.push(name)?;
    Ok(Place {
        absolute,
        parts,
        links,
    })
}

/// With the link at a path noted, which led here.
pub(crate) fn noted(alloc: Global, place: Place, path: Text) -> Result<Place, AllocError>
    ensures { IfOk result (λ p. spot_of p ≡ noted (spot_of place) path) }
{
    let text = text(alloc, &place)?;
    let Place {
        absolute,
        parts,
        mut links,
    } = place;
    links.push((path, Text::new(text)))?;
    Ok(Place {
        absolute,
        parts,
        links,
    })
}

/// Where the target of a link in this directory is taken from.
pub(crate) fn beside(alloc: Global, place: Place, target: &str) -> Place
    ensures { spot_of result ≡ beside (spot_of place) target.now }
{
    if !is_absolute(target) {
        return place;
    }
    let Place {
        absolute: _,
        parts: _,
        links,
    } = place;
    Place {
        absolute: true,
        parts: Vec::new(alloc),
        links,
    }
}
