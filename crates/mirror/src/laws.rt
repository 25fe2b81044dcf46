//! A law of mirrors. The function does nothing.
ghost use Rattle.mirror.specs.OneCache.{SidesAreOne};

/// Where there is room for all that is put, near, far, and in one cache that takes all of it, and where no
/// ask is lost and no reply made up, one of the two sides lists an archive exactly where that one cache does.
#[tactic(auto, using(crate::proofs::OneCacheLemmas::sides_are_one))]
pub fn sides_are_one()
    ensures { SidesAreOne }
{}
