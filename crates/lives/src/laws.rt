//! Laws of lives. Each is the contract of a function that does nothing.
ghost use Rattle.std.specs.Prelude.{List, map};
ghost use Rattle.std.specs.List.{AllByRecursion};
ghost use Rattle.lives.specs.Lives.{Lived, AreLives, AreBuiltOnceIn, GivesIds};
ghost use Rattle.lives_script.specs.Ids.{AreApartIds, IsRange};
ghost use Rattle.lives_script.specs.Place.{ids_of};
ghost use Rattle.lives_script.specs.declared.script.Script.{Script};

/// Where no two lives of a script have an id in common, no id has two ran steps that say built or refused over all of
/// them.
pub fn no_id_is_built_twice()
    ensures { (s : Script) (lived : List Lived) → AreApartIds (map ids_of s.lives)
        → AllByRecursion (λ life. IsRange (ids_of life)) s.lives → AreLives s lived
        → AreBuiltOnceIn (map (λ l. l.entries) lived) }
{}

/// Each life of a script gives the ids of its range in their order, and says that they are spent only behind the last
/// of them.
pub fn ids_are_given_in_order()
    ensures { (s : Script) (lived : List Lived) → AllByRecursion (λ life. IsRange (ids_of life)) s.lives
        → AreLives s lived → AllByRecursion GivesIds lived }
{}
