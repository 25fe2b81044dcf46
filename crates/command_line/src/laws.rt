//! What holds of all option words, and of every configuration file.
ghost use Rattle.std.specs.Prelude.{◌≡◌, ℕ, List, Some, true, false, codes, IsPermutation};
ghost use Rattle.toml.specs.Data.{Members, get_member};
ghost use Rattle.command_line.specs.Keys.{Tells, scheduler_bad, server_bad, IsRulesAt};
ghost use Rattle.command_line.specs.Profile.{scheduler_in, server_in, scheduler_keys, server_keys};
ghost use Rattle.command_line.specs.Options.{Pairs, Said, options_in, said_by};
ghost use Rattle.command_line.specs.Spelled.{Spells, AskAlike};
ghost use Rattle.command_line.specs.Unknown.{is_known, least_unknown, IsLeast};
ghost use Rattle.command_line.specs.Values.{rules_at};

/// Words are read as options exactly where they spell some, each once, in one of its two spellings, and then
/// they say those options with those values. In whatever order the options stand, and in whichever spelling
/// each, the same is said and asked for.
pub fn options_stand_in_any_order()
    ensures said { (pairs : Pairs) (words : List (List ℕ)) → Spells pairs words
        → options_in words ≡ Some (said_by pairs) }
    ensures spelled { (words : List (List ℕ)) (said : Said) → options_in words ≡ Some said
        → (pairs : Pairs) × Spells pairs words × (said ≡ said_by pairs) }
    ensures order { (pairs others : Pairs) (words other_words : List (List ℕ)) → IsPermutation pairs others
        → Spells pairs words → Spells others other_words
        → (options_in words ≡ options_in other_words) × AskAlike words other_words }
{}

/// A file says a configuration exactly where no key of it is unknown and each key has its value. Else one key
/// is told: the least unknown one in byte order, and where there is none the first in the order of the profile
/// that is missing or has another value. `rules` is 1, 2 or missing, and known to the scheduler's file alone.
pub fn files_tell_their_bad_key()
    ensures scheduler { (members : Members) → Tells (scheduler_bad members) (scheduler_in members) }
    ensures server { (members : Members) → Tells (server_bad members) (server_in members) }
    ensures least { (known : List (List ℕ)) (members : Members)
        → IsLeast known members (least_unknown known members) }
    ensures rules { (members : Members)
        → IsRulesAt (get_member (codes "rules") members) (rules_at (codes "rules") members) }
    ensures to_scheduler { is_known scheduler_keys (codes "rules") ≡ true }
    ensures not_to_server { is_known server_keys (codes "rules") ≡ false }
{}
