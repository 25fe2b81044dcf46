//! What is asked of the scheduler is answered by the entry of its call, as the running scheduler's clauses say
//! it. The law is the contract of a function that does nothing.
ghost use Rattle.std.specs.Prelude.{◌≡◌, ℕ, Bool};
ghost use Rattle.std.specs.Option.{option_map};
ghost use Rattle.core_rules.specs.Log.{Core as Seen};
ghost use Rattle.core_rules.specs.Rule.{rule};
ghost use Rattle.http_routes.specs.declared.route.SchedRouted.{SchedRouted as Question};
ghost use Rattle.scheduler_replies.specs.ByEntry.{call_of};
ghost use Rattle.farm_entries.specs.Answers.{answer_to};
ghost use Rattle.farm_run.specs.ByEntry.{effect_by};

/// The farm's answer is the one that the entry of the call gives.
pub fn answers_are_by_entry()
    ensures { (seen : Seen) (number at : ℕ) (json : Bool) (what : Question)
        → answer_to seen number at json what
        ≡ effect_by seen number json what (option_map (rule seen) (call_of at what)) }
{}
