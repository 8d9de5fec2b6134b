ghost use Rattle.std.specs.Prelude.{◌≡◌, ℕ, List, Result};
ghost use Rattle.vmv_keeper.specs.Tables.{Tables};
ghost use Rattle.vmv_keeper.specs.declared.act.Command.{Command};
ghost use Rattle.vmv_head.specs.declared.refusal.Refusal.{Refusal};
ghost use Rattle.vmv_desk_rules.specs.Causes.{Meaning};
ghost use Rattle.vmv_http.specs.Requests.{Asks, EndsEarly};
ghost use Rattle.vmv_http.specs.Exchanges.{Answer, Exchange};

/// A law, with nothing to do: an input asks for one thing, and for none where it ends before its request does.
pub fn inputs_ask_for_one_thing()
    ensures one { (input : List ℕ) (asked other : Result Command Refusal) → Asks input asked → Asks input other → asked ≡ other }
    ensures none { (input : List ℕ) (asked : Result Command Refusal) → Asks input asked → EndsEarly input → ⊥ }
{}

/// A law, with nothing to do: an input has one exchange over some rows, by a judge's meaning.
pub fn an_exchange_is_one()
    ensures { (J : Meaning) (input : List ℕ) (tables new other : Tables) (answer again : Answer) → Exchange J input tables new answer
        → Exchange J input tables other again → (new ≡ other) × (answer ≡ again) }
{}
