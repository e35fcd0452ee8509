//! What a connection writes is a function of what it reads, as a law.

ghost use Rattle.std.specs.Prelude.{◌≡◌, ℕ, List, ◌++◌, true};
ghost use Rattle.std.specs.List.{list_all};
ghost use Rattle.rs_rules.specs.Histories.{History};
ghost use Rattle.rs_request.specs.declared.message.RequestMessage.{RequestMessage};
ghost use Rattle.rs_exchange.specs.declared.account.Config.{Config};
ghost use Rattle.rs_front.specs.Due.{Users, Outcome, is_whole, drawn_of, due, GoesAlong};

/// Over a desk that nobody else asks, and where nothing failed, the requests, the histories before them and the words of the
/// entropy say what became of each request, which histories there are then, and so each byte that is written.
pub fn one_output()
    ensures one { (users : Users) (config : Config) (ms : List RequestMessage) (os ps : List Outcome) (old now later : ℕ → History)
        (left other : List ℕ) → drawn_of os ++ left ≡ drawn_of ps ++ other → users.alone ≡ true → list_all is_whole os ≡ true → list_all is_whole ps ≡ true
        → GoesAlong users config ms os old now → GoesAlong users config ms ps old later
        → (os ≡ ps) × (now ≡ later)
        × (due (record users { history = now }) config 0 ms os ≡ due (record users { history = later }) config 0 ms ps) }
{}
