//! Laws of answers. Each function does nothing: its contract is the law.

ghost use Rattle.std.specs.Prelude.{◌≡◌, ℕ, List, true};
ghost use Rattle.rs_rules.specs.Answers.{answer};
ghost use Rattle.rs_rules.specs.Histories.{History};
ghost use Rattle.rs_talk.specs.declared.ask.Ask.{Ask};
ghost use Rattle.rs_talk.specs.AskRequests.{request_asked};
ghost use Rattle.rs_talk.specs.Asks.{is_ask};
ghost use Rattle.rs_talk.specs.ReplyAnswers.{may_answer};

/// What a history answers to an ask is a reply that its asker can read: a folder shows its items and a document itself, and
/// that a version is still the present one is said only to who named it.
pub fn answer_laws()
    ensures may_come { (h : History) (quota : ℕ) (token : List ℕ) (ask : Ask) → is_ask ask ≡ true
        → may_answer ask (answer h quota (request_asked token ask)) ≡ true }
{}
