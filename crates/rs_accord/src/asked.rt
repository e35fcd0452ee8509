//! What a client asks, read by a server, as a law. The function does nothing: its contract is the law.

ghost use Rattle.std.specs.Prelude.{◌≡◌, ℕ, List, true, ◌++◌, Some, codes};
ghost use Rattle.rs_path.specs.Users.{is_user};
ghost use Rattle.rs_exchange.specs.declared.account.Config.{Config};
ghost use Rattle.rs_exchange.specs.declared.asked.Asked.TheVariants.{Desk};
ghost use Rattle.rs_exchange.specs.Accounts.{account_of};
ghost use Rattle.rs_exchange.specs.Requests.{asked_of};
ghost use Rattle.rs_talk.specs.declared.ask.Ask.{Ask};
ghost use Rattle.rs_talk.specs.AskRequests.{IsAsking, request_asked};
ghost use Rattle.rs_talk.specs.Asks.{ask_message};
ghost use Rattle.rs_talk.specs.Roots.{Root};

/// An ask below the root of a user, as a message, asks the user's desk for what it says: to show its folder or its document
/// unless that has the known version, to write or to remove its document where that is as the ask's base says.
pub fn asked_ask_laws()
    ensures desk { (config : Config) (user : ℕ) (name : List ℕ) (root : Root) (token : List ℕ) (ask : Ask)
        → IsAsking root token ask → is_user name ≡ true → root.path ≡ codes "/storage/" ++ name
        → account_of config.accounts name ≡ Some user
        → asked_of config (ask_message root token ask) ≡ Desk user (request_asked token ask) }
{
    rs_path::text_laws();
}
