//! The desk of one user.

ghost use Rattle.std.specs.Prelude.{◌≡◌};

use crate::state::UserState;
use rs_face::Keeper;
use rs_rules::{Desk, DeskFault, Request, Tree, Turn, growth_laws};

/// A desk over one user's state and the keeper of its rows, which serves the user 0 and asks under the number 1.
///
/// It is alone: its user's history grows by its own requests only. It stands for each history that its state stands for
/// and that the keeper's rows spell, where the keeper tells them. Its count of faults is the keeper's.
#[derive(Drop)]
pub struct SoloDesk<'a, K: Keeper, T: Tree> {
    state: &'a mut UserState<T>,
    keeper: &'a mut K,
}

impl<'a, K: Keeper, T: Tree> SoloDesk<'a, K, T> {
    /// A desk over a state and the keeper of its rows.
    pub fn new(state: &'a mut UserState<T>, keeper: &'a mut K) -> SoloDesk<'a, K, T>
        ensures same_state { result.state.ghost_name ≡ state.entry.ghost_name }
        ensures same_keeper { result.keeper.ghost_name ≡ keeper.entry.ghost_name }
        ensures state { result.state.now ≡ state.old }
        ensures keeper { result.keeper.now ≡ keeper.old }
    {
        SoloDesk { state, keeper }
    }
}

impl<'a, K: Keeper, T: Tree> Desk for SoloDesk<'a, K, T> {
    ghost use Rattle.std.specs.Prelude.{◌≡◌, ℕ, true, refl};
    ghost use Rattle.std.proofs.Common.{◌∙◌, ap};
    ghost use Rattle.rs_user.specs.Standing.{StandsFor, SoloServes, IsLaterState, later_itself, later_trans};
    ghost use Rattle.rs_user.specs.Openings.{AreToldRows};

    ghost serves = { λ desk user. SoloServes T.stands K.row_count K.faults desk.state.now desk.keeper.now user };

    ghost stands = { λ desk user h. (user ≡ 0) × StandsFor T.stands desk.state.now h × AreToldRows (K.rows desk.keeper.now) h };

    ghost quota = { λ desk user. desk.state.now.quota };

    ghost me = { λ desk user. 1 };

    ghost alone = { λ desk. true };

    ghost faults = { λ desk. K.faults desk.keeper.now };

    ghost is_later = { λ old new. (new.state.ghost_name ≡ old.state.ghost_name) × (new.keeper.ghost_name ≡ old.keeper.ghost_name)
        × IsLaterState T.stands K.row_count K.faults old.state.now old.keeper.now new.state.now new.keeper.now };

    ghost stays = { λ desk. (refl, refl, later_itself T.stands K.row_count K.faults desk.state.now desk.keeper.now) };

    ghost goes_on = { λ a b c first second. (
      second.0 ∙ first.0,
      second.1 ∙ first.1,
      later_trans T.stands K.row_count K.faults a.state.now b.state.now c.state.now a.keeper.now b.keeper.now c.keeper.now first.2 second.2,
    ) };

    ghost keeps = { λ old new later. record {
      users = later.2.served;
      same_quota = ap (λ quota (user : ℕ). quota) later.2.same_quota;
      same_number = refl;
      same_alone = refl;
      later = later.2.no_fewer;
    } };

    fn turn(&mut self, _user: u32, request: &Request) -> Result<Turn, DeskFault> {
        growth_laws();
        self.state.turn(self.keeper, 1, request)
    }
}
