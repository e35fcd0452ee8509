//! A prepared request, asked in a turn.

use crate::gate::Gate;
use crate::room::Room;
use rs_face::Keeper;
use rs_rules::{DeskFault, Reply, Tree, Turn, taken_laws};
use rs_turn::Deed;
use rs_user::PreparedRequest;

/// A prepared request of a user, and the gate that is told of its turn.
#[derive(Drop)]
pub(crate) struct Ask<'r, 'q, G: Gate> {
    pub(crate) prepared: &'r PreparedRequest<'q>,
    pub(crate) gate: &'r G,
    pub(crate) user: u32,
}

impl<'r, 'q, K: Keeper + Drop, T: Tree, G: Gate> Deed<Room<K, T>> for Ask<'r, 'q, G> {
    ghost use Rattle.rs_rules.specs.Answers.{brought};
    ghost use Rattle.rs_hall.specs.Asks.{IsShown, is_failed_turn};

    type Answer = Result<Turn, DeskFault>;

    ghost adds = { λ ask room who. brought ask.prepared.now };

    ghost shows = { λ ask quota before who after answer asked. IsShown ask.prepared.now quota before who after answer };

    ghost is_failed = { is_failed_turn };

    fn act(&mut self, room: &mut Room<K, T>, who: u64) -> Result<Turn, DeskFault> {
        taken_laws();
        self.gate.enter(self.user, who);
        let answer = room
            .state
            .turn_prepared(&mut room.keeper, who, self.prepared);
        self.gate.leave(self.user, who);
        answer
    }

    fn failed(answer: &Result<Turn, DeskFault>) -> bool {
        matches!(
            answer,
            Ok(Turn {
                reply: Reply::StoreFailed,
                ..
            })
        )
    }
}
