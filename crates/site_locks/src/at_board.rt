//! What a number does at the board.

ghost use Rattle.std.specs.Prelude.{◌≡◌, ◌<◌, ◌≤◌, ◌∷◌, ℕ, length, slice_index, slice_set};
ghost use Rattle.turn_lock.specs.Board.{AllUnder};
ghost use Rattle.turn_lock.specs.BoardSeats.{MayDraw};

use crate::locks::{Locks, Seats};
use crate::named::Site;
use named_columns::named::Backed;
use okws_outer::keeper::Keeper;
use okws_outer::stream::Sink;

impl<N: Backed, J: Site, K: Keeper, S: Sink> Seats<N, J, K, S> {
    /// The greatest incarnation of the service that has begun: at least what the number has seen, and seen
    /// from then on.
    pub fn current(&mut self, locks: &Locks<N, J, K, S>, service: u16) -> u32
        requires { service < length N.site.services }
        ensures least { slice_index self.old.board service ≤ result }
        ensures seen { self.new ≡ record self.old { board = slice_set self.old.board service result } }
        ensures shown { slice_index self.new.board service ≡ result }
    {
        locks.board.current(&mut self.board, service)
    }

    /// Draws a connection number, above all that the number drew. No other number is given it.
    pub fn draw(&mut self, locks: &Locks<N, J, K, S>) -> u64
        requires { MayDraw self.old.drawn }
        ensures above { AllUnder result self.old.drawn }
        ensures drawn { self.new ≡ record self.old { drawn = result ∷ self.old.drawn } }
    {
        locks.board.draw(&mut self.board)
    }

    /// The launcher writes that an incarnation of a service has begun, above the one that stands there.
    pub fn raise(&mut self, locks: &Locks<N, J, K, S>, service: u16, incarnation: u32)
        requires launcher { self.old.number ≡ N.launcher }
        requires service { service < length N.site.services }
        requires above { slice_index self.old.board service < incarnation }
        ensures seen { self.new ≡ record self.old { board = slice_set self.old.board service incarnation } }
    {
        locks.board.raise(&mut self.board, service, incarnation);
    }

    /// The launcher has seen at least what another number has of each service: it alone writes there.
    pub fn compare(&mut self, locks: &Locks<N, J, K, S>, other: &mut Seats<N, J, K, S>)
        requires { self.old.number ≡ N.launcher }
        ensures least { (s : ℕ) → slice_index other.old.board s ≤ slice_index self.old.board s }
        ensures same { (self.new ≡ self.old) × (other.new ≡ other.old) }
    {
        locks.board.compare(&mut self.board, &mut other.board);
    }
}
