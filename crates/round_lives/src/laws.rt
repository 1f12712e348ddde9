//! Laws by which what a worker does is pieces of its list, whatever others enter meanwhile.

ghost use Rattle.round_lives.specs.Laws.{ConsolesAreLived, DoorsAreLived};
ghost use Rattle.round_lives.specs.Orders.{ConsolesAreObeyed, OrdersComeAnyway};
ghost use Rattle.round_lives.specs.Serving.{DoorsAreServed};

use okws_outer::door::Door;

/// A worker that attended a door lived on by pieces, none of which is an order, and each crash was told at once.
pub fn doors_are_lived<D: Door>()
    ensures { DoorsAreLived D.Conn.wire }
{}

/// A worker that oversaw the console lived on by pieces, none of which is an Accept.
pub fn consoles_are_lived()
    ensures { ConsolesAreLived }
{}

/// What a worker that oversaw the console carried out comes of the orders that were taken there, each as it was
/// answered.
pub fn consoles_are_obeyed()
    ensures { ConsolesAreObeyed }
{}

/// What comes of orders where the console did not fail comes of them also where it failed.
pub fn orders_come_anyway()
    ensures { OrdersComeAnyway }
{}

/// The connections of a door that a worker attended were answered by the pieces by which it lived on.
pub fn doors_are_served<D: Door>()
    ensures { DoorsAreServed D.Conn.wire }
{}
