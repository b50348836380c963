//! Laws that make the definitions of generated graphs readable.
ghost use Rattle.sgb_make.specs.Ride.{RidesEnd};

/// A ride on a board ends because the board is finite: after as many steps as there are positions it has left the
/// board, or has come back to where it began. So the definition of a ride, which makes at most so many steps, loses
/// nothing.
pub fn ride_law()
    ensures { RidesEnd }
{}
