//! The laws of the descent, and a worked case.

ghost use Rattle.gain_place.specs.Descent.{DescentsKeepRooms, DescentsLowerTheCut, EachStartHasOneEnd, OthersKeepTheirGains};
ghost use Rattle.gain_place.specs.Worked.{ExampleHolds};

use history_law::drivers::driver_is_element;

/// For every placement: the descent ends at one placement at most, since each of its moves is the only one
/// that is best.
pub fn each_start_has_one_end()
    ensures { EachStartHasOneEnd }
{}

/// Each move of a descent takes at least 1 from the cut, so it has no more moves than the cut of its start; and
/// no move from its end takes any.
pub fn descents_lower_the_cut()
    ensures { DescentsLowerTheCut }
{}

/// A descent from a placement that keeps the rooms of a board ends at one that keeps them.
pub fn descents_keep_rooms()
    ensures { DescentsKeepRooms }
{}

/// A move leaves the gains of all moves of elements that share no net with a home with the moved one. So only
/// those that share one need to be evaluated again.
pub fn others_keep_their_gains()
    ensures { OthersKeepTheirGains }
{
    driver_is_element();
}

/// The worked case of the rule: a cut of 1, and a move that gains 1.
pub fn example_holds()
    ensures { ExampleHolds }
{}
