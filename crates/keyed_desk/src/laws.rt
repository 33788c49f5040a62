//! What changes with keys are to the desk alone.

ghost use Rattle.std.specs.Prelude.{◌≡◌, ℕ, List, []};
ghost use Rattle.recovery.specs.Histories.{IsAfter};
ghost use Rattle.desk_journal.specs.DeskSteps.{DeskState, IsNewDesk, MakesBytes};
ghost use Rattle.keyed_desk.specs.KeyedSteps.{ArePlainOf, IsNewKeyed, KeyedState, MakesKeyed};

/// Without its keys, a history leads to the same desk: the changes of the desk that it has, in order,
/// lead there. What leads to a desk alone leads to it with no key, too.
pub fn plain_changes_lead_to_desks()
    ensures plain { (changes : List (List ℕ)) (state : KeyedState)
        → IsAfter IsNewKeyed MakesKeyed changes state
        → (plain : List (List ℕ)) × ArePlainOf changes plain
        × IsAfter IsNewDesk MakesBytes plain state.desk }
    ensures unkeyed { (changes : List (List ℕ)) (state : DeskState)
        → IsAfter IsNewDesk MakesBytes changes state
        → IsAfter IsNewKeyed MakesKeyed changes (record { desk = state; keys = [] }) }
{}
