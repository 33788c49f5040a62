//! What the turns of flows come to over whole histories.

ghost use Rattle.std.specs.Prelude.{◌≡◌, ◌≢◌, ℕ, List, [], ◌∷◌, ◌++◌};
ghost use Rattle.job_pools.specs.Turns.{WaitingFlow, TurnEvent, Take, TurnsLeadTo, put_into, taken_from, waiting_in};

/// Between two takes of one flow, each other flow of which something waited at the first one has a
/// take.
pub fn each_flow_has_its_turn<T>()
    ensures { (before between after : List (TurnEvent T)) (waits left : List (WaitingFlow T))
        (flow other : ℕ) (first second : T)
        → TurnsLeadTo [] (before ++ Take flow first ∷ []) waits
        → TurnsLeadTo waits (between ++ Take flow second ∷ after) left
        → other ≢ flow → waiting_in other waits ≢ [] → taken_from other between ≢ [] }
{}

/// What was put into a flow was taken out of it, in order, but for what waits there, which is the
/// rest of it.
pub fn flows_keep_their_order<T>()
    ensures { (history : List (TurnEvent T)) (waits : List (WaitingFlow T)) (flow : ℕ)
        → TurnsLeadTo [] history waits
        → put_into flow history ≡ taken_from flow history ++ waiting_in flow waits }
{}
