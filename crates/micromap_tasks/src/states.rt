//! A state machine, whose transitions are a map.

use micromap::Map;

/// The state of a door.
#[derive(Debug, Clone, Copy, PartialEq, Eq)]
pub enum Door {
    /// One can go through.
    Open,
    /// It can be opened.
    Closed,
    /// It has to be unlocked first.
    Locked,
}

/// What is done to a door.
#[derive(Debug, Clone, Copy, PartialEq, Eq)]
pub enum Act {
    /// The door is moved.
    Push,
    /// The key is turned.
    Turn,
}

/// What each act makes of each state; acts that are missing aren't allowed.
pub type Rules = Map<(Door, Act), Door, 8>;

/// Makes the rules of a door.
pub fn door_rules() -> Rules {
    let mut rules = Map::new();
    rules.put((Door::Open, Act::Push), Door::Closed);
    rules.put((Door::Closed, Act::Push), Door::Open);
    rules.put((Door::Closed, Act::Turn), Door::Locked);
    rules.put((Door::Locked, Act::Turn), Door::Closed);
    rules
}

/// Returns the state after an act, or `None` if the act isn't allowed.
pub fn next_state(rules: &Rules, state: Door, act: Act) -> Option<Door> {
    rules.get(&(state, act)).copied()
}

/// Returns the state after all acts of a list, or `None` if one isn't allowed.
pub fn state_after(rules: &Rules, start: Door, acts: &[Act]) -> Option<Door> {
    let mut state = start;
    for act in acts {
        state = next_state(rules, state, *act)?;
    }
    Some(state)
}
