// Lookups in the map over time: an instrument's intervals found, the three looks, and the cursor.
#![tactic(auto)]

pub mod cursor;
pub mod lookup;
