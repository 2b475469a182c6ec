// Panels of contractors, and the drafts that readings are entered into.
#![tactic(auto)]

pub mod draft;
pub mod entered;
pub mod entries;
pub mod joined;
pub mod pair;
pub mod panel;
pub mod reading_list;
