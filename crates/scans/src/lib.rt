// Where things stand on a sheet on which a process and a formula are laid out. Codes are gone through one by
// one: each says how many bytes it takes with its operands, and how many parts follow it.
#![tactic(auto)]

mod modals;
mod summands;

pub use modals::{code_width, find_fixed, is_fixed, parts_of, skip};
pub use summands::{next_matching, part_parts, part_width, places_of};

// Where a formula ends, and how many fixed points stand in it.
#[derive(Clone, Copy)]
pub struct Skipped {
    pub next: usize,
    pub count: usize,
}
