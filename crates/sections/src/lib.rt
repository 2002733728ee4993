// The blocks of a chart: where they begin and end, and what each says, as numbers and places.
#![tactic(auto)]

mod blocks;
mod gathering;
mod lines;
mod runs;
mod slots;
mod values;
mod walking;

pub use blocks::{
    DefinitionRead, Parts, Place, SectionRead, kind_at, next_block, read_definition, section_parts,
};
pub use gathering::{Gathered, gather};
pub use lines::line_numbered;
pub use runs::{Run, Test, run_of};
pub use slots::{SLOTS, Said, find, slot_of};
pub use values::{Keys, Modifiers, keys_of};
pub use walking::{Met, meet};
