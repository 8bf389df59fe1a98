//! What maps and sets of ranges are good for, a module for each use.
//!
//! Each stands on the public calls of `rangemap` alone, and its theorem is proved from what
//! `rangemap` exports: see docs/PROVING.md, whose snippets these modules have.
#![tactic(auto)]

pub mod block_list;
pub mod byte_cache;
pub mod calling;
pub mod char_class;
pub mod desk;
pub mod extents;
pub mod interrupts;
pub mod memory_map;
pub mod planner;
pub mod ports;
pub mod received;
pub mod rota;
pub mod window;
