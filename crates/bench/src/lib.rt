#![tactic(auto)]
// The library for a bench in C, C++ or Rust (docs/RULES.md, 13): the rules' calls on one machine and one writer, each
// where it stands. bench/malthobre.h declares what is exported.
mod exports;
mod packed;

pub use exports::{
    malthobre_archive_check, malthobre_archive_decided_by, malthobre_archive_record,
    malthobre_block_check, malthobre_block_record, malthobre_give, malthobre_poke, malthobre_show,
    malthobre_start, malthobre_step, malthobre_writer_add, malthobre_writer_close,
    malthobre_writer_new,
};
