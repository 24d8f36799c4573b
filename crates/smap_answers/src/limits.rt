//! The numbers that a command may have are those that the libraries take.

const _: () = prove!(smap_command::LIMIT == smap_mappings::LIMIT);

const _: () = prove!(smap_command::MOST_INTERVAL == smap_index::MOST_INTERVAL);
