// How many bytes a dossier may have; specs/Limits.antt has the same number.
pub const MOST_INPUT_BYTES: usize = 65_536;
